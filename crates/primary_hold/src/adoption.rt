ghost use Rattle.std.specs.Prelude.{◌≡◌, ◌≤◌, true, false, not, length, IfOk};
ghost use Rattle.partition_table.specs.Rows.{is_primary, backups_of};
ghost use Rattle.partition_protocol.specs.Adoption.{is_before_reset, stays_primary, adopted_row};
ghost use Rattle.partition_protocol.specs.CatchUp.{recent_limit};
ghost use Rattle.primary_hold.specs.Adopting.{drops_contents, pair_in, HasAdopted};
ghost use Rattle.primary_hold.specs.Facts.{node_of, member_of};
ghost use Rattle.primary_hold.specs.Rooms.{IsRoomFor};
ghost use Rattle.primary_hold.specs.Views.{viewed, bare};

use crate::acks::{Acks, Earlier, EarlierView};
use crate::facts::Facts;
use crate::room::{RECENT, Room};
use crate::view::View;
use circular_buffer::HeapCircularBuffer;
use grid_base::Memory;
use partition_protocol::Pair;
use partition_table::Row;
use std::alloc::Global;
use std::mem;

impl Facts {
    /// Whether the contents are of no version before the row's reset.
    fn is_since_reset(&self, row: &Row) -> bool
        ensures { result ≡ not (is_before_reset row.now (node_of self.now)) }
    {
        row.reset <= self.pair.version
    }

    /// Whether it was primary, and goes on with its contents where the row lets it lead.
    pub fn stays_primary(&self, row: &Row) -> bool
        ensures { result ≡ stays_primary row.now (node_of self.now) (member_of self.now) }
    {
        self.leads() && self.is_since_reset(row)
    }

    /// Whether the row drops the contents: they are of a version before its reset, or the member isn't in it.
    pub fn drops_contents(&self, row: &Row) -> bool
        ensures { result ≡ drops_contents (member_of self.now) row.now (node_of self.now) }
    {
        !self.is_since_reset(row) || !row.contains(self.member)
    }

    /// The name of the contents that are left in the row.
    pub fn pair_in(&self, row: &Row) -> Pair
        ensures { result ≡ pair_in (member_of self.now) row.now (node_of self.now) }
    {
        if self.drops_contents(row) {
            Pair::none()
        } else {
            self.pair
        }
    }

    /// Memory for the adoption of that row, as much as its primary needs, and none for another member.
    pub fn room_for(&self, alloc: Global, row: &Row) -> Result<Room, Memory>
        ensures { IfOk result (IsRoomFor (node_of self.now) (member_of self.now) row.now) }
    {
        if !row.is_primary(self.member) {
            return Ok(Room {
                acks: Acks::none(alloc),
                effects: HeapCircularBuffer::with_capacity(alloc, 0)?,
            });
        }
        let recent = if self.stays_primary(row) { 0 } else { RECENT };
        Ok(Room {
            acks: Acks::new(alloc, row)?,
            effects: HeapCircularBuffer::with_capacity(alloc, recent)?,
        })
    }

    /// Adopts a row. Takes no memory but the room.
    pub fn adopt(&mut self, row: Row, room: Room)
        requires { IsRoomFor (node_of self.old) (member_of self.old) row room }
        ensures { HasAdopted self.old self.new row }
    {
        if !row.is_primary(self.member) {
            self.follow(row, room);
        } else if self.stays_primary(&row) {
            self.lead_on(row, room);
        } else {
            self.lead_anew(row, room);
        }
    }

    /// Follows in a row of which another member is primary. Held answers are dropped.
    fn follow(&mut self, row: Row, room: Room)
        requires { is_primary row (member_of self.old) ≡ false }
        ensures { HasAdopted self.old self.new row }
    {
        self.pair = self.pair_in(&row);
        self.answers.drop_held();
        self.known = row;
        self.opening = false;
        self.acks = room.acks;
        self.earlier = None;
        self.recent = 0;
        self.adopted = 0;
        self.frozen = false;
        self.effects = room.effects;
    }

    /// Goes on as primary, with its contents and its newest effects.
    fn lead_on(&mut self, row: Row, room: Room)
        requires primary { is_primary row (member_of self.old) ≡ true }
        requires stays { stays_primary row (node_of self.old) (member_of self.old) ≡ true }
        requires room { IsRoomFor (node_of self.old) (member_of self.old) row room }
        ensures { HasAdopted self.old self.new row }
    {
        let count = self.pair().count;
        let acks = mem::replace(&mut self.acks, room.acks);
        self.earlier = Some(Earlier {
            version: self.known.version,
            acks,
        });
        self.pair = Pair {
            version: row.version,
            count,
        };
        self.known = row;
        self.opening = false;
        self.adopted = count;
        self.frozen = false;
    }

    /// Becomes primary, with the contents that are left to it.
    fn lead_anew(&mut self, row: Row, room: Room)
        requires primary { is_primary row (member_of self.old) ≡ true }
        requires anew { stays_primary row (node_of self.old) (member_of self.old) ≡ false }
        requires room { IsRoomFor (node_of self.old) (member_of self.old) row room }
        ensures { HasAdopted self.old self.new row }
    {
        let pair = self.pair_as_primary(&row);
        self.pair = pair;
        self.known = row;
        self.opening = false;
        self.acks = room.acks;
        self.earlier = None;
        self.recent = 0;
        self.adopted = pair.count;
        self.frozen = false;
        self.effects = room.effects;
    }

    /// The name of the contents with which it begins the row as primary.
    fn pair_as_primary(&self, row: &Row) -> Pair
        requires { is_primary row.now (member_of self.now) ≡ true }
        ensures { result ≡ (adopted_row (member_of self.now) row.now (node_of self.now)).pair }
    {
        let count = if self.is_since_reset(row) {
            self.pair.count
        } else {
            0
        };
        Pair {
            version: row.version,
            count,
        }
    }

    /// What it will know of its backups once it has adopted this row, as its primary. Takes no memory.
    pub fn view_in<'a>(&'a self, row: &'a Row) -> View<'a>
        requires { is_primary row.now (member_of self.now) ≡ true }
        ensures { viewed result ≡ bare (adopted_row (member_of self.now) row.now (node_of self.now)) }
    {
        let pair = self.pair_as_primary(row);
        let stays = self.stays_primary(row);
        let earlier = if stays {
            Some(EarlierView {
                version: self.known.version,
                acks: self.acks.as_slice(),
            })
        } else {
            None
        };
        View {
            row,
            version: pair.version,
            count: pair.count,
            opening: false,
            acks: &[],
            latest: None,
            earlier,
            recent: if stays { self.recent } else { 0 },
            adopted: pair.count,
        }
    }
}
