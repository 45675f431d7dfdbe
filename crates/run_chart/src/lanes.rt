//! The lanes, behind all that happened.

use crate::cast::Lane;
use crate::chart::{Chart, STEP, TOP};
use crate::marks::cut_below;
use grid_base::{MemberId, Memory, PartitionId};
use partition_table::Row;
use std::alloc::Global;
use svg_picture::{Anchor, Look, Point};

/// Where the names of the lanes stand, and what stands below them.
const HEAD: u64 = 30;

const BELOW: u64 = 48;

impl Chart {
    /// Draws a lane, down to where somebody was gone and behind it.
    fn draw_line_of(&mut self, alloc: Global, lane: Lane) -> Result<(), Memory> {
        let x = lane.x;
        let top = Point { x, y: TOP };
        let foot = Point {
            x,
            y: self.y.saturating_add(STEP),
        };
        let Some(y) = self.gone_at(lane) else {
            return self.picture.back_line(alloc, Look::Lane, top, foot);
        };
        let end = Point { x, y };
        self.picture.back_line(alloc, Look::Lane, top, end)?;
        self.picture.back_line(alloc, Look::Gone, end, foot)
    }

    /// Draws a lane with its name, which stands at each height where the names stand.
    fn draw_lane(
        &mut self,
        alloc: Global,
        lane: Lane,
        name: &str,
        below: &str,
    ) -> Result<(), Memory> {
        self.draw_line_of(alloc, lane)?;
        let x = lane.x;
        let head = Point { x, y: HEAD };
        self.picture
            .text(alloc, Look::Head, head, Anchor::Middle, name, "")?;
        let short = cut_below(alloc, below)?;
        let at = Point { x, y: BELOW };
        self.picture.text(
            alloc,
            Look::Small,
            at,
            Anchor::Middle,
            short.as_str(),
            below,
        )?;
        for y in self.heads.as_slice() {
            let head = Point {
                x,
                y: y.saturating_add(4),
            };
            self.picture
                .text(alloc, Look::Small, head, Anchor::Middle, name, "")?;
        }
        Ok(())
    }

    /// The partitions that a member leads at first, of those that are shown.
    fn led_first(
        &self,
        alloc: Global,
        member: MemberId,
        partitions: &[PartitionId],
    ) -> Result<String, Memory> {
        let mut words = String::new(alloc);
        let (members, backups) = (self.cast.members, self.cast.backups);
        for partition in partitions {
            let row = Row::initial(alloc, *partition, members, backups)?;
            if row.primary() == Some(member) {
                let before = if words.is_empty() {
                    "primary of "
                } else {
                    ", "
                };
                words.push_str(before)?;
                write!(words, "{partition}")?;
            }
        }
        Ok(words)
    }

    /// Draws the lanes of the members.
    fn draw_members(&mut self, alloc: Global) -> Result<(), Memory> {
        let partitions = self.cast.partitions(alloc)?;
        for member in 0..self.cast.members {
            let name = format!(in alloc; "member {member}")?;
            let below = self.led_first(alloc, member, partitions.as_slice())?;
            let lane = self.cast.end(member);
            self.draw_lane(alloc, lane, name.as_str(), below.as_str())?;
        }
        Ok(())
    }

    /// Draws all lanes.
    pub(crate) fn draw_lanes(&mut self, alloc: Global) -> Result<(), Memory> {
        for conn in self.cast.connections(alloc)? {
            if let Some((lane, _)) = self.cast.client(conn) {
                let name = format!(in alloc; "connection {conn}")?;
                self.draw_lane(alloc, lane, name.as_str(), "")?;
            }
        }
        self.draw_members(alloc)?;
        let table = self.cast.table();
        self.draw_lane(alloc, table, "table service", "")
    }
}
