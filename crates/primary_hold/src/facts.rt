ghost use Rattle.std.specs.Prelude.{◌≡◌, ◌≤◌, true, false, not, ◌&&◌, [], length, map, min, option_copied, option_to_list, IsNone, ◌↔◌, ◌++◌, IfOk};
ghost use Rattle.partition_table.specs.Rows.{is_primary, is_empty};
ghost use Rattle.partition_protocol.specs.Node.{opening_node};
ghost use Rattle.partition_protocol.specs.CatchUp.{recent_limit};
ghost use Rattle.primary_hold.specs.Acks.{HasPlaces};
ghost use Rattle.primary_hold.specs.Answering.{holds_call};
ghost use Rattle.primary_hold.specs.Rings.{kept};

use crate::acks::{Acks, Earlier};
use crate::answer::CallAnswer;
use crate::answers::Answers;
use crate::room::RECENT;
use circular_buffer::HeapCircularBuffer;
use grid_base::{Bytes, CallId, MemberId, Memory};
use partition_protocol::Pair;
use partition_table::Row;
use std::alloc::Global;

/// What a member knows of a partition beside its contents. As primary it also keeps the answers that wait for the
/// backups, and its newest effects, at most 64.
#[derive(Drop)]
pub struct Facts {
    pub(crate) member: MemberId,
    /// The newest row that it has taken.
    pub(crate) known: Row,
    /// Names its contents.
    pub(crate) pair: Pair,
    /// It knows the initial row, in which each member has acknowledged 0 from the start.
    pub(crate) opening: bool,
    /// Taken in the known version, as its primary.
    pub(crate) acks: Acks,
    /// The version before the known one, where it was primary then.
    pub(crate) earlier: Option<Earlier>,
    /// How many effects it has executed since it last became primary.
    pub(crate) recent: u32,
    /// Its count as it adopted the known version, as primary.
    pub(crate) adopted: u32,
    /// It executes no more in the known version.
    pub(crate) frozen: bool,
    pub(crate) answers: Answers,
    /// The newest effects, the oldest first.
    pub(crate) effects: HeapCircularBuffer<Bytes>,
    ghost counted: { recent ≤ pair.count },
    ghost newest: { length effects.items ≡ min recent_limit recent },
    ghost limited: { is_primary known member ≡ true → effects.capacity ≡ recent_limit },
    ghost places: { is_primary known member ≡ true → HasPlaces known acks },
    ghost unrecent: { is_primary known member ≡ false → recent ≡ 0 },
    ghost none_held: { is_primary known member ≡ false → answers.held ≡ [] },
}

impl Facts {
    ghost use Rattle.primary_hold.specs.Facts.{node_of, member_of, answers_of, ring_of};

    /// A member at the start, when the initial row, which is of version 1, is known to all: its contents are empty.
    /// Takes memory for a copy of the row, and for a primary's acknowledgements and newest effects.
    pub fn opening(alloc: Global, member: MemberId, row: &Row) -> Result<Facts, Memory>
        ensures node { row.now.version ≡ 1 → IfOk result (λ facts. node_of facts ≡ opening_node row.now member) }
        ensures member { IfOk result (λ facts. member_of facts ≡ member) }
        ensures answers { IfOk result (λ facts. answers_of facts ≡ record { released = []; held = [] }) }
        ensures ring { IfOk result (λ facts. ring_of facts ≡ []) }
    {
        let known = row.copied(alloc)?;
        let recent = if known.is_primary(member) { RECENT } else { 0 };
        let pair = if known.contains(member) {
            Pair {
                version: 1,
                count: 0,
            }
        } else {
            Pair::none()
        };
        Ok(Facts {
            member,
            pair,
            opening: true,
            acks: Acks::new(alloc, &known)?,
            known,
            earlier: None,
            recent: 0,
            adopted: 0,
            frozen: false,
            answers: Answers::new(alloc),
            effects: HeapCircularBuffer::with_capacity(alloc, recent)?,
        })
    }

    /// Whose these are.
    pub fn member(&self) -> MemberId
        ensures { result ≡ member_of self.now }
    {
        self.member
    }

    /// The newest row that the member has taken.
    pub fn known(&self) -> &Row
        ensures { result.now ≡ (node_of self.now).known }
    {
        &self.known
    }

    /// Whether the member is primary by the row that it knows.
    pub fn leads(&self) -> bool
        ensures { result ≡ is_primary (node_of self.now).known (member_of self.now) }
    {
        self.known.is_primary(self.member)
    }

    /// The name of its contents.
    pub fn pair(&self) -> Pair
        ensures { result ≡ (node_of self.now).pair }
    {
        self.pair
    }

    /// Whether it executes no more in the known version.
    pub fn is_frozen(&self) -> bool
        ensures { result ≡ (node_of self.now).frozen }
    {
        self.frozen
    }

    /// Whether an answer waits for the backups.
    pub fn holds_any(&self) -> bool
        ensures { result ≡ not (is_empty (node_of self.now).held) }
    {
        self.answers.holds_any()
    }

    /// Whether it executes no more and holds no answer.
    pub fn is_drained(&self) -> bool
        ensures { result ≡ ((node_of self.now).frozen && is_empty (node_of self.now).held) }
    {
        self.is_frozen() && !self.holds_any()
    }

    /// Whether the answer of that call waits for the backups, at the cost of all answers' number.
    pub fn holds(&self, id: CallId) -> bool
        ensures { result ≡ holds_call id (node_of self.now).held }
    {
        self.answers.holds(id)
    }

    /// The effect of that number, if it is among the newest ones, in constant time.
    pub fn recent(&self, number: u32) -> Option<&Bytes>
        ensures { option_copied result ≡ kept (ring_of self.now) (node_of self.now).pair.count number }
    {
        let count = self.pair().count;
        if number > count {
            return None;
        }
        self.effects.nth_back((count - number) as usize)
    }

    /// The oldest released answer, which is given out with this, in constant time. Takes no memory.
    pub fn pop_released(&mut self) -> Option<CallAnswer>
        ensures given { (answers_of self.old).released ≡ option_to_list result ++ (answers_of self.new).released }
        ensures none { IsNone result ↔ ((answers_of self.old).released ≡ []) }
        ensures held { (answers_of self.new).held ≡ (answers_of self.old).held }
        ensures node { node_of self.new ≡ node_of self.old }
        ensures ring { ring_of self.new ≡ ring_of self.old }
        ensures member { member_of self.new ≡ member_of self.old }
    {
        self.answers.pop_released()
    }
}
