ghost use Rattle.std.specs.Prelude.{◌≡◌, ◌↔◌, ◌++◌, [], option_to_list, IsNone, IfOk};
ghost use Rattle.partition_table.specs.Rows.{is_primary};
ghost use Rattle.partition_protocol.specs.Node.{opening_node};
ghost use Rattle.primary_hold.specs.Answering.{holds_call};

use crate::contents::Contents;
use grid_base::{CallId, MemberId, Memory, Shelf};
use partition_table::Row;
use primary_hold::{CallAnswer, Facts};
use std::alloc::Global;

/// One member's part of a partition: what it knows, with its answers, and its contents.
#[derive(Drop)]
pub struct Node<S> {
    pub(crate) facts: Facts,
    /// The table service's number at the ends of links.
    pub(crate) service: MemberId,
    pub(crate) shelf: S,
}

impl<S: Shelf> Node<S> {
    ghost use Rattle.replica_node.specs.Nodes.{node_of, contents_of, waiting, held_answers, ring_of, ends_of, member_of};

    /// A member at the start, when the initial row, which is of version 1, is known to all: its contents are empty.
    /// Takes memory for a copy of the row, and for a primary's acknowledgements and newest effects.
    pub fn new(
        alloc: Global,
        member: MemberId,
        service: MemberId,
        row: &Row,
    ) -> Result<Node<S>, Memory>
        ensures node { row.now.version ≡ 1 → IfOk result (λ node. node_of node ≡ opening_node row.now member) }
        ensures contents { IfOk result (λ node. S.model.state (contents_of node) ≡ S.model.empty_state) }
        ensures waiting { IfOk result (λ node. waiting node ≡ []) }
        ensures held { IfOk result (λ node. held_answers node ≡ []) }
        ensures ring { IfOk result (λ node. ring_of node ≡ []) }
        ensures ends { IfOk result (λ node. ends_of node ≡ record { member = member; service = service }) }
    {
        Ok(Node {
            facts: Facts::opening(alloc, member, row)?,
            service,
            shelf: S::empty(alloc),
        })
    }

    /// The newest row that it has taken.
    pub fn known(&self) -> &Row
        ensures { result.now ≡ (node_of self.now).known }
    {
        self.facts.known()
    }

    /// Whether it is primary by the row that it knows.
    pub fn is_primary(&self) -> bool
        ensures { result ≡ is_primary (node_of self.now).known (member_of self.now) }
    {
        self.facts.leads()
    }

    /// Whether it executes no more in the known version.
    pub fn is_frozen(&self) -> bool
        ensures { result ≡ (node_of self.now).frozen }
    {
        self.facts.is_frozen()
    }

    /// Whether the answer of that call waits for the backups, at the cost of all answers' number.
    pub fn holds(&self, id: CallId) -> bool
        ensures { result ≡ holds_call id (node_of self.now).held }
    {
        self.facts.holds(id)
    }

    /// Its contents, and the pair that names them.
    pub fn contents(&self) -> Contents<'_, S>
        ensures pair { result.pair ≡ (node_of self.now).pair }
        ensures shelf { result.shelf.now ≡ contents_of self.now }
    {
        Contents {
            pair: self.facts.pair(),
            shelf: &self.shelf,
        }
    }

    /// The oldest answer that was released and not given out, which is given out with this, in constant time. Takes no
    /// memory.
    pub fn pop_released(&mut self) -> Option<CallAnswer>
        ensures given { waiting self.old ≡ option_to_list result ++ waiting self.new }
        ensures none { IsNone result ↔ (waiting self.old ≡ []) }
        ensures held { held_answers self.new ≡ held_answers self.old }
        ensures node { node_of self.new ≡ node_of self.old }
        ensures contents { S.model.state (contents_of self.new) ≡ S.model.state (contents_of self.old) }
        ensures ring { ring_of self.new ≡ ring_of self.old }
        ensures ends { ends_of self.new ≡ ends_of self.old }
    {
        self.facts.pop_released()
    }
}
