ghost use Rattle.std.specs.Prelude.{◌≡◌, IfOk, OnErr};
ghost use Rattle.grid_base.specs.Objects.{IsSmall};
ghost use Rattle.partition_protocol.specs.Replica.{taking};
ghost use Rattle.member_wire.specs.Said.{message_of};
ghost use Rattle.backup_apply.specs.Contents.{Does, IsPossible};
ghost use Rattle.replica_node.specs.Decisions.{reaction_step, change_in, IsSound};
ghost use Rattle.replica_node.specs.Nodes.{node_of, contents_of, ring_of, member_of, service_of, IsUnchanged};
ghost use Rattle.replica_node.specs.Taken.{HasTaken};
ghost use Rattle.replica_node.specs.Takings.{Leaves, IsFit, row_in, ring_after_taking};

use crate::decision::{Decision, decide};
use crate::node::Node;
use crate::reaction::Reaction;
use grid_base::{MemberId, Memory, Shelf};
use member_wire::{MemberMessage, Outbox, Took};
use std::alloc::Global;

/// How a message was taken, and what is sent for it.
#[derive(Debug, Drop)]
pub struct Taken {
    pub took: Took,
    pub sent: Outbox,
}

impl<S: Shelf> Node<S> {
    /// Takes a message from an end, as the protocol says: what it then knows and sends, how it took the message, what
    /// its contents and newest effects then are, and which answers it released. Want of memory changes nothing.
    ///
    /// Costs what its kind of message does: for a newer row a copy of it, and for its primary a snapshot of the contents
    /// at most and for each backup a copy of it or up to 64 effects; for whole contents their installation; for an
    /// effect what the shelf makes of it; and else a pass over what the backups acknowledged.
    pub fn take(
        &mut self,
        alloc: Global,
        from: MemberId,
        message: &MemberMessage,
    ) -> Result<Taken, Memory>
        requires small { IsSmall S.model.within (S.model.state (contents_of self.old)) }
        requires fits { let step = taking (service_of self.old) (member_of self.old) from (message_of message.now) (node_of self.old) in
            IsFit S.model.within S.model.applied S.model.snapshot_of message.now step.took (S.model.state (contents_of self.old)) }
        ensures ok { let step = taking (service_of self.old) (member_of self.old) from (message_of message.now) (node_of self.old) in
            let effects = ring_after_taking (member_of self.old) (node_of self.old) (row_in message.now) (ring_of self.old) in
            let leaves = Leaves S.model.within S.model.empty_state S.model.applied S.model.snapshot_of (member_of self.old) (node_of self.old) message.now step.took in
            IfOk result (HasTaken S.model.snapshot_of S.model.state step effects leaves self.old self.new) }
        ensures err { OnErr result (IsUnchanged S.model.state self.old self.new) }
    {
        match decide(&self.facts, from, message) {
            Decision::Adopts { row, next } => self.adopt(alloc, from, row, next),
            Decision::Stays(reaction) => self.react(alloc, from, reaction),
        }
    }

    /// Does what was decided about a message in the row that it knows. All memory is taken before anything changes.
    fn react(
        &mut self,
        alloc: Global,
        from: MemberId,
        reaction: Reaction<'_>,
    ) -> Result<Taken, Memory>
        requires sound { IsSound (member_of self.old) from reaction (node_of self.old) }
        requires possible { IsPossible S.model.within S.model.applied S.model.snapshot_of (change_in reaction) (S.model.state (contents_of self.old)) }
        ensures ok { let step = reaction_step (service_of self.old) from reaction.entry (node_of self.old) in
            let leaves = Does S.model.within S.model.applied S.model.snapshot_of (change_in reaction.entry) in
            IfOk result (HasTaken S.model.snapshot_of S.model.state step (ring_of self.old) leaves self.old self.new) }
        ensures err { OnErr result (IsUnchanged S.model.state self.old self.new) }
    {
        let mut sent = Outbox::new(alloc);
        let version = self.facts.known().version;
        reaction.write(alloc, self.service, version, from, &mut sent)?;
        reaction.change().perform(alloc, &mut self.shelf)?;
        reaction.note(from, &mut self.facts);
        self.facts.settle();
        Ok(Taken {
            took: reaction.took(),
            sent,
        })
    }
}
