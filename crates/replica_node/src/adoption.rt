ghost use Rattle.std.specs.Prelude.{◌≡◌, IfOk, OnOk, OnErr, true};
ghost use Rattle.grid_base.specs.Objects.{IsSmall};
ghost use Rattle.partition_table.specs.Rows.{is_primary};
ghost use Rattle.partition_protocol.specs.Adoption.{adopted_row, sent_on_adopting};
ghost use Rattle.backup_apply.specs.Contents.{Does, IsPossible};
ghost use Rattle.backup_apply.specs.Steps.{change_by};
ghost use Rattle.primary_hold.specs.Adopting.{ring_in};
ghost use Rattle.replica_node.specs.Decisions.{adoption_step, IsSoundIn, IsWhole};
ghost use Rattle.replica_node.specs.Nodes.{node_of, contents_of, ring_of, member_of, IsUnchanged};
ghost use Rattle.replica_node.specs.Sending.{Sends, carried};
ghost use Rattle.replica_node.specs.Taken.{HasTaken};
ghost use Rattle.replica_node.specs.Takings.{state_in, DoesIn};

use crate::catch_up::send_contents;
use crate::node::Node;
use crate::reaction::Reaction;
use crate::taking::Taken;
use backup_apply::{BackupStep, ContentsChange};
use grid_base::{MemberId, Memory, Shelf};
use member_wire::Outbox;
use partition_table::Row;
use std::alloc::Global;

impl<S: Shelf> Node<S> {
    /// Adopts a newer row, and does in it what was decided. All memory is taken before anything changes.
    pub(crate) fn adopt(
        &mut self,
        alloc: Global,
        from: MemberId,
        row: &Row,
        next: BackupStep<'_>,
    ) -> Result<Taken, Memory>
        requires small { IsSmall S.model.within (S.model.state (contents_of self.old)) }
        requires sound { IsSoundIn (member_of self.old) row.now next }
        requires possible { IsPossible S.model.within S.model.applied S.model.snapshot_of (change_by next) (S.model.state (contents_of self.old)) }
        ensures ok { let m = member_of self.old in let node = node_of self.old in
            let leaves = DoesIn S.model.within S.model.empty_state S.model.applied S.model.snapshot_of m row.now node (change_by next.entry) in
            IfOk result (HasTaken S.model.snapshot_of S.model.state (adoption_step m from row.now next.entry node) (ring_in m row.now node (ring_of self.old)) leaves self.old self.new) }
        ensures err { OnErr result (IsUnchanged S.model.state self.old self.new) }
    {
        let known = row.copied(alloc)?;
        let room = self.facts.room_for(alloc, row)?;
        let mut sent = Outbox::new(alloc);
        self.send_in(alloc, row, &mut sent)?;
        let reaction = Reaction::Backup(next);
        reaction.write(alloc, self.service, row.version, from, &mut sent)?;
        self.change_in(alloc, row, reaction.change())?;
        self.facts.adopt(known, room);
        reaction.note(from, &mut self.facts);
        self.facts.settle();
        Ok(Taken {
            took: reaction.took(),
            sent,
        })
    }

    /// Writes what the member sends as it adopts the row: its primary catches up each backup.
    fn send_in(&self, alloc: Global, row: &Row, out: &mut Outbox) -> Result<(), Memory>
        requires small { IsSmall S.model.within (S.model.state (contents_of self.now)) }
        ensures { let m = member_of self.now in let node = node_of self.now in let next = adopted_row m row.now node in
            let left = state_in S.model.empty_state m row.now node (S.model.state (contents_of self.now)) in
            let k = carried S.model.snapshot_of left (ring_in m row.now node (ring_of self.now)) next.pair.count in
            OnOk result (Sends k (sent_on_adopting m next) out.old out.new) }
    {
        if !row.is_primary(self.facts.member()) {
            return Ok(());
        }
        if self.facts.stays_primary(row) {
            self.send_lagging(alloc, &self.facts.view_in(row), out)?;
        } else if self.facts.drops_contents(row) {
            send_contents(alloc, &S::empty(alloc), row, 0, out)?;
        } else {
            let count = self.facts.pair().count;
            send_contents(alloc, &self.shelf, row, count, out)?;
        }
        Ok(())
    }

    /// Leaves the contents that the row leaves, and changes them. Want of memory changes nothing.
    fn change_in(
        &mut self,
        alloc: Global,
        row: &Row,
        change: ContentsChange<'_>,
    ) -> Result<(), Memory>
        requires whole { IsWhole change }
        requires possible { IsPossible S.model.within S.model.applied S.model.snapshot_of change (S.model.state (contents_of self.old)) }
        ensures facts { self.new.facts ≡ self.old.facts }
        ensures service { self.new.service ≡ self.old.service }
        ensures ok { let left = state_in S.model.empty_state (member_of self.old) row.now (node_of self.old) (S.model.state (contents_of self.old)) in
            OnOk result (Does S.model.within S.model.applied S.model.snapshot_of change.entry left (S.model.state (contents_of self.new))) }
        ensures err { OnErr result (S.model.state (contents_of self.new) ≡ S.model.state (contents_of self.old)) }
    {
        match change {
            ContentsChange::Keep => {
                if self.facts.drops_contents(row) {
                    self.shelf = S::empty(alloc);
                }
                Ok(())
            }
            _ => change.perform(alloc, &mut self.shelf),
        }
    }
}
