ghost use Rattle.std.specs.Prelude.{◌≡◌, ◌++◌, ◌∷◌, [], if◌then◌else◌, OnOk};
ghost use Rattle.std.specs.List.{flat_map};
ghost use Rattle.grid_base.specs.Objects.{IsSmall};
ghost use Rattle.partition_table.specs.declared.RowMember.{RowMember as MemberOf};
ghost use Rattle.partition_table.specs.Rows.{backups_of};
ghost use Rattle.partition_protocol.specs.Messages.{Sync, Effect};
ghost use Rattle.partition_protocol.specs.CatchUp.{effects, catch_up};
ghost use Rattle.partition_protocol.specs.Replica.{to_one, lags, joined_again};
ghost use Rattle.member_wire.specs.Said.{Contents};
ghost use Rattle.primary_hold.specs.declared.view.CatchUp.TheVariants.{Bridged};
ghost use Rattle.primary_hold.specs.Views.{viewed, messages_of};
ghost use Rattle.replica_node.specs.Nodes.{contents_of, carried_by};
ghost use Rattle.replica_node.specs.Sending.{Sends, IsOf, all_to};

use crate::node::Node;
use crate::reaction::write_joined;
use grid_base::{Bytes, MemberId, Memory, Shelf};
use member_wire::Outbox;
use partition_protocol::Pair;
use partition_table::{Row, RowMember};
use primary_hold::{CatchUp, View};
use std::alloc::Global;

/// Writes the whole contents to one backup. Their snapshot is made unless it was made before, and is kept.
fn send_whole<S: Shelf>(
    alloc: Global,
    shelf: &S,
    row: &Row,
    count: u32,
    to: MemberId,
    snapshot: &mut Option<Bytes>,
    out: &mut Outbox,
) -> Result<(), Memory>
    requires small { IsSmall S.model.within (S.model.state shelf.now) }
    requires made { IsOf (S.model.snapshot_of (S.model.state shelf.now)) snapshot.old }
    ensures sent { (k : Contents) → k.snapshot row.now.version count ≡ S.model.snapshot_of (S.model.state shelf.now) →
        OnOk result (Sends k (to_one to (Sync row.now count)) out.old out.new) }
    ensures made { OnOk result (IsOf (S.model.snapshot_of (S.model.state shelf.now)) snapshot.new) }
{
    if let Some(bytes) = snapshot {
        out.write_sync(alloc, to, row, count, bytes)?;
        return Ok(());
    }
    let bytes = shelf.snapshot(alloc)?;
    out.write_sync(alloc, to, row, count, &bytes)?;
    *snapshot = Some(bytes);
    Ok(())
}

/// Writes the whole contents to each backup of the row, at the cost of one snapshot and its copies.
pub(crate) fn send_contents<S: Shelf>(
    alloc: Global,
    shelf: &S,
    row: &Row,
    count: u32,
    out: &mut Outbox,
) -> Result<(), Memory>
    requires small { IsSmall S.model.within (S.model.state shelf.now) }
    ensures sent { (k : Contents) → k.snapshot row.now.version count ≡ S.model.snapshot_of (S.model.state shelf.now) →
        OnOk result (Sends k (flat_map (λ (b : MemberOf). to_one b.member (Sync row.now count)) (backups_of row.now)) out.old out.new) }
{
    let mut snapshot = None;
    for backup in row.backups() {
        send_whole(alloc, shelf, row, count, backup.member, &mut snapshot, out)?;
    }
    Ok(())
}

impl<S: Shelf> Node<S> {
    /// Writes the effects after one number up to another to one backup.
    fn send_effects(
        &self,
        alloc: Global,
        to: MemberId,
        version: u32,
        after: u32,
        upto: u32,
        out: &mut Outbox,
    ) -> Result<(), Memory>
        ensures { let k = carried_by S.model.snapshot_of S.model.state self.now in
            OnOk result (Sends k (all_to to (effects version after upto)) out.old out.new) }
    {
        for before in after..upto {
            self.send_effect(alloc, to, version, before + 1, out)?;
        }
        Ok(())
    }

    /// Writes the effect of a number to one backup. One that isn't kept any more is written without bytes: no catch-up of
    /// the protocol's runs has one.
    fn send_effect(
        &self,
        alloc: Global,
        to: MemberId,
        version: u32,
        number: u32,
        out: &mut Outbox,
    ) -> Result<(), Memory>
        ensures { let k = carried_by S.model.snapshot_of S.model.state self.now in
            OnOk result (Sends k (to_one to (Effect version number)) out.old out.new) }
    {
        match self.facts.recent(number) {
            Some(effect) => out.write_effect(alloc, to, version, number, effect),
            None => out.write_effect(alloc, to, version, number, &Bytes::new(alloc)),
        }
    }

    /// Writes to one backup the effects of the version before after this pair up to where the view's row began, the bridge
    /// to it, and its effects.
    fn send_bridged(
        &self,
        alloc: Global,
        to: MemberId,
        view: &View<'_>,
        base: Pair,
        out: &mut Outbox,
    ) -> Result<(), Memory>
        ensures { let k = carried_by S.model.snapshot_of S.model.state self.now in
            OnOk result (Sends k (all_to to (messages_of (viewed view.now) (Bridged base))) out.old out.new) }
    {
        let begun = view.adopted();
        self.send_effects(alloc, to, base.version, base.count, begun, out)?;
        out.write_bridge(alloc, to, view.row(), base.version, begun)?;
        self.send_effects(alloc, to, view.row().version, begun, view.count(), out)?;
        Ok(())
    }

    /// Writes to one backup what it is sent to catch up with the primary as the view has it.
    fn send_catch_up(
        &self,
        alloc: Global,
        view: &View<'_>,
        backup: &RowMember,
        snapshot: &mut Option<Bytes>,
        out: &mut Outbox,
    ) -> Result<(), Memory>
        requires small { IsSmall S.model.within (S.model.state (contents_of self.now)) }
        requires made { IsOf (S.model.snapshot_of (S.model.state (contents_of self.now))) snapshot.old }
        ensures sent { let k = carried_by S.model.snapshot_of S.model.state self.now in
            OnOk result (Sends k (catch_up (viewed view.now) backup.now) out.old out.new) }
        ensures made { OnOk result (IsOf (S.model.snapshot_of (S.model.state (contents_of self.now))) snapshot.new) }
    {
        let to = backup.member;
        let version = view.row().version;
        match view.catch_up(backup) {
            CatchUp::Whole => send_whole(
                alloc,
                &self.shelf,
                view.row(),
                view.count(),
                to,
                snapshot,
                out,
            ),
            CatchUp::Effects { after } => {
                self.send_effects(alloc, to, version, after, view.count(), out)
            }
            CatchUp::Bridged { base } => self.send_bridged(alloc, to, view, base, out),
        }
    }

    /// Writes to each backup that lags what it is sent to catch up.
    pub(crate) fn send_lagging(
        &self,
        alloc: Global,
        view: &View<'_>,
        out: &mut Outbox,
    ) -> Result<(), Memory>
        requires { IsSmall S.model.within (S.model.state (contents_of self.now)) }
        ensures { let node = viewed view.now in
            let lagging = flat_map (λ (b : MemberOf). if lags node b.member then catch_up node b else []) (backups_of node.known) in
            OnOk result (Sends (carried_by S.model.snapshot_of S.model.state self.now) lagging out.old out.new) }
    {
        let mut snapshot = None;
        for backup in view.row().backups() {
            self.send_if_lagging(alloc, view, backup, &mut snapshot, out)?;
        }
        Ok(())
    }

    fn send_if_lagging(
        &self,
        alloc: Global,
        view: &View<'_>,
        backup: &RowMember,
        snapshot: &mut Option<Bytes>,
        out: &mut Outbox,
    ) -> Result<(), Memory>
        requires small { IsSmall S.model.within (S.model.state (contents_of self.now)) }
        requires made { IsOf (S.model.snapshot_of (S.model.state (contents_of self.now))) snapshot.old }
        ensures sent { let node = viewed view.now in
            let lagging = (if lags node backup.now.member then catch_up node backup.now else []) in
            OnOk result (Sends (carried_by S.model.snapshot_of S.model.state self.now) lagging out.old out.new) }
        ensures made { OnOk result (IsOf (S.model.snapshot_of (S.model.state (contents_of self.now))) snapshot.new) }
    {
        if view.lags(backup.member) {
            self.send_catch_up(alloc, view, backup, snapshot, out)?;
        }
        Ok(())
    }
}

/// Tells the service of each backup that has joined and isn't marked for it yet.
pub(crate) fn send_joined(
    alloc: Global,
    service: MemberId,
    view: &View<'_>,
    out: &mut Outbox,
) -> Result<(), Memory>
    ensures { (k : Contents) → let node = viewed view.now in
        OnOk result (Sends k (flat_map (joined_again service node) (backups_of node.known)) out.old out.new) }
{
    for backup in view.row().backups() {
        send_if_joined(alloc, service, view, backup, out)?;
    }
    Ok(())
}

fn send_if_joined(
    alloc: Global,
    service: MemberId,
    view: &View<'_>,
    backup: &RowMember,
    out: &mut Outbox,
) -> Result<(), Memory>
    ensures { (k : Contents) → OnOk result (Sends k (joined_again service (viewed view.now) backup.now) out.old out.new) }
{
    let joined = view.acked(backup.member).is_some() && !backup.eligible;
    write_joined(
        alloc,
        service,
        view.row().version,
        backup.member,
        joined,
        out,
    )
}
