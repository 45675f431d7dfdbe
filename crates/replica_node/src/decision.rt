ghost use Rattle.std.specs.Prelude.{◌≡◌, ℕ, None};
ghost use Rattle.partition_protocol.specs.Node.{Node as ProtocolNode};
ghost use Rattle.partition_protocol.specs.Replica.{taking, on_row, on_ack, on_effect, on_freeze};
ghost use Rattle.member_wire.specs.Said.{message_of};
ghost use Rattle.backup_apply.specs.declared.steps.BackupStep.TheVariants.{Silent};
ghost use Rattle.backup_apply.specs.declared.contents.ContentsChange.TheVariants.{Keep};
ghost use Rattle.backup_apply.specs.Contents.{IsChangeByEffect};
ghost use Rattle.backup_apply.specs.Steps.{step_of as backup_step, took_by as took_by_backup, change_by};
ghost use Rattle.primary_hold.specs.Facts.{node_of, member_of};
ghost use Rattle.replica_node.specs.declared.reaction.Reaction.TheVariants.{Backup};
ghost use Rattle.replica_node.specs.declared.decision.Decision.TheVariants.{Stays};
ghost use Rattle.replica_node.specs.Carried.{on_carried, backup_carries, IsCarriedChange};
ghost use Rattle.replica_node.specs.Decisions.{step_of, adopted_by, took_of_decision, change_of, IsSoundly};
ghost use Rattle.replica_node.specs.Takings.{newer_row, if_newer, IsChangeBy};

use crate::reaction::Reaction;
use backup_apply::{BackupStep, take_bridge, take_effect, take_sync};
use grid_base::{Bytes, MemberId};
use member_wire::{MemberMessage, Took};
use partition_protocol::Pair;
use partition_table::Row;
use primary_hold::Facts;

/// What a member does about a message, decided by what it knows alone.
#[derive(Clone, Copy)]
pub(crate) enum Decision<'a> {
    /// It adopts a newer row, and goes on in it.
    Adopts { row: &'a Row, next: BackupStep<'a> },
    /// It stays in the row that it knows.
    Stays(Reaction<'a>),
}

/// What a row is sent with for its backups.
#[derive(Clone, Copy)]
pub(crate) enum Carried<'a> {
    /// The whole contents, after so many effects.
    Whole { count: u32, snapshot: &'a Bytes },
    /// The name of what the row's version began with: the base version after so many effects.
    Bridge { base: u32, count: u32 },
}

impl<'a> Carried<'a> {
    /// What a backup with contents of that name does about it.
    fn decide(self, have: Pair, row: &Row) -> BackupStep<'a>
        ensures step { (from : ℕ) (node : ProtocolNode) → node.pair ≡ have → backup_step from result node ≡ backup_carries from row.now self.entry node }
        ensures change { IsCarriedChange self.entry (took_by_backup result) (change_by result) }
    {
        let version = row.version;
        match self {
            Carried::Whole { count, snapshot } => {
                let sent = Pair { version, count };
                take_sync(have, sent, snapshot)
            }
            Carried::Bridge { base, count } => {
                let base = Pair {
                    version: base,
                    count,
                };
                take_bridge(have, version, base)
            }
        }
    }
}

/// What a member that isn't primary, or isn't meant, does.
fn unanswered<'a>(took: Took) -> Decision<'a>
    ensures { result ≡ Stays (Backup (Silent took)) }
{
    Decision::Stays(Reaction::Backup(BackupStep::Silent(took)))
}

/// About a message from an end.
pub(crate) fn decide<'a>(facts: &Facts, from: MemberId, message: &'a MemberMessage) -> Decision<'a>
    ensures step { (service : ℕ) → let node = node_of facts.now in let m = member_of facts.now in
        step_of service m from result node ≡ taking service m from (message_of message.now) node }
    ensures adopts { adopted_by result ≡ newer_row message.now (node_of facts.now) }
    ensures change { IsChangeBy message.now (took_of_decision result) (change_of result) }
    ensures sound { IsSoundly (member_of facts.now) from result (node_of facts.now) }
{
    match message {
        MemberMessage::NewRow { row } => decide_row(facts, row),
        MemberMessage::Sync {
            row,
            count,
            snapshot,
        } => {
            let count = *count;
            decide_carried(facts, row, Carried::Whole { count, snapshot })
        }
        MemberMessage::Bridge { row, base, count } => {
            let (base, count) = (*base, *count);
            decide_carried(facts, row, Carried::Bridge { base, count })
        }
        MemberMessage::Effect {
            version,
            number,
            effect,
        } => {
            let sent = Pair {
                version: *version,
                count: *number,
            };
            decide_effect(facts, sent, effect)
        }
        MemberMessage::Ack { version, count } => decide_ack(facts, from, *version, *count),
        MemberMessage::Freeze { version } => decide_freeze(facts, *version),
        MemberMessage::Joined { .. } | MemberMessage::Frozen { .. } => unanswered(Took::Other),
    }
}

/// About a row: a newer one is adopted.
fn decide_row<'a>(facts: &Facts, row: &'a Row) -> Decision<'a>
    ensures step { (service from : ℕ) → let node = node_of facts.now in
        step_of service (member_of facts.now) from result node ≡ on_row (member_of facts.now) row.now node }
    ensures adopts { adopted_by result ≡ if_newer row.now (node_of facts.now) }
    ensures change { change_of result ≡ Keep }
    ensures sound { (from : ℕ) → IsSoundly (member_of facts.now) from result (node_of facts.now) }
{
    if row.version <= facts.known().version {
        return unanswered(Took::Stale);
    }
    Decision::Adopts {
        row,
        next: BackupStep::Silent(Took::Adopted),
    }
}

/// About a row that is sent with something for its backups: the row is adopted where it is newer, and a backup goes on
/// by what came with it.
fn decide_carried<'a>(facts: &Facts, row: &'a Row, carried: Carried<'a>) -> Decision<'a>
    ensures step { (service from : ℕ) → let node = node_of facts.now in
        step_of service (member_of facts.now) from result node ≡ on_carried (member_of facts.now) from row.now carried.entry node }
    ensures adopts { adopted_by result ≡ if_newer row.now (node_of facts.now) }
    ensures change { IsCarriedChange carried.entry (took_of_decision result) (change_of result) }
    ensures sound { (from : ℕ) → IsSoundly (member_of facts.now) from result (node_of facts.now) }
{
    let member = facts.member();
    let known = facts.known();
    if row.version > known.version {
        let next = if row.is_backup(member) {
            carried.decide(facts.pair_in(row), row)
        } else {
            BackupStep::Silent(Took::Other)
        };
        Decision::Adopts { row, next }
    } else if row.version == known.version && known.is_backup(member) {
        Decision::Stays(Reaction::Backup(carried.decide(facts.pair(), row)))
    } else {
        unanswered(Took::Other)
    }
}

/// About an effect.
fn decide_effect<'a>(facts: &Facts, sent: Pair, effect: &'a Bytes) -> Decision<'a>
    ensures step { (service from : ℕ) → let node = node_of facts.now in
        step_of service (member_of facts.now) from result node ≡ on_effect (member_of facts.now) from sent.version sent.count node }
    ensures adopts { adopted_by result ≡ None }
    ensures change { IsChangeByEffect effect.now (took_of_decision result) (change_of result) }
    ensures sound { (from : ℕ) → IsSoundly (member_of facts.now) from result (node_of facts.now) }
{
    if !facts.known().is_backup(facts.member()) {
        return unanswered(Took::Other);
    }
    Decision::Stays(Reaction::Backup(take_effect(facts.pair(), sent, effect)))
}

/// About an acknowledgement.
fn decide_ack(facts: &Facts, from: MemberId, version: u32, count: u32) -> Decision<'static>
    ensures step { (service : ℕ) → let node = node_of facts.now in
        step_of service (member_of facts.now) from result node ≡ on_ack service (member_of facts.now) from version count node }
    ensures adopts { adopted_by result ≡ None }
    ensures change { change_of result ≡ Keep }
    ensures sound { IsSoundly (member_of facts.now) from result (node_of facts.now) }
{
    let known = facts.known();
    if !facts.leads() || known.version != version || !known.is_backup(from) {
        return unanswered(Took::Stale);
    }
    let joined = facts.view().acked(from).is_none() && !known.is_eligible(from);
    let drained = facts.drains_with(from, count);
    Decision::Stays(Reaction::KeepsAck {
        count,
        joined,
        drained,
    })
}

/// About a Freeze.
fn decide_freeze(facts: &Facts, version: u32) -> Decision<'static>
    ensures step { (service from : ℕ) → let node = node_of facts.now in
        step_of service (member_of facts.now) from result node ≡ on_freeze service (member_of facts.now) version node }
    ensures adopts { adopted_by result ≡ None }
    ensures change { change_of result ≡ Keep }
    ensures sound { (from : ℕ) → IsSoundly (member_of facts.now) from result (node_of facts.now) }
{
    if !facts.leads() || facts.known().version != version {
        return unanswered(Took::Stale);
    }
    Decision::Stays(Reaction::Freezes {
        drained: !facts.holds_any(),
    })
}
