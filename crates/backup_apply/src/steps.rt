ghost use Rattle.std.specs.Prelude.{◌≡◌, ◌+◌, ℕ, true};
ghost use Rattle.partition_table.specs.declared.row.Row.{Row};
ghost use Rattle.partition_table.specs.Rows.{is_backup};
ghost use Rattle.partition_protocol.specs.Node.{Node};
ghost use Rattle.partition_protocol.specs.Replica.{sync_backup, on_effect, bridge_backup};
ghost use Rattle.backup_apply.specs.Contents.{IsChangeBySync, IsChangeByEffect};
ghost use Rattle.backup_apply.specs.Steps.{step_of, took_by, change_by};

use crate::contents::ContentsChange;
use grid_base::Bytes;
use member_wire::Took;
use partition_protocol::Pair;

/// What a backup does about what it was sent.
#[derive(Clone, Copy)]
pub enum BackupStep<'a> {
    /// It has contents of this version after so many effects from then on, and acknowledges them to the sender.
    Acknowledges {
        version: u32,
        count: u32,
        change: ContentsChange<'a>,
        took: Took,
    },
    /// It says and changes nothing.
    Silent(Took),
}

/// How a backup with contents of that name takes the whole contents that a version has after so many effects: it
/// installs them where they are ahead of its own.
pub fn take_sync<'a>(have: Pair, sent: Pair, snapshot: &'a Bytes) -> BackupStep<'a>
    ensures step { (from : ℕ) (row : Row) (node : Node) → row.version ≡ sent.version → node.pair ≡ have →
        step_of from result node ≡ sync_backup from row sent.count node }
    ensures change { IsChangeBySync snapshot.now (took_by result) (change_by result) }
{
    if sent.is_ahead_of(&have) {
        BackupStep::Acknowledges {
            version: sent.version,
            count: sent.count,
            change: ContentsChange::Install(snapshot),
            took: Took::Synced,
        }
    } else {
        BackupStep::Acknowledges {
            version: have.version,
            count: have.count,
            change: ContentsChange::Keep,
            took: Took::Already,
        }
    }
}

/// How it takes the effect of that number in a version: it applies the one that comes next to its contents.
pub fn take_effect<'a>(have: Pair, sent: Pair, effect: &'a Bytes) -> BackupStep<'a>
    ensures step { (m from : ℕ) (node : Node) → node.pair ≡ have → is_backup node.known m ≡ true →
        step_of from result node ≡ on_effect m from sent.version sent.count node }
    ensures change { IsChangeByEffect effect.now (took_by result) (change_by result) }
{
    if have.version != sent.version {
        BackupStep::Silent(Took::Other)
    } else if sent.count > 0 && sent.count - 1 == have.count {
        BackupStep::Acknowledges {
            version: sent.version,
            count: sent.count,
            change: ContentsChange::Apply(effect),
            took: Took::Applied,
        }
    } else if sent.count <= have.count {
        BackupStep::Acknowledges {
            version: have.version,
            count: have.count,
            change: ContentsChange::Keep,
            took: Took::Already,
        }
    } else {
        BackupStep::Silent(Took::Gap)
    }
}

/// How it takes the bridge to a version, which began with what the base names: contents of exactly that name go on in
/// the version.
pub fn take_bridge(have: Pair, version: u32, base: Pair) -> BackupStep<'static>
    ensures step { (from : ℕ) (row : Row) (node : Node) → row.version ≡ version → node.pair ≡ have →
        step_of from result node ≡ bridge_backup from row base.version base.count node }
    ensures change { change_by result ≡ ContentsChange.Keep }
{
    if have.version == version {
        BackupStep::Acknowledges {
            version: have.version,
            count: have.count,
            change: ContentsChange::Keep,
            took: Took::Already,
        }
    } else if have == base {
        BackupStep::Acknowledges {
            version,
            count: base.count,
            change: ContentsChange::Keep,
            took: Took::Bridged,
        }
    } else {
        BackupStep::Silent(Took::Gap)
    }
}
