ghost use Rattle.std.specs.Prelude.{◌≡◌, OnOk};
ghost use Rattle.member_wire.specs.Said.{Contents};
ghost use Rattle.primary_hold.specs.Facts.{node_of, member_of};
ghost use Rattle.primary_hold.specs.Changes.{Becomes};
ghost use Rattle.replica_node.specs.Decisions.{joined_note, drained_note, sent_by, node_by, took_by, change_in, IsSound};
ghost use Rattle.replica_node.specs.Sending.{Sends};

use backup_apply::{BackupStep, ContentsChange};
use grid_base::{MemberId, Memory};
use member_wire::{MemberMessage, Outbox, Took};
use partition_protocol::Pair;
use primary_hold::Facts;
use std::alloc::Global;

/// What a member does about a message that brings it no newer row.
#[derive(Clone, Copy)]
pub(crate) enum Reaction<'a> {
    /// What a backup does, which is nothing for whoever the message isn't for.
    Backup(BackupStep<'a>),
    /// A primary keeps what the sender acknowledged.
    KeepsAck {
        count: u32,
        /// The sender is one that joined, and the service is told so.
        joined: bool,
        /// The primary is frozen and releases its last answer by this, and the service is told so.
        drained: bool,
    },
    /// A primary executes no more, and tells the service at once where it holds no answer.
    Freezes {
        drained: bool,
    },
}

impl<'a> Reaction<'a> {
    /// How the message is taken by this.
    pub(crate) fn took(self) -> Took
        ensures { result ≡ took_by self.entry }
    {
        match self {
            Reaction::Backup(BackupStep::Acknowledges { took, .. } | BackupStep::Silent(took)) =>
                took,
            Reaction::KeepsAck { .. } => Took::Acked,
            Reaction::Freezes { .. } => Took::Frozen,
        }
    }

    /// What the contents do.
    pub(crate) fn change(self) -> ContentsChange<'a>
        ensures { result ≡ change_in self.entry }
    {
        match self {
            Reaction::Backup(BackupStep::Acknowledges { change, .. }) => change,
            _ => ContentsChange::Keep,
        }
    }

    /// Writes what the member says by this, in a version.
    pub(crate) fn write(
        self,
        alloc: Global,
        service: MemberId,
        version: u32,
        from: MemberId,
        out: &mut Outbox,
    ) -> Result<(), Memory>
        ensures { (k : Contents) → OnOk result (Sends k (sent_by service version from self.entry) out.old out.new) }
    {
        match self {
            Reaction::Backup(BackupStep::Acknowledges { version, count, .. }) => {
                out.write(alloc, from, &MemberMessage::Ack { version, count })
            }
            Reaction::Backup(BackupStep::Silent(_)) => Ok(()),
            Reaction::KeepsAck {
                joined,
                drained,
                ..
            } => {
                write_joined(alloc, service, version, from, joined, out)?;
                write_drained(alloc, service, version, drained, out)?;
                Ok(())
            }
            Reaction::Freezes { drained } => write_drained(alloc, service, version, drained, out),
        }
    }

    /// Changes what the member knows by this. Takes no memory.
    pub(crate) fn note(self, from: MemberId, facts: &mut Facts)
        requires { IsSound (member_of facts.old) from self (node_of facts.old) }
        ensures { Becomes facts.old facts.new (node_by from self.entry (node_of facts.old)) }
    {
        match self {
            Reaction::Backup(BackupStep::Acknowledges { version, count, .. }) => {
                facts.rename(Pair { version, count });
            }
            Reaction::Backup(BackupStep::Silent(_)) => {}
            Reaction::KeepsAck { count, .. } => facts.keep_ack(from, count),
            Reaction::Freezes { .. } => facts.freeze(),
        }
    }
}

/// Tells the service that a joiner has the contents, where it is so.
pub(crate) fn write_joined(
    alloc: Global,
    service: MemberId,
    version: u32,
    member: MemberId,
    joined: bool,
    out: &mut Outbox,
) -> Result<(), Memory>
    ensures { (k : Contents) → OnOk result (Sends k (joined_note service version member joined) out.old out.new) }
{
    if joined {
        out.write(alloc, service, &MemberMessage::Joined { version, member })?;
    }
    Ok(())
}

/// Tells the service that a primary is frozen and holds nothing, where it is so.
pub(crate) fn write_drained(
    alloc: Global,
    service: MemberId,
    version: u32,
    drained: bool,
    out: &mut Outbox,
) -> Result<(), Memory>
    ensures { (k : Contents) → OnOk result (Sends k (drained_note service version drained) out.old out.new) }
{
    if drained {
        out.write(alloc, service, &MemberMessage::Frozen { version })?;
    }
    Ok(())
}
