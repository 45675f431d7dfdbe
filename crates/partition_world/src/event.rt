use grid_base::{CallId, MemberId, Moment, PartitionRefused};
use member_wire::Took;
use table_service::{MoveRefused, ReopenRefused};

/// What can happen to a partition. Links are between ends: members by their numbers, and the table
/// service by the number of members.
#[derive(Debug, Drop)]
pub enum Event<C> {
    /// A call reaches a member at a moment.
    Call {
        member: MemberId,
        id: CallId,
        call: C,
        now: Moment,
    },
    /// The message at that place of a link, from 0, is handed over.
    Deliver {
        from: u8,
        to: u8,
        place: usize,
    },
    /// It is lost.
    Lose {
        from: u8,
        to: u8,
        place: usize,
    },
    /// It is in flight once more.
    Repeat {
        from: u8,
        to: u8,
        place: usize,
    },
    /// A primary or the table service sends again what may have been lost.
    Resend {
        end: u8,
    },
    /// A member takes no further step. What it sent stays in flight.
    Crash {
        member: MemberId,
    },
    /// The table service is told that a member has crashed.
    Detect {
        member: MemberId,
    },
    /// A member is to take another's place in the row.
    BeginMove {
        from: MemberId,
        to: MemberId,
    },
    /// A member is to join the row.
    BeginJoin {
        to: MemberId,
    },
    /// A backup is to lead in place of the primary, which leaves the row.
    BeginHandover {
        from: MemberId,
        to: MemberId,
    },
    /// The move under way takes its next step.
    Advance,
    /// The loss of a lost partition is accepted, and it goes on empty.
    Reopen,
}

/// What became of a call that reached a member.
#[derive(Clone, Copy, Debug, PartialEq, Eq)]
pub enum CallOutcome {
    /// Executed at that count; its answer waits for the backups.
    Held { seen: u32 },
    /// Executed at that count; its answer was released at once.
    Released { seen: u32 },
    /// The member executes none.
    Refused(PartitionRefused),
}

/// What an event came to.
#[derive(Clone, Copy, Debug, PartialEq, Eq)]
pub enum Happened {
    /// Its condition was false, and nothing changed.
    Nothing,
    /// It did what it says, and there is no more to tell. An advance that freezes the source is one.
    Done,
    Called(CallOutcome),
    /// A message was handed over, and taken this way.
    Took(Took),
    /// The table service made a row of that version.
    RowMade { version: u32 },
    /// A move, join or handover wasn't begun. Never for want of memory.
    MoveRefused(MoveRefused),
    /// The partition wasn't reopened. Never for want of memory.
    ReopenRefused(ReopenRefused),
}
