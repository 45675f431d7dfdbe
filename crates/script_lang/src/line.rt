ghost use Rattle.std.specs.Prelude.{◌≡◌};
ghost use Rattle.script_lang.specs.Lines.{is_end};

use grid_base::{Bytes, MemberId, Moment, PartitionId};

/// A line of a script.
#[derive(Debug, Drop)]
pub enum Line {
    /// The grid: how many members it has, how many backups a partition has, and how many values a queue may have.
    Grid {
        members: u8,
        backups: u8,
        capacity: u32,
    },
    /// A client connects to a member.
    OpenConn {
        conn: u32,
        member: MemberId,
    },
    /// Bytes arrive on a connection.
    Arrive {
        conn: u32,
        bytes: Bytes,
    },
    /// Sets a member's clock.
    Clock {
        member: MemberId,
        moment: Moment,
    },
    /// Delivers the message at a place of a partition's link from one end to another.
    Deliver {
        partition: PartitionId,
        from: u8,
        to: u8,
        place: usize,
    },
    /// Takes the message at a place of a link away undelivered.
    Lose {
        partition: PartitionId,
        from: u8,
        to: u8,
        place: usize,
    },
    /// Puts a copy of the message at a place of a link in flight.
    Repeat {
        partition: PartitionId,
        from: u8,
        to: u8,
        place: usize,
    },
    /// Delivers up to so many messages of a partition.
    Flow {
        partition: PartitionId,
        most: u32,
    },
    /// Delivers up to so many messages of each partition.
    FlowAll {
        most: u32,
    },
    /// A member, or the table service, sends again what may have been lost.
    Resend {
        partition: PartitionId,
        end: u8,
    },
    /// A member crashes.
    Crash {
        member: MemberId,
    },
    /// Tells the table service that a member crashed.
    Detect {
        member: MemberId,
    },
    /// Moves a partition from one member to another.
    Move {
        partition: PartitionId,
        from: MemberId,
        to: MemberId,
    },
    /// A member joins a partition's row.
    Join {
        partition: PartitionId,
        to: MemberId,
    },
    /// Hands a partition over from one member to another, which has its contents already.
    Handover {
        partition: PartitionId,
        from: MemberId,
        to: MemberId,
    },
    /// A partition's move goes on.
    Advance {
        partition: PartitionId,
    },
    /// Opens a lost partition again, without what it had.
    Reopen {
        partition: PartitionId,
    },
    /// Plans how the primaries are dealt out evenly, and runs up to so many of the plan's steps.
    Rebalance {
        most: u32,
    },
    /// Prints what a member has of a partition.
    Dump {
        partition: PartitionId,
        member: MemberId,
    },
    /// Prints a partition's messages in flight.
    Links {
        partition: PartitionId,
    },
    /// Prints the history of a partition.
    Trail {
        partition: PartitionId,
    },
    /// A connection begins to keep what it looks up of a map, up to so many entries.
    Near {
        conn: u32,
        name: Bytes,
        capacity: u32,
    },
    /// The client of a near cache looks a key up.
    NearGet {
        conn: u32,
        key: Bytes,
    },
    /// The client of a near cache is handed the next bytes of its connection's output, up to so many.
    NearFeed {
        conn: u32,
        most: u32,
    },
    /// The table service runs on the members from here on, where this is the second line.
    Masters,
    /// A member is told that another has crashed.
    Told {
        member: MemberId,
        crashed: MemberId,
    },
    /// Delivers the message at a place of a partition's link from one master to another.
    MasterDeliver {
        partition: PartitionId,
        from: u8,
        to: u8,
        place: usize,
    },
    /// Takes the message at a place of a link between masters away undelivered.
    MasterLose {
        partition: PartitionId,
        from: u8,
        to: u8,
        place: usize,
    },
    /// A master asks or stores again.
    MasterResend {
        partition: PartitionId,
        member: MemberId,
    },
    /// Delivers up to so many messages between a partition's masters.
    MasterFlow {
        partition: PartitionId,
        most: u32,
    },
    Comment,
    End,
}

impl Line {
    /// Whether it is the last line that is looked at.
    pub fn is_end(&self) -> bool
        ensures { result ≡ is_end self.now }
    {
        matches!(self, Line::End)
    }
}
