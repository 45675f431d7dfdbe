use client_words::Spoken;
use grid_base::{MemberId, Moment, PartitionId};
use member_wire::Took;
use run_words::Letter;

/// A message between members on its way. Ends are members by their numbers, and the table service behind the last.
#[derive(Debug, Drop)]
pub struct Flight {
    pub partition: PartitionId,
    pub from: u8,
    pub to: u8,
    /// The line that sent it, and the step of the run.
    pub sent: u32,
    pub step: u32,
    pub letter: Letter,
}

/// A step by which the primaries are dealt out evenly: a partition goes from a member to another.
#[derive(Clone, Copy, Debug, PartialEq, Eq)]
pub struct PlanStep {
    pub partition: PartitionId,
    pub from: MemberId,
    pub to: MemberId,
    /// Its contents are there already.
    pub handover: bool,
}

/// Something that happened at a line of a script.
#[derive(Debug, Drop)]
pub enum Happening {
    /// The grid was made.
    Made {
        members: u8,
        backups: u8,
        capacity: u32,
    },
    /// A connection was opened.
    Opened {
        conn: u32,
        member: MemberId,
    },
    /// A member's clock was set.
    Clock {
        member: MemberId,
        moment: Moment,
    },
    /// The line did nothing, for this cause.
    Nothing {
        why: &'static str,
    },
    /// Bytes came that complete no message.
    Pieces {
        conn: u32,
        count: usize,
    },
    /// A client's message is complete; `number` is its place among those of the connection.
    Heard {
        conn: u32,
        number: u32,
        saying: Spoken,
    },
    /// It is a call in that partition, and was executed there. Where it is held its answer waits for the backups.
    Reached {
        conn: u32,
        number: u32,
        partition: PartitionId,
        member: MemberId,
        held: bool,
    },
    /// It is a call that waits at that member, in that partition.
    Waits {
        conn: u32,
        number: u32,
        partition: PartitionId,
        member: MemberId,
    },
    /// A call that had waited was executed, and its answer waits for the backups.
    Held {
        conn: u32,
        number: u32,
        member: MemberId,
    },
    /// A call that had waited leaves without an answer.
    Left {
        conn: u32,
        number: u32,
    },
    /// A member answered a message.
    Answered {
        conn: u32,
        number: u32,
        words: String,
    },
    /// A connection closed at that byte.
    Closed {
        conn: u32,
        at: u64,
        words: &'static str,
    },
    /// Who listens on a connection was told something, or what nobody reads.
    Event {
        conn: u32,
        words: String,
    },
    /// What the near client of a connection does or hears, in words.
    Near {
        conn: u32,
        words: String,
    },
    /// A message was sent.
    Sent(Flight),
    /// So many messages more were sent on that link.
    SentMore {
        partition: PartitionId,
        from: u8,
        to: u8,
        count: usize,
    },
    /// A message was delivered, and taken this way.
    Delivered(Flight, Took),
    /// A message was lost.
    Lost(Flight),
    /// A message is in flight once more.
    Repeated(Flight),
    /// An end sent again what may have been lost.
    Resent {
        end: u8,
    },
    Crashed {
        member: MemberId,
    },
    /// The table service was told of a crash.
    Detected {
        member: MemberId,
    },
    /// The table service made a row.
    Row {
        partition: PartitionId,
        version: u32,
        words: String,
        primary: Option<MemberId>,
    },
    /// The source of a partition's move is told to freeze.
    Freezing {
        partition: PartitionId,
    },
    /// A partition's handover has begun.
    Begun {
        partition: PartitionId,
    },
    /// How the primaries are dealt out evenly: in so many steps, of which up to so many are run.
    Planned {
        steps: u32,
        most: u32,
    },
    /// A step was run, in so many events of its partition.
    Stepped {
        step: PlanStep,
        moving: bool,
        events: u32,
    },
    /// A step of the plan that wasn't run.
    NotRun {
        step: PlanStep,
    },
    /// A plan, a move, a join, a handover or a reopening was refused, for this cause.
    Refused {
        why: &'static str,
    },
    /// What masters do or answer, in words.
    Masters {
        words: String,
    },
    /// The masters of a partition published the decision of that number, and what came of it.
    Published {
        partition: PartitionId,
        number: u32,
        words: String,
    },
    /// So many messages were delivered.
    Flowed {
        count: u32,
    },
    /// So many messages of a partition are in flight.
    InFlight {
        partition: PartitionId,
        count: u64,
    },
    /// One of them, at that place of its link.
    At {
        flight: Flight,
        place: usize,
    },
    /// What a member has of a partition goes by this version and count; the objects follow.
    Contents {
        partition: PartitionId,
        member: MemberId,
        version: u32,
        count: u32,
    },
    /// An object of these contents.
    Kept {
        words: String,
    },
    /// What was called on an object, or that a partition has no history.
    History {
        words: String,
    },
    /// A comment, without its `#`.
    Comment {
        text: String,
    },
    /// The script ended.
    Ended,
}
