//! What a line told.

ghost use Rattle.std.specs.Prelude.{◌≡◌, []};
ghost use Rattle.partition_world.specs.Events.{happened_of};
ghost use Rattle.master_member.specs.Outcomes.{outcome_of};
ghost use Rattle.line_told.specs.Happenings.{event_told, fate_told, master_told};

use frame_codec::Malformed;
use grid_base::{Bytes, CallId, PartitionId};
use master_member::MasterTook;
use partition_protocol::Pair;
use partition_world::Happened;
use rebalance::Step;
use std::alloc::Global;

/// What a line came to.
#[derive(Debug, Drop)]
pub enum LineOutcome {
    /// It ran, and there is no more to tell of that.
    Ran,
    /// Its condition was false.
    Idle,
    /// Its event came to this.
    Came(Happened),
    /// Its advance made no row: it froze the move's source.
    Froze,
    /// It delivered so many messages.
    Flowed { deliveries: u32 },
    /// It prints what a member has: the version of its contents, and how many effects they count.
    Dumped(Pair),
    /// It prints so many messages in flight.
    InFlight { messages: u128 },
    /// It prints so many entries of a history.
    Trail { entries: usize },
    /// The plan has so many steps.
    Planned { steps: usize },
    /// There is no plan, as every member is detected.
    NoMember,
    /// There is no plan, as that partition isn't settled.
    Unsettled { partition: PartitionId },
    /// The masters were asked for a decision, which has that number in their master's log.
    Proposed { number: u32 },
    /// They took no decision: their master's log, of that length, is longer than the published list.
    Busy { length: u32 },
    /// They took no decision: their master's log has as many as it may have.
    Full,
    /// So a message between masters was taken.
    MasterTook(MasterTook),
}

impl LineOutcome {
    /// What a line tells of its event, which is an advance or another one.
    pub fn of_event(advances: bool, happened: Happened) -> LineOutcome
        ensures { result ≡ event_told advances (happened_of happened) }
    {
        match happened {
            Happened::Done if advances => LineOutcome::Froze,
            _ => LineOutcome::Came(happened),
        }
    }

    /// What a line tells of a crash or a detection in all partitions, by what it came to in the first.
    pub fn of_fate(happened: Happened) -> LineOutcome
        ensures { result ≡ fate_told (happened_of happened) }
    {
        match happened {
            Happened::Done | Happened::RowMade { .. } => LineOutcome::Ran,
            _ => LineOutcome::Idle,
        }
    }

    /// What a line tells of a message between masters: at a place where none is nothing happened.
    pub fn of_message(took: MasterTook) -> LineOutcome
        ensures { result ≡ master_told (outcome_of took) }
    {
        match took {
            MasterTook::Nothing => LineOutcome::Idle,
            _ => LineOutcome::MasterTook(took),
        }
    }
}

/// A message that was appended to a connection's output.
#[derive(Debug, Drop)]
pub struct Appended {
    pub conn: u32,
    /// At which line.
    pub line: u32,
    pub bytes: Bytes,
    /// The call that it answers, if it answers one.
    pub answers: Option<CallId>,
    /// The call that it refuses, if it refuses one.
    pub refuses: Option<CallId>,
}

/// One of the things that a line told.
#[derive(Debug, Drop)]
pub enum Told {
    Outcome(LineOutcome),
    /// A step of the plan.
    Step(Step),
    Message(Appended),
    /// A step was run: its partition's move is done, or still under way.
    Ended {
        partition: PartitionId,
        moving: bool,
    },
    /// A decision was published in a partition, as the one of that number. What its event came to stands behind it.
    Published {
        partition: PartitionId,
        number: usize,
    },
    /// A fault closed a connection.
    Closed {
        conn: u32,
        fault: Malformed,
    },
}

/// What a line told, in order, and the text that it wrote as it went, which stands behind that.
#[derive(Debug, Drop)]
pub struct Ready {
    pub told: Vec<Told>,
    pub printed: Vec<u8>,
}

impl Ready {
    /// Nothing was told. Takes no memory.
    pub fn new(alloc: Global) -> Ready
        ensures told { result.told.items ≡ [] }
        ensures printed { result.printed.items ≡ [] }
    {
        Ready {
            told: Vec::new(alloc),
            printed: Vec::new(alloc),
        }
    }
}
