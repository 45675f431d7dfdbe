//! What the masters' lines tell.

ghost use Rattle.std.specs.Prelude.{◌≡◌, ◌++◌, if◌then◌else◌, OnOk};
ghost use Rattle.line_told.specs.Happenings.{event_told, fate_told, master_told};
ghost use Rattle.master_log.specs.Outcomes.{done_if};
ghost use Rattle.partition_world.specs.Events.{event_of, happened_of};
ghost use Rattle.replay_run.specs.LineTold.{came_to};
ghost use Rattle.masters_run.specs.LineTold.{is_detection, number_told};
ghost use Rattle.masters_run.specs.Answers.{answer_of};

use crate::publishing::Proposal;
use grid_base::{Memory, PartitionId, Request};
use line_told::{LineOutcome, Told};
use partition_world::{Event, Happened};
use replay_run::tell_outcome;

/// Whether an event is a detection.
pub(crate) fn is_detection(event: &Event<Request>) -> bool
    ensures { result ≡ is_detection (event_of event.now) }
{
    matches!(event, Event::Detect { .. })
}

/// What is told of the event of a published decision: of a detection as on a line of its own, and of an advance that it
/// freezes where it makes no row.
pub(crate) fn published_outcome(detects: bool, advances: bool, happened: Happened) -> LineOutcome
    ensures { result ≡ (if detects then fate_told (happened_of happened) else event_told advances (happened_of happened)) }
{
    if detects {
        LineOutcome::of_fate(happened)
    } else {
        LineOutcome::of_event(advances, happened)
    }
}

/// What a line tells that did something or didn't.
pub(crate) fn done_outcome(done: bool) -> LineOutcome
    ensures { result ≡ master_told (done_if done) }
{
    if done {
        LineOutcome::Ran
    } else {
        LineOutcome::Idle
    }
}

/// What a line tells of a proposal.
pub(crate) fn proposal_outcome(proposal: Proposal) -> LineOutcome
    ensures { result ≡ master_told (answer_of proposal) }
{
    match proposal {
        Proposal::NoMaster => LineOutcome::Idle,
        Proposal::Busy { length } => LineOutcome::Busy { length },
        Proposal::Full => LineOutcome::Full,
        Proposal::Proposed { number } => LineOutcome::Proposed { number },
    }
}

/// Tells that a decision was published in a partition, as the one of that number.
pub(crate) fn tell_published(
    out: &mut Vec<Told>,
    partition: PartitionId,
    number: usize,
) -> Result<(), Memory>
    ensures { OnOk result (out.new.items ≡ out.old.items ++ number_told partition number) }
{
    Ok(out.push(Told::Published { partition, number })?)
}

/// Tells what a line came to, and what followed behind it.
pub(crate) fn tell_with(
    out: &mut Vec<Told>,
    outcome: LineOutcome,
    followed: &mut Vec<Told>,
) -> Result<(), Memory>
    ensures { OnOk result (out.new.items ≡ out.old.items ++ came_to outcome ++ followed.old.items) }
{
    tell_outcome(out, outcome)?;
    Ok(out.append(followed)?)
}
