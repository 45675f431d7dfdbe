//! Decisions as lines, and as events of a partition.

ghost use Rattle.std.specs.Prelude.{◌≡◌, option_map};
ghost use Rattle.masters_world.specs.Decisions.{Decision as DecisionOf, event_of as decided_event};
ghost use Rattle.partition_world.specs.Events.{event_of};
ghost use Rattle.masters_run.specs.Written.{as_written};
ghost use Rattle.masters_run.specs.Answers.{Decided, decision_by};

use grid_base::{PartitionId, Request};
use master_wire::Decision;
use partition_world::Event;
use script_lang::Line;

/// The decision that a line asks for by itself, and its partition: a move, a join, a handover, an advance or a reopening.
pub(crate) fn decision_by(line: &Line) -> Option<(PartitionId, Decision)>
    ensures { result ≡ option_map (λ (d : Decided). (d.partition, as_written d.decision)) (decision_by line.now) }
{
    match line {
        Line::Move {
            partition,
            from,
            to,
        } => Some((
            *partition,
            Decision::BeginMove {
                from: *from,
                to: *to,
            },
        )),
        Line::Join { partition, to } => Some((*partition, Decision::BeginJoin { to: *to })),
        Line::Handover {
            partition,
            from,
            to,
        } => Some((
            *partition,
            Decision::BeginHandover {
                from: *from,
                to: *to,
            },
        )),
        Line::Advance { partition } => Some((*partition, Decision::Advance)),
        Line::Reopen { partition } => Some((*partition, Decision::Reopen)),
        _ => None,
    }
}

/// The event that a decision is, in a partition whose table service has that number on links.
pub(crate) fn event_of(decision: &Decision, service: u8) -> Event<Request>
    ensures { (d : DecisionOf) → decision.now ≡ as_written d → event_of result ≡ decided_event service d }
{
    match decision {
        Decision::Detect { member } => Event::Detect { member: *member },
        Decision::BeginMove { from, to } => Event::BeginMove {
            from: *from,
            to: *to,
        },
        Decision::BeginJoin { to } => Event::BeginJoin { to: *to },
        Decision::BeginHandover { from, to } => Event::BeginHandover {
            from: *from,
            to: *to,
        },
        Decision::Advance => Event::Advance,
        Decision::Reopen => Event::Reopen,
        Decision::Take { from, place, .. } => Event::Deliver {
            from: *from,
            to: service,
            place: *place as usize,
        },
    }
}
