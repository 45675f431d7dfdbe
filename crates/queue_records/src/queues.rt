ghost use Rattle.std.specs.Prelude.{◌≡◌, ◌-◌, ◌^◌, min, length as count, IfOk, if◌then◌else◌};
ghost use Rattle.queue_records.specs.Queues.{answer as answer_of, after as after_of, step as step_of, stepped, has_room as has_room_for, front as front_of, unless_empty as unless_empty_of};

use grid_base::{Answer, Bytes, Memory, QueueCall};
use std::alloc::Global;

/// How a call changes a queue.
#[derive(Clone, Copy, Debug, PartialEq, Eq)]
pub enum QueueStep {
    /// Nothing changes.
    Same,
    /// The call's value goes to the back.
    Push,
    /// The value at the front goes.
    Pop,
    /// All values go.
    Clear,
}

/// Runs a call on a queue of this capacity, whose front stands first. Answers as the queue's definition does
/// (`specs/Queues.antt`), with the step that makes the list after the call; it is `Same` exactly where the call
/// changes nothing. Copies the value that is answered, if any; the cost is otherwise constant.
pub fn run_queue(
    alloc: Global,
    list: &[Bytes],
    call: &QueueCall,
    capacity: u32,
) -> Result<(Answer, QueueStep), Memory>
    ensures answer { IfOk result (λ done. done.0 ≡ answer_of list.now call.now capacity) }
    ensures step { IfOk result (λ done. done.1 ≡ step_of list.now call.now capacity) }
    ensures after { IfOk result (λ done. stepped list.now call.now done.1 ≡ after_of list.now call.now capacity) }
{
    match call {
        QueueCall::Offer { .. } => Ok(offered(list, capacity)),
        QueueCall::Poll { .. } => Ok((front(alloc, list)?, unless_empty(list, QueueStep::Pop))),
        QueueCall::Peek { .. } => Ok((front(alloc, list)?, QueueStep::Same)),
        QueueCall::Size { .. } => Ok((Answer::Number(length(list)), QueueStep::Same)),
        QueueCall::RemainingCapacity { .. } => {
            let room = capacity.saturating_sub(length(list));
            Ok((Answer::Number(room), QueueStep::Same))
        }
        QueueCall::Clear { .. } => Ok((Answer::Void, unless_empty(list, QueueStep::Clear))),
    }
}

/// An offer is taken where there is room for one value more.
fn offered(list: &[Bytes], capacity: u32) -> (Answer, QueueStep)
    ensures answer { result.0 ≡ Answer.Flag (has_room_for list.now capacity) }
    ensures step { result.1 ≡ (if has_room_for list.now capacity then QueueStep.Push else QueueStep.Same) }
{
    if list.len() < capacity as usize {
        (Answer::Flag(true), QueueStep::Push)
    } else {
        (Answer::Flag(false), QueueStep::Same)
    }
}

/// The value at the front, or null.
fn front(alloc: Global, list: &[Bytes]) -> Result<Answer, Memory>
    ensures { IfOk result (λ answer. answer ≡ Answer.Maybe (front_of list.now)) }
{
    match list.first() {
        None => Ok(Answer::Maybe(None)),
        Some(value) => Ok(Answer::Maybe(Some(value.copied(alloc)?))),
    }
}

/// The step where there is something to take away.
fn unless_empty(list: &[Bytes], step: QueueStep) -> QueueStep
    ensures { result ≡ unless_empty_of list.now step }
{
    if list.is_empty() {
        QueueStep::Same
    } else {
        step
    }
}

/// The length, or the greatest number of 32 bits where it is longer.
fn length(list: &[Bytes]) -> u32
    ensures { result ≡ min (count list.now) (2 ^ 32 - 1) }
{
    u32::try_from(list.len()).unwrap_or(u32::MAX)
}
