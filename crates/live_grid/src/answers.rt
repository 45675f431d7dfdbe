//! Answers that were given out and not fetched yet.
ghost use Rattle.std.specs.Prelude.{◌≡◌, ◌≢◌, List, All, Contains, IfSome, IfNone};
ghost use Rattle.grid_base.specs.declared.calls.Request.{Request as RequestOf};
ghost use Rattle.partition_world.specs.declared.event.Event.{Event as EventOf};
ghost use Rattle.primary_hold.specs.declared.answer.CallAnswer.{CallAnswer as AnswerOf};
ghost use Rattle.partition_world.specs.Worlds.{IsReleased};
ghost use Rattle.live_grid.specs.declared.plan.GridPlan.{GridPlan};
ghost use Rattle.live_grid.specs.Histories.{cells};
ghost use Rattle.live_grid.specs.Lives.{AreReleased};

use grid_base::CallId;
use primary_hold::CallAnswer;

/// Takes the answer of a call out, if it is there. Costs the answers that there are.
pub(crate) fn take_answer(answers: &mut Vec<CallAnswer>, id: CallId) -> Option<CallAnswer>
    ensures kept { (plan : GridPlan) (history : List (EventOf RequestOf)) → AreReleased plan history answers.old.items → AreReleased plan history answers.new.items }
    ensures released { (plan : GridPlan) (history : List (EventOf RequestOf)) → AreReleased plan history answers.old.items → IfSome result (IsReleased (cells plan history)) }
    ensures named { IfSome result (λ answer. answer.id ≡ id) }
    ensures none { IfNone result (All (λ answer. answer.id ≢ id) answers.new.items) }
    ensures others { (answer : AnswerOf) → answer.id ≢ id → Contains answers.old.items answer → Contains answers.new.items answer }
{
    let place = answers.iter().position(|answer| answer.id == id)?;
    Some(answers.remove(place))
}
