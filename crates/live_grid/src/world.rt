//! The value of a partition's cell.
ghost use Rattle.std.specs.Prelude.{◌≡◌, ◌≢◌, ◌++◌, ◌∷◌, [], ℕ, List, IfOk, IfSome, IfNone};
ghost use Rattle.std.specs.Option.{option_map};
ghost use Rattle.grid_base.specs.declared.calls.Request.{Request as RequestOf};
ghost use Rattle.partition_world.specs.declared.event.Event.{Event as EventOf};
ghost use Rattle.live_grid.specs.declared.plan.GridPlan.{GridPlan as PlanOf};
ghost use Rattle.live_grid.specs.Lives.{LiveStands, IsThere, HasNoAnswer};
ghost use Rattle.live_grid.specs.Stored.{record_of, stored_in};
ghost use Rattle.primary_hold.specs.declared.answer.CallAnswer.{CallAnswer as AnswerOf};

use crate::answers::take_answer;
use crate::copies::{Record, record_kept};
use crate::plan::GridPlan;
use crate::settling::settled_as;
use call_engine::GridShelf;
use grid_base::{Bytes, CallId, Executes, MemberId, Memory, Moment, ObjectKey, Request};
use hand_cell::{LiveOutcome, Runs, Served, Stands};
use partition_world::{Event, Happened, StandingRow, World};
use primary_hold::CallAnswer;
use std::alloc::Global;

/// A partition's world, which records no history, with the answers that it gave out and that nobody has fetched yet.
#[derive(Drop)]
pub struct LiveWorld {
    pub world: World<GridShelf, StandingRow>,
    /// Found by looks for other calls.
    pub(crate) answers: Vec<CallAnswer>,
}

impl Stands for LiveWorld {
    ghost use Rattle.live_grid.specs.Histories.{live_key};
    ghost use Rattle.live_grid.specs.Outcomes.{LiveGives};
    ghost use Rattle.call_engine.specs.Limits.{RequestFits};
    ghost use Rattle.partition_world.specs.Events.{IsWithinLimits};

    type Plan = GridPlan;

    type Event = Event<Request>;

    type Outcome = Happened;

    ghost stands = { LiveStands };

    ghost gives = { LiveGives };

    ghost key_of = { live_key };

    ghost admits = { IsWithinLimits RequestFits };
}

impl<N> Runs<N> for LiveWorld
where
    GridShelf: Executes<N>,
{
    ghost use Rattle.live_grid.specs.Plans.{settings_for};

    ghost means = { λ env plan. ⟦<GridShelf as Executes<N>>⟧.plan_of env ≡ settings_for plan };

    fn run(&mut self, alloc: Global, env: &N, event: Event<Request>) -> Result<Happened, Memory> {
        self.world.step(alloc, env, event)
    }
}

impl Served for LiveWorld {
    ghost use Rattle.std.specs.Prelude.{refl};
    ghost use Rattle.live_grid.specs.Histories.{live_call};
    ghost use Rattle.live_grid.specs.Outcomes.{LiveTells};
    ghost use Rattle.call_engine.specs.Limits.{RequestFits};

    ghost call_of = { live_call };

    ghost fits = { RequestFits };

    ghost tells = { LiveTells };

    fn call_event(member: MemberId, request: Request, now: Moment) -> Event<Request> {
        Event::Call {
            member,
            id: request.id,
            call: request,
            now,
        }
    }

    fn next_event(&self) -> Option<Event<Request>> {
        self.next_delivery()
    }

    fn settled(outcome: &Happened) -> Option<LiveOutcome> {
        settled_as(*outcome)
    }

    /// Costs the answers that nobody has fetched yet, and those that the member gives out before this one: where there is
    /// none of these, a constant and no memory. For want of memory, where it is taken, nothing is told yet.
    fn outcome_of(&mut self, member: MemberId, id: CallId) -> Option<LiveOutcome> {
        match self.fetch(member, id) {
            Ok(Some(reply)) => Some(LiveOutcome::Replied(reply)),
            Ok(None) if self.is_gone(member, id) => Some(LiveOutcome::MemberGone),
            Ok(None) | Err(_) => None,
        }
    }

    ghost call_key = { λ member request now. refl };
}

impl LiveWorld {
    ghost use Rattle.std.specs.Prelude.{not, ◌&&◌, ◌≤◌};
    ghost use Rattle.partition_protocol.specs.World.{is_live};
    ghost use Rattle.partition_world.specs.ContentsOf.{holds_at};
    ghost use Rattle.partition_world.specs.Worlds.{waiting};
    ghost use Rattle.partition_world.specs.Events.{IsWithinLimits};
    ghost use Rattle.call_engine.specs.Limits.{RequestFits};
    ghost use Rattle.hand_cell.specs.declared.names.Key.TheVariants.{Free};
    ghost use Rattle.live_grid.specs.Histories.{cells, live_key, next_delivery};
    ghost use Rattle.live_grid.specs.Outcomes.{IsRepliedIn};

    /// A partition where nothing has happened. Takes memory for each member's node and for a link from each end to each.
    pub fn new(alloc: Global, plan: &GridPlan) -> Result<LiveWorld, Memory>
        requires some { 1 ≤ plan.now.members }
        requires most { plan.now.members ≤ 8 }
        ensures { IfOk result (λ live. LiveStands live plan.now []) }
    {
        let world = World::new(alloc, plan.partition, plan.members, plan.backups)?;
        Ok(LiveWorld {
            world,
            answers: Vec::with_capacity(alloc, 1)?,
        })
    }

    /// The reply to a call that reached a member, if it was released: it is moved out. What the member gives out before
    /// it is kept for those who ask for it. Costs the answers that are kept and those that it gives out.
    fn fetch(&mut self, member: MemberId, id: CallId) -> Result<Option<Bytes>, Memory>
        ensures kept { (plan : PlanOf) (history : List (EventOf RequestOf)) → LiveStands self.old plan history → LiveStands self.new plan history }
        ensures replied { (plan : PlanOf) (history : List (EventOf RequestOf)) → LiveStands self.old plan history → IfOk result (λ reply. IfSome reply (IsRepliedIn plan history id)) }
        ensures none { IfOk result (λ reply. IfNone reply (HasNoAnswer self.new member id)) }

        // No answer of another call is lost.
        ensures others { (answer : AnswerOf) → answer.id ≢ id → IsThere self.old member answer → IsThere self.new member answer }
        ensures elsewhere { (other : ℕ) → other ≢ member → waiting self.new.world other ≡ waiting self.old.world other }
    {
        if let Some(answer) = take_answer(&mut self.answers, id) {
            return Ok(Some(answer.reply));
        }
        self.answers.reserve(1)?;
        'waiting: while let Some(answer) = self.world.pop_released(member) {
            if answer.id == id {
                return Ok(Some(answer.reply));
            }
            self.answers.push_reserved(answer);
            self.answers.reserve(1)?;
        }
        Ok(None)
    }

    /// Whether a member that takes no steps holds the answer of a call. Costs the member's answers.
    fn is_gone(&self, member: MemberId, id: CallId) -> bool
        ensures { (plan : PlanOf) (history : List (EventOf RequestOf)) → LiveStands self.now plan history
            → result ≡ (not (is_live (cells plan history) member) && holds_at (cells plan history) member id) }
    {
        !self.world.is_live(member) && self.world.holds(member, id)
    }

    /// The delivery of the first message in flight, if there is one, in constant time and with no memory.
    pub fn next_delivery(&self) -> Option<Event<Request>>
        ensures key { IfSome result (λ e. live_key e ≡ Free) }
        ensures within { IfSome result (IsWithinLimits RequestFits) }
        ensures first { (plan : PlanOf) (history : List (EventOf RequestOf)) → LiveStands self.now plan history → result ≡ next_delivery plan history }
    {
        let link = self.world.next_link()?;
        Some(Event::Deliver {
            from: link.from,
            to: link.to,
            place: 0,
        })
    }

    /// A copy of what the first member of the newest row has of an object, if it has something of it. A lost row has no
    /// members. Costs the bytes of the copy.
    pub(crate) fn stored(&self, alloc: Global, key: &ObjectKey) -> Result<Option<Record>, Memory>
        requires { (plan : PlanOf) × (history : List (EventOf RequestOf)) × LiveStands self.now plan history }
        ensures { (plan : PlanOf) (history : List (EventOf RequestOf)) → LiveStands self.now plan history
            → IfOk result (λ copy. option_map record_of copy ≡ stored_in plan history key.now) }
    {
        match self.world.row().primary() {
            Some(first) => record_kept(alloc, self.world.contents(first).shelf.store(), key),
            None => Ok(None),
        }
    }
}
