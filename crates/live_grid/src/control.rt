//! An operator's events on a live grid.
//!
//! An event of one partition is run in one turn there, and what is in flight is then delivered, a message a turn, until
//! nothing is, or there is no memory or no room for an event. It is refused with `Exhausted` exactly where the
//! partition's history is at its limit, and else for want of memory; nothing is then delivered. Each turn waits for those
//! who entered before. Those who hold calls in the partition are told of each event.
ghost use Rattle.std.specs.Prelude.{◌≡◌, ◌<◌, if◌then◌else◌, All};
ghost use Rattle.hand_cell.specs.declared.names.Key.TheVariants.{Control};
ghost use Rattle.hand_cell.specs.Calls.{plan_of};
ghost use Rattle.partition_world.specs.declared.event.Event.TheVariants as Events;
ghost use Rattle.partition_world.specs.declared.event.Happened.TheVariants as Outcomes;
ghost use Rattle.partition_world.specs.Events.{IsWithinLimits};
ghost use Rattle.call_engine.specs.Limits.{RequestFits};
ghost use Rattle.live_grid.specs.Control.{IsPassOfGrid, HasControlAt, HasControl, CameToAt, CameToInAll, is_nothing};
ghost use Rattle.live_grid.specs.Fates.{event_in_all};
ghost use Rattle.live_grid.specs.Grids.{place_of};
ghost use Rattle.live_grid.specs.Histories.{live_key};

use crate::control_turns::run_event;
use crate::grid::{GridPass, LiveGrid};
use crate::pass_places::{put_pass, take_pass};
use crate::world::LiveWorld;
use grid_base::{MemberId, PARTITIONS, PartitionId, Request};
use hand_cell::{RunRefused, Runs};
use partition_world::{Event, Happened};
use std::alloc::Global;
use std::sync::Wait;

/// What happens to a member in all partitions.
#[derive(Clone, Copy)]
pub(crate) enum Fate {
    Crash(MemberId),
    Detect(MemberId),
}

impl Fate {
    fn event(self) -> Event<Request>
        ensures { result ≡ event_in_all self }
    {
        match self {
            Fate::Crash(member) => Event::Crash { member },
            Fate::Detect(member) => Event::Detect { member },
        }
    }
}

/// What a member's fate comes to in all partitions, once it came to this in one more.
fn joined(all: Happened, one: Happened) -> Happened
    ensures { result ≡ (if is_nothing one then all else Outcomes.Done) }
{
    match one {
        Happened::Nothing => all,
        _ => Happened::Done,
    }
}

impl LiveGrid {
    /// Runs an event of a partition, and then delivers what is in flight there.
    fn run_in<N, R: Wait>(
        &self,
        rt: &R,
        alloc: Global,
        env: &N,
        pass: &mut GridPass,
        partition: PartitionId,
        event: Event<Request>,
    ) -> Result<Happened, RunRefused>
    where
        LiveWorld: Runs<N>,
        requires placed { partition < PARTITIONS }
        requires env { All (λ cell. ⟦<LiveWorld as Runs<N>>⟧.means env.now (plan_of cell)) (place_of self.now).cells.items }
        requires pass { IsPassOfGrid self.now pass.old }
        requires named { HasControlAt pass.old partition }
        requires key { live_key event ≡ Control }
        requires admitted { IsWithinLimits RequestFits event }
        ensures came { CameToAt self.now event pass.old pass.new partition result }
        ensures kept { IsPassOfGrid self.now pass.new }
        ensures control { HasControl pass.old → HasControl pass.new }
    {
        let slot = usize::from(partition);
        let going = take_pass(&mut pass.passes, slot);
        let (back, came) = run_event(rt, alloc, self.workplace(), env, partition, going, event);
        put_pass(&mut pass.passes, slot, back);
        came
    }

    /// Runs the same event in each partition, in their order.
    fn run_in_all<N, R: Wait>(
        &self,
        rt: &R,
        alloc: Global,
        env: &N,
        pass: &mut GridPass,
        fate: Fate,
    ) -> Result<Happened, RunRefused>
    where
        LiveWorld: Runs<N>,
        requires env { All (λ cell. ⟦<LiveWorld as Runs<N>>⟧.means env.now (plan_of cell)) (place_of self.now).cells.items }
        requires pass { IsPassOfGrid self.now pass.old }
        requires named { HasControl pass.old }
        ensures came { CameToInAll self.now (event_in_all fate) pass.old pass.new result }
        ensures kept { IsPassOfGrid self.now pass.new }
        ensures control { HasControl pass.new }
    {
        let mut all = Happened::Nothing;
        for partition in 0..PARTITIONS {
            match self.run_in(rt, alloc, env, pass, partition, fate.event()) {
                Ok(one) => all = joined(all, one),
                Err(why) => return Err(why),
            }
        }
        Ok(all)
    }

    /// A member takes no further step, in each partition, in their order.
    ///
    /// Answers `Nothing` where that came of it in each partition, and else `Done`. Where a partition refuses it, those
    /// before that one have the event, and no other. Costs the event and the deliveries of each partition.
    pub fn crash<N, R: Wait>(
        &self,
        rt: &R,
        alloc: Global,
        env: &N,
        pass: &mut GridPass,
        member: MemberId,
    ) -> Result<Happened, RunRefused>
    where
        LiveWorld: Runs<N>,
        requires env { All (λ cell. ⟦<LiveWorld as Runs<N>>⟧.means env.now (plan_of cell)) (place_of self.now).cells.items }
        requires pass { IsPassOfGrid self.now pass.old }
        requires named { HasControl pass.old }
        ensures came { CameToInAll self.now (Events.Crash member) pass.old pass.new result }
        ensures kept { IsPassOfGrid self.now pass.new }
        ensures control { HasControl pass.new }
    {
        self.run_in_all(rt, alloc, env, pass, Fate::Crash(member))
    }

    /// The table service is told that a member has crashed, in each partition, in their order.
    ///
    /// Answers and costs as `crash`, and stops so where a partition refuses it.
    pub fn detect<N, R: Wait>(
        &self,
        rt: &R,
        alloc: Global,
        env: &N,
        pass: &mut GridPass,
        member: MemberId,
    ) -> Result<Happened, RunRefused>
    where
        LiveWorld: Runs<N>,
        requires env { All (λ cell. ⟦<LiveWorld as Runs<N>>⟧.means env.now (plan_of cell)) (place_of self.now).cells.items }
        requires pass { IsPassOfGrid self.now pass.old }
        requires named { HasControl pass.old }
        ensures came { CameToInAll self.now (Events.Detect member) pass.old pass.new result }
        ensures kept { IsPassOfGrid self.now pass.new }
        ensures control { HasControl pass.new }
    {
        self.run_in_all(rt, alloc, env, pass, Fate::Detect(member))
    }

    /// A member is to take another's place in a partition's row.
    ///
    /// Costs the event and the deliveries behind it. Refused as every event of one partition.
    pub fn begin_move<N, R: Wait>(
        &self,
        rt: &R,
        alloc: Global,
        env: &N,
        pass: &mut GridPass,
        partition: PartitionId,
        from: MemberId,
        to: MemberId,
    ) -> Result<Happened, RunRefused>
    where
        LiveWorld: Runs<N>,
        requires placed { partition < PARTITIONS }
        requires env { All (λ cell. ⟦<LiveWorld as Runs<N>>⟧.means env.now (plan_of cell)) (place_of self.now).cells.items }
        requires pass { IsPassOfGrid self.now pass.old }
        requires named { HasControlAt pass.old partition }
        ensures came { CameToAt self.now (Events.BeginMove from to) pass.old pass.new partition result }
        ensures kept { IsPassOfGrid self.now pass.new }
        ensures control { HasControl pass.old → HasControl pass.new }
    {
        self.run_in(
            rt,
            alloc,
            env,
            pass,
            partition,
            Event::BeginMove { from, to },
        )
    }

    /// A member is to join a partition's row.
    ///
    /// Costs the event and the deliveries behind it. Refused as every event of one partition.
    pub fn begin_join<N, R: Wait>(
        &self,
        rt: &R,
        alloc: Global,
        env: &N,
        pass: &mut GridPass,
        partition: PartitionId,
        to: MemberId,
    ) -> Result<Happened, RunRefused>
    where
        LiveWorld: Runs<N>,
        requires placed { partition < PARTITIONS }
        requires env { All (λ cell. ⟦<LiveWorld as Runs<N>>⟧.means env.now (plan_of cell)) (place_of self.now).cells.items }
        requires pass { IsPassOfGrid self.now pass.old }
        requires named { HasControlAt pass.old partition }
        ensures came { CameToAt self.now (Events.BeginJoin to) pass.old pass.new partition result }
        ensures kept { IsPassOfGrid self.now pass.new }
        ensures control { HasControl pass.old → HasControl pass.new }
    {
        self.run_in(rt, alloc, env, pass, partition, Event::BeginJoin { to })
    }

    /// A backup is to lead a partition in place of the primary, which leaves the row.
    ///
    /// Costs the event and the deliveries behind it. Refused as every event of one partition.
    pub fn begin_handover<N, R: Wait>(
        &self,
        rt: &R,
        alloc: Global,
        env: &N,
        pass: &mut GridPass,
        partition: PartitionId,
        from: MemberId,
        to: MemberId,
    ) -> Result<Happened, RunRefused>
    where
        LiveWorld: Runs<N>,
        requires placed { partition < PARTITIONS }
        requires env { All (λ cell. ⟦<LiveWorld as Runs<N>>⟧.means env.now (plan_of cell)) (place_of self.now).cells.items }
        requires pass { IsPassOfGrid self.now pass.old }
        requires named { HasControlAt pass.old partition }
        ensures came { CameToAt self.now (Events.BeginHandover from to) pass.old pass.new partition result }
        ensures kept { IsPassOfGrid self.now pass.new }
        ensures control { HasControl pass.old → HasControl pass.new }
    {
        self.run_in(
            rt,
            alloc,
            env,
            pass,
            partition,
            Event::BeginHandover { from, to },
        )
    }

    /// The move that is under way in a partition takes its next step.
    ///
    /// Costs the event and the deliveries behind it. Refused as every event of one partition.
    pub fn advance<N, R: Wait>(
        &self,
        rt: &R,
        alloc: Global,
        env: &N,
        pass: &mut GridPass,
        partition: PartitionId,
    ) -> Result<Happened, RunRefused>
    where
        LiveWorld: Runs<N>,
        requires placed { partition < PARTITIONS }
        requires env { All (λ cell. ⟦<LiveWorld as Runs<N>>⟧.means env.now (plan_of cell)) (place_of self.now).cells.items }
        requires pass { IsPassOfGrid self.now pass.old }
        requires named { HasControlAt pass.old partition }
        ensures came { CameToAt self.now Events.Advance pass.old pass.new partition result }
        ensures kept { IsPassOfGrid self.now pass.new }
        ensures control { HasControl pass.old → HasControl pass.new }
    {
        self.run_in(rt, alloc, env, pass, partition, Event::Advance)
    }

    /// The loss of a lost partition is accepted, and it goes on empty.
    ///
    /// Costs the event and the deliveries behind it. Refused as every event of one partition.
    pub fn reopen<N, R: Wait>(
        &self,
        rt: &R,
        alloc: Global,
        env: &N,
        pass: &mut GridPass,
        partition: PartitionId,
    ) -> Result<Happened, RunRefused>
    where
        LiveWorld: Runs<N>,
        requires placed { partition < PARTITIONS }
        requires env { All (λ cell. ⟦<LiveWorld as Runs<N>>⟧.means env.now (plan_of cell)) (place_of self.now).cells.items }
        requires pass { IsPassOfGrid self.now pass.old }
        requires named { HasControlAt pass.old partition }
        ensures came { CameToAt self.now Events.Reopen pass.old pass.new partition result }
        ensures kept { IsPassOfGrid self.now pass.new }
        ensures control { HasControl pass.old → HasControl pass.new }
    {
        self.run_in(rt, alloc, env, pass, partition, Event::Reopen)
    }

    /// A primary, or the table service, whose number is that of the members, sends again what may have been lost.
    ///
    /// Costs the event and the deliveries behind it. Refused as every event of one partition.
    pub fn resend<N, R: Wait>(
        &self,
        rt: &R,
        alloc: Global,
        env: &N,
        pass: &mut GridPass,
        partition: PartitionId,
        end: u8,
    ) -> Result<Happened, RunRefused>
    where
        LiveWorld: Runs<N>,
        requires placed { partition < PARTITIONS }
        requires env { All (λ cell. ⟦<LiveWorld as Runs<N>>⟧.means env.now (plan_of cell)) (place_of self.now).cells.items }
        requires pass { IsPassOfGrid self.now pass.old }
        requires named { HasControlAt pass.old partition }
        ensures came { CameToAt self.now (Events.Resend end) pass.old pass.new partition result }
        ensures kept { IsPassOfGrid self.now pass.new }
        ensures control { HasControl pass.old → HasControl pass.new }
    {
        self.run_in(rt, alloc, env, pass, partition, Event::Resend { end })
    }
}
