//! Calls on their way through a grid: bytes that arrive, and calls that reach their partitions.

ghost use Rattle.std.specs.Prelude.{◌≡◌, ℕ, true, false, ◌+◌, ◌-◌, ◌*◌, ◌<◌, ◌^◌, List, [], ◌∷◌, ◌++◌, ◌⊎◌, Some, map, IfOk, OnOk, IsErrOf, ◌||◌, length, vec_len};
ghost use Rattle.grid_base.specs.declared.calls.Request.{Request as Call};
ghost use Rattle.partition_protocol.specs.Events.{Event as ProtocolEvent};
ghost use Rattle.partition_protocol.specs.Arrivals.{NamedOnce, arrivals, name};
ghost use Rattle.grid_base.specs.Limits.{CallFits};
ghost use Rattle.line_told.specs.declared.told.Told.{Told as ToldOf};
ghost use Rattle.call_engine.specs.Calls.{Settings};
ghost use Rattle.call_engine.specs.Env.{settings_of};
ghost use Rattle.call_engine.specs.Objects.{partition_object};
ghost use Rattle.partition_world.specs.Events.{happened_of};
ghost use Rattle.grid_base.specs.Shelves.{meaning};
ghost use Rattle.partition_world.specs.Worlds.{steps_of, waiting};
ghost use Rattle.replay_run.specs.Runs.{Run, Connection as RunConnection, partitions, call_of, refused_by, connection_of, fault_on, is_full, world_at};
ghost use Rattle.replay_run.specs.LineTold.{all_told, close_told};
ghost use Rattle.replay_run.specs.Rebalancing.{most_line_events};
ghost use Rattle.replay_run.specs.Tables.{with_answer};
ghost use Rattle.replay_run.specs.Tallies.{received, tallied};
ghost use Rattle.replay_run.specs.ScriptRuns.{IsRun, IsNext};
ghost use Rattle.replay_run.specs.Grids.{boxed, AreFew, AreListening, Stands, StandsForEvents, Holds, IsCounting, MayRun, HasRun, IsGivenUp};
ghost use Rattle.replay_run.specs.WaiterCalls.{IsBetween, HasHandledCall, by_call};
ghost use Rattle.replay_run.specs.WorldCalls.{GivesUpSo, arrival_to, refusals, IsCalledSo, IsSkippedSo, HasAsked, HasTold, HasCallRoom, HasRoom};
ghost use Rattle.replay_run.specs.WorldCalls.{open_member_in, Brings, HasHandledSome, IsGivenUpMidway};
ghost use Rattle.replay_run.specs.declared.run_end.RunEnd.TheVariants as RunEnds;

use crate::grid::Grid;
use crate::links::MOST_IN_FLIGHT;
use crate::messages::{own_answer, tell_message};
use crate::outgoing::{Reaching, append_reached, version_known};
use crate::run_end::RunEnd;
use crate::tally::Reception;
use call_engine::{GridEnv, GridShelf};
use client_codecs::write_error;
use frame_codec::Malformed;
use grid_base::errors::WANT_OF_MEMORY;
use grid_base::{Bytes, CallId, MemberId, Memory, Moment, Request};
use line_told::{Appended, Told};
use listeners::Listeners;
use partition_world::{CallOutcome, Event, Happened, Recorder, World};
use script_lang::Line;
use session_core::Item;
use std::alloc::Global;
use wait_sets::Spot;

/// The error that answers a call which was not run: its number, and the version of the row that its
/// member knows.
#[derive(Clone, Copy, Debug, PartialEq, Eq)]
pub(crate) struct Refusal {
    pub(crate) code: i32,
    pub(crate) version: u32,
}

/// A call found no memory.
const NO_MEMORY: Refusal = Refusal {
    code: WANT_OF_MEMORY,
    version: 0,
};

/// How a call is refused, if it is.
fn refusal_of(happened: Happened) -> Option<Refusal>
    ensures { (line : ℕ) (request : Call) → refusals line request result ≡ refused_by line request (happened_of happened) }
{
    match happened {
        Happened::Called(CallOutcome::Refused(why)) => Some(Refusal {
            code: why.code(),
            version: why.version(),
        }),
        _ => None,
    }
}

/// What became of a call that reached its partition, by how it is refused.
fn reception_of(refusal: Option<Refusal>) -> Reception
    ensures { (line : ℕ) (request : Call) → result ≡ received (refusals line request refusal) }
{
    match refusal {
        Some(_) => Reception::Refused,
        None => Reception::Taken,
    }
}

/// What an error that answers a call carries of it.
#[derive(Clone, Copy)]
pub(crate) struct Caller {
    pub(crate) line: u32,
    pub(crate) id: CallId,
    pub(crate) correlation: i64,
}

/// Tells the error that refuses a call, if it is refused.
pub(crate) fn tell_refusal(
    alloc: Global,
    out: &mut Vec<Told>,
    to: Caller,
    refusal: Option<Refusal>,
) -> Result<(), Memory>
    ensures { (request : Call) → request.id ≡ to.id → request.correlation ≡ to.correlation
        → OnOk result (out.new.items ≡ out.old.items ++ all_told (refusals to.line request refusal)) }
{
    let Some(Refusal { code, version }) = refusal else {
        return Ok(());
    };
    let error = write_error(alloc, to.correlation, code, version.cast_signed(), 0)?;
    let message = Appended {
        conn: to.id.conn,
        line: to.line,
        bytes: error,
        answers: None,
        refuses: Some(to.id),
    };
    tell_message(out, message)
}

/// What a call of a request meets at a member: its moment there, and the line at which it is made.
#[derive(Clone, Copy)]
pub(crate) struct Arriving {
    pub(crate) line: u32,
    pub(crate) member: MemberId,
    pub(crate) now: Moment,
}

/// A call reaches a member at a line. It is answered at once where it is refused or finds no memory, and what became of
/// it is told.
pub(crate) fn call(
    alloc: Global,
    world: &mut World<GridShelf, Recorder<Request>>,
    env: &GridEnv,
    at: Arriving,
    request: Request,
    out: &mut Vec<Told>,
) -> Result<Reception, Memory>
    requires limits { CallFits request.call }
    requires room { steps_of world.old + 1 < 2 ^ 32 - 1 }
    requires stands { (events : List (ProtocolEvent Call)) × StandsForEvents (settings_of (boxed form) env.now) world.old events
        × NamedOnce (map name (arrivals (events ++ call_of (arrival_to at.line at.member at.now request) ∷ []))) }
    ensures { (events : List (ProtocolEvent Call)) → StandsForEvents (settings_of (boxed form) env.now) world.old events
        → NamedOnce (map name (arrivals (events ++ call_of (arrival_to at.line at.member at.now request) ∷ [])))
        → IfOk result (λ reception. (told : List ToldOf) × (out.new.items ≡ out.old.items ++ told)
        × (IsCalledSo (settings_of (boxed form) env.now) world.old world.new events (arrival_to at.line at.member at.now request) told reception
        ⊎ IsSkippedSo (settings_of (boxed form) env.now) world.old world.new events (arrival_to at.line at.member at.now request) told reception)) }
{
    request.call.numbers_fit();
    let id = request.id;
    let to = Caller {
        line: at.line,
        id,
        correlation: request.correlation,
    };
    let event = Event::Call {
        member: at.member,
        id,
        call: request,
        now: at.now,
    };
    match world.step(alloc, env, event) {
        Ok(happened) => {
            let refusal = refusal_of(happened);
            tell_refusal(alloc, out, to, refusal)?;
            Ok(reception_of(refusal))
        }
        Err(_) => {
            tell_refusal(alloc, out, to, Some(NO_MEMORY))?;
            Ok(Reception::OutOfMemory)
        }
    }
}

/// Tells that a connection closed, if a fault closed it.
fn tell_close(out: &mut Vec<Told>, conn: u32, fault: Option<Malformed>) -> Result<(), Memory>
    ensures { OnOk result (out.new.items ≡ out.old.items ++ close_told conn fault) }
{
    let Some(fault) = fault else {
        return Ok(());
    };
    Ok(out.push(Told::Closed { conn, fault })?)
}

/// Drops what a connection registered at its member, where the connection has closed.
fn forget_closed(
    listeners: &mut Vec<Listeners>,
    conn: u32,
    member: MemberId,
    closed: Option<Malformed>,
)
    requires { member < vec_len listeners.old }
    ensures { (r : Run) (k : RunConnection) → connection_of r conn ≡ Some k → k.member ≡ member → closed ≡ fault_on k
        → AreListening listeners.old.items r (Some conn) → AreListening listeners.new.items r None }
{
    if closed.is_some() {
        listeners[usize::from(member)].drop_connection(conn);
    }
}

impl Grid {
    /// `bytes C HEX`: the messages that the bytes complete are handled in order, and a fault closes the connection.
    /// Where it is closed or wasn't opened, or its member has crashed, nothing happens.
    pub(crate) fn arrive(
        &mut self,
        alloc: Global,
        number: u32,
        conn: u32,
        bytes: &[u8],
        out: &mut Vec<Told>,
    ) -> Result<(), RunEnd>
        requires { MayRun (boxed form) self.old number (Line.Arrive conn bytes.now) }
        ensures ok { (settings : Settings) (r : Run) → Stands (boxed form) settings self.old r → OnOk result (HasRun (boxed form) settings self.new r (Line.Arrive conn bytes.now) out.old.items out.new.items) }
        ensures full { (settings : Settings) (r : Run) → Stands (boxed form) settings self.old r → IsErrOf result RunEnds.InFlight → IsGivenUp settings r (Line.Arrive conn bytes.now) }
    {
        let Some(member) = self.open_member(conn) else {
            return Ok(self.pass(number, out)?);
        };
        let Some(fed) = self.connections.feed(alloc, conn, bytes)? else {
            return Ok(self.pass(number, out)?);
        };
        self.count(number, out)?;
        self.handle_all(alloc, conn, member, fed.items, out)?;
        forget_closed(&mut self.listeners, conn, member, fed.closed);
        if fed.closed.is_some() {
            self.waiters.drop_conn(conn);
        }
        Ok(tell_close(out, conn, fed.closed)?)
    }

    /// The member of a connection, where bytes can arrive on it.
    pub(crate) fn open_member(&self, conn: u32) -> Option<MemberId>
        requires { (settings : Settings) × (r : Run) × Stands (boxed form) settings self.now r }
        ensures { (settings : Settings) (r : Run) → Stands (boxed form) settings self.now r → result ≡ open_member_in settings r conn }
    {
        let session = &self.connections.get(conn)?.session;
        let member = session.member();
        if session.closed().is_none() && self.is_live(member) {
            Some(member)
        } else {
            None
        }
    }

    /// The items of a connection are handled one after the other.
    fn handle_all(
        &mut self,
        alloc: Global,
        conn: u32,
        member: MemberId,
        items: Vec<Item>,
        out: &mut Vec<Told>,
    ) -> Result<(), RunEnd>
        requires { (settings : Settings) × (r : Run) × (k : RunConnection) × (bytes : List ℕ) × Brings settings r k bytes items.items × HasHandledSome (boxed form) settings self.old r k bytes [] out.old.items out.old.items × (k.conn ≡ conn) × (k.member ≡ member) × HasRoom r k bytes × AreFew r }
        ensures ok { (settings : Settings) (r : Run) (k : RunConnection) (bytes : List ℕ) → Brings settings r k bytes items.items → k.conn ≡ conn → k.member ≡ member
            → HasHandledSome (boxed form) settings self.old r k bytes [] out.old.items out.old.items
            → OnOk result (HasHandledSome (boxed form) settings self.new r k bytes items.items out.old.items out.new.items) }
        ensures full { (settings : Settings) (r : Run) (k : RunConnection) (bytes : List ℕ) → Brings settings r k bytes items.items → k.conn ≡ conn → k.member ≡ member
            → HasHandledSome (boxed form) settings self.old r k bytes [] out.old.items out.old.items
            → IsErrOf result RunEnds.InFlight → IsGivenUpMidway settings r k bytes items.items }
    {
        for item in items {
            match item {
                Item::Reply(answer) => self.tell(conn, answer, out)?,
                Item::Wait { request, timeout } => {
                    self.wait(alloc, member, request, timeout, out)?
                }
                Item::Register(registration) => {
                    self.register(alloc, conn, member, registration, out)?
                }
                Item::Call(request) => self.ask(alloc, member, request, out)?,
            }
        }
        Ok(())
    }

    /// A session's own answer is appended to its connection.
    pub(crate) fn tell(
        &mut self,
        conn: u32,
        answer: Bytes,
        out: &mut Vec<Told>,
    ) -> Result<(), Memory>
        ensures { (settings : Settings) (r : Run) (number : ℕ) → Holds (boxed form) settings self.old r
            → AreListening self.old.listeners.items r (Some conn) → IsCounting self.old.connections r conn number
            → OnOk result (HasTold (boxed form) settings self.new r conn number answer out.old.items out.new.items) }
    {
        self.connections.reply(conn)?;
        tell_message(out, own_answer(self.lines, conn, answer))
    }

    /// A call arrives at its connection's member and is made, and those who wait there have their turns.
    fn ask(
        &mut self,
        alloc: Global,
        member: MemberId,
        request: Request,
        out: &mut Vec<Told>,
    ) -> Result<(), RunEnd>
        requires limits { CallFits request.call }
        requires placed { request.partition < partitions }
        requires member { member < self.old.members }
        requires stands { (settings : Settings) × (r : Run) × IsBetween (boxed form) settings self.old r (Some request.id.conn) × IsNext r request × HasCallRoom r × AreFew r × IsCounting self.old.connections r request.id.conn request.id.number }
        ensures ok { (settings : Settings) (r : Run) → IsBetween (boxed form) settings self.old r (Some request.id.conn) → IsNext r request
            → IsCounting self.old.connections r request.id.conn request.id.number
            → OnOk result (HasHandledCall (boxed form) settings self.new r request.id.conn (request.id.number + 1) (by_call settings r member request) out.old.items out.new.items) }
        ensures full { (settings : Settings) (r : Run) → IsBetween (boxed form) settings self.old r (Some request.id.conn) → IsNext r request
            → IsCounting self.old.connections r request.id.conn request.id.number
            → IsErrOf result RunEnds.InFlight → GivesUpSo r (by_call settings r member request) }
    {
        let conn = request.id.conn;
        let at = Spot {
            member,
            partition: request.partition,
        };
        self.admit(alloc, member, request, out)?;
        self.make_turns(alloc, at, Some(conn), out)
    }

    /// A call arrives at its connection's member and is made. A full partition takes none.
    fn admit(
        &mut self,
        alloc: Global,
        member: MemberId,
        request: Request,
        out: &mut Vec<Told>,
    ) -> Result<(), RunEnd>
        requires limits { CallFits request.call }
        requires placed { request.partition < partitions }
        requires member { member < self.old.members }
        requires heard { vec_len self.old.listeners ≡ self.old.members }
        requires stands { (settings : Settings) × (r : Run) × Holds (boxed form) settings self.old r × HasCallRoom r × IsRun (partition_object settings) r
            × IsNext r request × AreFew r }
        ensures ok { (settings : Settings) (r : Run) → IsRun (partition_object settings) r → Holds (boxed form) settings self.old r → IsNext r request
            → AreListening self.old.listeners.items r (Some request.id.conn) → IsCounting self.old.connections r request.id.conn request.id.number
            → OnOk result (HasAsked (boxed form) settings self.new r member request out.old.items out.new.items) }
        ensures full { (settings : Settings) (r : Run) → Holds (boxed form) settings self.old r → IsErrOf result RunEnds.InFlight → is_full (world_at (partition_object settings) r request.partition) ≡ true }
    {
        if self.worlds[usize::from(request.partition)].has_crowded_link(MOST_IN_FLIGHT) {
            return Err(RunEnd::InFlight);
        }
        let reception = self.reach(alloc, member, request, out)?;
        self.tally.count(reception);
        Ok(())
    }

    /// A call reaches its member in a partition that isn't full. What became of it as it arrived is told, and is yet to be
    /// counted.
    fn reach(
        &mut self,
        alloc: Global,
        member: MemberId,
        request: Request,
        out: &mut Vec<Told>,
    ) -> Result<Reception, Memory>
        requires limits { CallFits request.call }
        requires placed { request.partition < partitions }
        requires member { member < self.old.members }
        requires heard { vec_len self.old.listeners ≡ self.old.members }
        requires stands { (settings : Settings) × (r : Run) × Holds (boxed form) settings self.old r × HasCallRoom r × IsRun (partition_object settings) r
            × IsNext r request × AreFew r }
        ensures ok { (settings : Settings) (r : Run) → IsRun (partition_object settings) r → Holds (boxed form) settings self.old r → IsNext r request
            → AreListening self.old.listeners.items r (Some request.id.conn) → IsCounting self.old.connections r request.id.conn request.id.number
            → is_full (world_at (partition_object settings) r request.partition) ≡ false
            → IfOk result (λ reception. HasAsked (boxed form) settings (record self.new { tally = tallied reception self.old.tally }) r member request out.old.items out.new.items) }
        ensures tally { self.new.tally ≡ self.old.tally }
    {
        let conn = request.id.conn;
        let world = &mut self.worlds[usize::from(request.partition)];
        self.connections.arrive(conn, self.lines)?;
        let at = Arriving {
            line: self.lines,
            member,
            now: self.moments[usize::from(member)],
        };
        let reaching = Reaching {
            line: self.lines,
            partition: request.partition,
            member,
            known: version_known(world, self.members, member),
            own: Some(conn),
        };
        let reception = call(alloc, world, &self.env, at, request, out)?;
        append_reached(
            alloc,
            reaching,
            world,
            self.listeners.as_slice(),
            &mut self.connections,
            out,
        )?;
        Ok(reception)
    }
}
