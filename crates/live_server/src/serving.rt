//! The loop of a server.
ghost use Rattle.std.specs.Prelude.{◌≡◌, ℕ, length, IfOk, All};
ghost use Rattle.grid_edge.specs.Faults.{HasCause};
ghost use Rattle.hand_cell.specs.Calls.{plan_of};
ghost use Rattle.live_session.specs.Connections.{ServesCalls};
ghost use Rattle.live_server.specs.Clients.{telling_by};
ghost use Rattle.live_server.specs.Order.{KeepsOrder};
ghost use Rattle.live_server.specs.Serving.{HasServedAll};
ghost use Rattle.live_server.specs.Times.{AnswersStandFirst};
ghost use Rattle.live_server.specs.Rounds.{IsAfter, ComesTo};
ghost use Rattle.live_server.specs.Standing.{MayServe, Rests, HasLetAllIn, IsSince, IsServing};

use crate::admission::let_in;
use crate::closing::{Closed, Closing};
use crate::connections::{Connections, MOST_NUMBERS};
use crate::due::Due;
use crate::entrance::{Entrance, Outside};
use crate::pause::{Pause, rest};
use crate::rounds::{go_round, hear_ready};
use grid_edge::{Clock, DoorFault, Doors};
use hand_cell::{Runs, Served};
use live_session::PIECE;
use loop_journal::Journal;
use partition_threads::{Gate, Workplace};
use std::alloc::Global;
use std::sync::Wait;

/// Serves the connections that come through the doors, which were opened before. Each is served at the member that it
/// came to, with its number at the doors as the one of its session, and is given back once it has ended. At most 1,024
/// are served at a time, and others wait outside; where there is no memory for a session, its connection is given back
/// at once. The calls of a connection are run in the order of its messages: of two in one partition, the event of the
/// earlier one stands first in what was seen (`StandInOrder`).
///
/// Once it is told to close it lets in who has come by then, and returns when the last connection has ended. It answers
/// the closing as it was seen: after that the doors were found empty, or no number was left for a connection. A fault of
/// the doors has the same effect, and is answered then. Where nothing is ready the thread sleeps at the doors, and
/// whoever answers a call or closes the server wakes it there.
///
/// Calls of different connections keep an order too. The journal has all that was read from connections and written to
/// them, in the order in which it was. Of two calls of one partition, on any connections: where some byte of the answer to
/// the one was written before the last byte of the other was read, its event stands first (`AnswersStandFirst`). So a
/// client that had an answer before another sent its call stands first, if that call is of its partition. It is so since a
/// call is started once its message has come, and its answer is written once its outcome was found, by the same journal
/// (`HasAnswered`); and where one call's outcome was found before another was started, its event stands first
/// (`KeepsOrder`). Nothing is said of calls of two servers.
///
/// Calls are made on this thread where that can be, in this environment, and else handed to the grid's workers; the gate is
/// called as they are run, as by a worker. The calls that one read gives are answered in one round and by one write, where all
/// are made so and they are few enough: each is a turn, and the read and the write are two.
///
/// A round costs a look at 16 words, and the turns of the connections that are due, up to 64 of each: those that came
/// since the last round, those of which the doors told since that they may be ready, those that had 64 turns, and those
/// with a call under way. A turn reads or writes once, or takes up one message, and no connection keeps more than 64 KiB of
/// answers unwritten when it takes one up: so the calls and the bytes of one round are bounded for each connection, and none
/// starves. A connection that is idle costs nothing.
pub fn serve<N, T, D, C, G, R>(
    rt: &R,
    alloc: Global,
    place: &Workplace<T>,
    env: &N,
    gate: &G,
    connections: &mut Connections<T, D::From, D::To>,
    doors: &mut D,
    clock: &mut C,
    closing: &Closing,
) -> Result<Closed<D>, DoorFault>
where
    T: Served + Runs<N>,
    D: Doors,
    C: Clock,
    G: Gate,
    R: Wait,
    requires calls { ServesCalls T.fits place.now }
    requires env { All (λ cell. T.means env.now (plan_of cell)) place.now.cells.items }
    requires may { MayServe T.key_of place.now connections.old (D.book doors.old) }
    ensures served { HasServedAll T.key_of T.tells T.call_of place.now (C.given clock.new)
        connections.new.journal connections.new.passes.items (D.book doors.new) }
    ensures in_order { KeepsOrder T.key_of connections.new.journal connections.new.passes.items }
    ensures in_time { AnswersStandFirst T.key_of T.tells T.call_of place.now (C.given clock.new)
        connections.new.journal connections.new.passes.items (D.book doors.new) }
    ensures all_in { IfOk result (λ closed. HasLetAllIn (D.empty_looks doors.old) (D.empty_looks closed)
        (D.empty_looks doors.new) (length (D.book doors.new).arrivals)) }
    ensures rests { Rests place.now connections.new }
    ensures opening { (D.book doors.new).opening ≡ (D.book doors.old).opening }
    ensures cause { HasCause (D.faults doors.old) (D.faults doors.new) result }
{
    let mut piece = [0; PIECE];
    let mut rounds = Rounds::new(place, connections, doors, clock);
    for _ in rt.forever() {
        let round = serve_round(
            rt,
            alloc,
            place,
            env,
            gate,
            &mut piece,
            connections,
            doors,
            clock,
            closing,
            rounds,
        );
        match round {
            Round::Next(next) => rounds = next,
            Round::Last(ended) => return ended,
        }
    }
    unreachable!()
}

/// What a server knows from one round to the next.
#[derive(Drop)]
pub struct Rounds<D> {
    pub(crate) entrance: Entrance<D>,
    /// Who has turns in the next round.
    pub(crate) due: Due,
    /// How many looks in a row found nothing ready.
    pub(crate) idle: usize,
}

/// What a round comes to.
#[derive(Drop)]
pub enum Round<D> {
    /// The server goes on.
    Next(Rounds<D>),
    /// No more connections are let in, and the last one has ended.
    Last(Result<Closed<D>, DoorFault>),
}

impl<D: Doors> Rounds<D> {
    /// Before the first round. No connection has come, and nothing was done for one.
    pub fn new<T: Served, C: Clock>(
        place: &Workplace<T>,
        connections: &mut Connections<T, D::From, D::To>,
        doors: &D,
        clock: &C,
    ) -> Rounds<D>
        requires { MayServe T.key_of place.now connections.old (D.book doors.now) }
        ensures serving { IsServing T.key_of T.tells T.call_of place.now (C.given clock.now)
            (telling_by D.From.given D.From.faults D.To.taken D.To.faults) connections.new (D.book doors.now) }
        ensures since { (looks faults accepted : ℕ) → IsAfter D.empty_looks result looks looks faults faults accepted }
    {
        let _ = place;
        let _ = doors;
        let _ = clock;
        connections.journal = Journal::new();
        Rounds {
            entrance: Entrance::Open,
            due: Due::none(),
            idle: 0,
        }
    }
}

/// One round of `serve`: lets connections in, unless no more are let in, gives each connection that is due its turns, and
/// sleeps where nobody is due. Connections read by way of `piece`, which keeps nothing. After it, as before, each connection
/// that came is served, as far as it was heard, or was served to its end and given back. Costs a look at 16 words, and the
/// turns.
pub fn serve_round<N, T, D, C, G, R>(
    rt: &R,
    alloc: Global,
    place: &Workplace<T>,
    env: &N,
    gate: &G,
    piece: &mut [u8; PIECE],
    connections: &mut Connections<T, D::From, D::To>,
    doors: &mut D,
    clock: &mut C,
    closing: &Closing,
    rounds: Rounds<D>,
) -> Round<D>
where
    T: Served + Runs<N>,
    D: Doors,
    C: Clock,
    G: Gate,
    R: Wait,
    requires calls { ServesCalls T.fits place.now }
    requires env { All (λ cell. T.means env.now (plan_of cell)) place.now.cells.items }
    requires serving { IsServing T.key_of T.tells T.call_of place.now (C.given clock.old)
        (telling_by D.From.given D.From.faults D.To.taken D.To.faults) connections.old (D.book doors.old) }
    ensures serving { IsServing T.key_of T.tells T.call_of place.now (C.given clock.new)
        (telling_by D.From.given D.From.faults D.To.taken D.To.faults) connections.new (D.book doors.new) }
    ensures since { (looks faults : ℕ) → IsAfter D.empty_looks rounds looks (D.empty_looks doors.old)
        faults (D.faults doors.old) (length (D.book doors.old).arrivals)
        → ComesTo D.empty_looks result connections.new.clients looks (D.empty_looks doors.new)
        faults (D.faults doors.new) (length (D.book doors.new).arrivals) }
    ensures opening { (D.book doors.new).opening ≡ (D.book doors.old).opening }
{
    let Rounds {
        entrance,
        mut due,
        idle,
    } = rounds;
    let outside = look_outside(
        alloc,
        place,
        connections,
        &mut due,
        doors,
        clock,
        closing,
        entrance,
    );
    hear_ready(doors, &mut due);
    let went = go_round(
        rt,
        alloc,
        place,
        env,
        gate,
        piece,
        connections,
        &mut due,
        doors,
        clock,
    );
    if connections.clients.is_empty() && !outside.entrance.is_open() {
        return Round::Last(outside.entrance.told());
    }
    let pause = Pause::after(&due, went, outside.came);
    let rested = rest(doors, pause, idle);
    Round::Next(Rounds {
        entrance: outside.entrance.after(&rested),
        due: if rested.is_ok() { due } else { Due::all() },
        idle: rested.unwrap_or(0),
    })
}

/// Lets connections in, where the entrance is open.
fn look_outside<T: Served, D: Doors, C: Clock>(
    alloc: Global,
    place: &Workplace<T>,
    connections: &mut Connections<T, D::From, D::To>,
    due: &mut Due,
    doors: &mut D,
    clock: &C,
    closing: &Closing,
    entrance: Entrance<D>,
) -> Outside<D>
    requires { IsServing T.key_of T.tells T.call_of place.now (C.given clock.now)
        (telling_by D.From.given D.From.faults D.To.taken D.To.faults) connections.old (D.book doors.old) }
    ensures serving { IsServing T.key_of T.tells T.call_of place.now (C.given clock.now)
        (telling_by D.From.given D.From.faults D.To.taken D.To.faults) connections.new (D.book doors.new) }
    ensures since { (looks faults : ℕ) → IsSince D.empty_looks entrance looks (D.empty_looks doors.old)
        faults (D.faults doors.old) (length (D.book doors.old).arrivals)
        → IsSince D.empty_looks result.entrance looks (D.empty_looks doors.new) faults (D.faults doors.new) (length (D.book doors.new).arrivals) }
    ensures opening { (D.book doors.new).opening ≡ (D.book doors.old).opening }
{
    if !entrance.is_open() {
        return Outside {
            entrance,
            came: false,
        };
    }
    let closed = closing.seen(doors);
    match let_in(alloc, place, connections, due, doors, clock) {
        Ok(looks) => {
            let all_in = looks.empty || connections.accepted == MOST_NUMBERS;
            Outside {
                entrance: match closed {
                    Some(closed) if all_in => Entrance::Closed(closed),
                    _ => Entrance::Open,
                },
                came: looks.came,
            }
        }
        Err(DoorFault) => Outside {
            entrance: Entrance::Failed,
            came: false,
        },
    }
}
