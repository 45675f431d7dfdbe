//! A connection that is served to its end.
ghost use Rattle.std.specs.Prelude.{ℕ, List, All};
ghost use Rattle.hand_cell.specs.Calls.{plan_of};
ghost use Rattle.live_session.specs.Connections.{IsFresh, ServesCalls};
ghost use Rattle.live_session.specs.Serving.{HasServed};
ghost use Rattle.live_session.specs.Turns.{incoming, stream};

use crate::blocking::Blocking;
use crate::connection::Connection;
use crate::reading::PIECE;
use crate::turned::{ConnectionEnd, Turned};
use grid_edge::{Clock, Sink, Source};
use hand_cell::{Runs, Served};
use loop_journal::Journal;
use partition_threads::{Gate, Workplace};
use session_calls::SessionPass;
use std::alloc::Global;
use std::sync::Wait;
use std::thread;

/// Serves a connection of this session to its end, over streams that wait, and gives the session back. It answers as
/// `Connection::turn` does. While a call is under way it lets other threads run, and looks again.
///
/// Its calls are run in the order of its messages: of two in one partition, the event of the earlier one stands first in
/// what was seen (`StandInOrder`).
pub fn serve_connection<T: Served + Runs<N>, N, S: Source, K: Sink, C: Clock, G: Gate, R: Wait>(
    rt: &R,
    alloc: Global,
    place: &Workplace<T>,
    env: &N,
    gate: &G,
    pass: SessionPass<T>,
    from: &mut Blocking<S>,
    to: &mut Blocking<K>,
    clock: &mut C,
) -> (ConnectionEnd, SessionPass<T>)
    requires calls { ServesCalls T.fits place.now }
    requires env { All (λ cell. T.means env.now (plan_of cell)) place.now.cells.items }
    requires fresh { (seen : ℕ → List T.Event) × IsFresh T.key_of place.now pass seen }
    ensures { (seen : ℕ → List T.Event) → IsFresh T.key_of place.now pass seen
        → HasServed T.key_of T.tells T.call_of place.now (C.given clock.new) pass seen
        (record { from = incoming (S.given from.old) (S.faults from.old) 0; to = stream (K.taken to.old) (K.faults to.old) 0 })
        (record { from = incoming (S.given from.new) (S.faults from.new) 0; to = stream (K.taken to.new) (K.faults to.new) 0 })
        result.0 result.1 }
{
    let mut connection = Connection::new(alloc, pass);
    let mut journal = Journal::new();
    let mut piece = [0; PIECE];
    for _ in rt.forever() {
        let turn = connection.turn(
            rt,
            alloc,
            place,
            env,
            gate,
            &mut piece,
            from,
            to,
            clock,
            &mut journal,
        );
        match turn.came_to {
            Turned::Moved => {}
            Turned::NotYet => thread::yield_now(),
            Turned::Ended(end) => return (end, connection.into_pass()),
        }
    }
    unreachable!()
}
