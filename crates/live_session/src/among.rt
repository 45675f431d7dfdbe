//! A turn of a connection among those of one loop.
ghost use Rattle.std.specs.Prelude.{◌≡◌, ◌≤◌, ℕ, List, All};
ghost use Rattle.hand_cell.specs.Calls.{plan_of};
ghost use Rattle.hand_cell.specs.declared.names.Key.{Key};
ghost use Rattle.live_session.specs.Among.{IsPrepared, MaySettle, HasSettled, HasTurnedAmong};
ghost use Rattle.live_session.specs.Connections.{IsAlive, IsServedTo, ServesCalls};
ghost use Rattle.live_session.specs.Turns.{incoming, stream, before_of};
ghost use Rattle.live_session.specs.Starts.{Log};
ghost use Rattle.session_calls.specs.Passes.{ArePassesOf};
ghost use Rattle.session_calls.specs.Sessions.{IsSessionOf};

use crate::connection::Connection;
use crate::reading::PIECE;
use crate::step::CallStep;
use crate::turned::Turn;
use grid_edge::{Clock, ReadySink, ReadySource};
use hand_cell::{Pass, Runs, Served};
use loop_journal::Journal;
use partition_threads::{Gate, Workplace};
use session_core::Item;
use std::alloc::Global;
use std::sync::Wait;

impl<T: Served> Connection<T> {
    /// Goes on by one step, as `turn` does, among the connections of one loop. These learn of each other's calls by way of
    /// the loop's passes: a call that is started or made stands behind all that those have seen, and they see all that a
    /// session has seen once its call has an outcome.
    ///
    /// Costs what `turn` does. A start costs what `Cell::learn` does, and so does finding an outcome.
    pub fn turn_among<N, F: ReadySource, K: ReadySink, C: Clock, G: Gate, R: Wait>(
        &mut self,
        rt: &R,
        alloc: Global,
        place: &Workplace<T>,
        env: &N,
        gate: &G,
        piece: &mut [u8; PIECE],
        from: &mut F,
        to: &mut K,
        clock: &mut C,
        journal: &mut Journal,
        known: &mut Vec<Pass<T>>,
    ) -> Turn
    where
        T: Runs<N>,
        requires calls { ServesCalls T.fits place.now }
        requires env { All (λ cell. T.means env.now (plan_of cell)) place.now.cells.items }
        requires served { IsAlive T.key_of T.tells T.call_of place.now self.old }
        requires known { ArePassesOf place.now.cells.items known.old.items }
        ensures turned { (seen : ℕ → List T.Event) (log : Log) (read written : List ℕ)
            → IsServedTo T.key_of T.tells T.call_of log place.now self.old seen read written
            → HasTurnedAmong T.key_of T.tells T.call_of place.now (C.given clock.old) (C.given clock.new) journal.old journal.new (before_of self.old) self.new
            (record {
              from = incoming (F.given from.old) (F.faults from.old) (F.unready from.old);
              to = stream (K.taken to.old) (K.faults to.old) (K.unready to.old);
            })
            (record {
              from = incoming (F.given from.new) (F.faults from.new) (F.unready from.new);
              to = stream (K.taken to.new) (K.faults to.new) (K.unready to.new);
            })
            seen log read written result.came_to result.step known.old.items known.new.items }
        ensures same_conn { self.new.pass.conn ≡ self.old.pass.conn }
        ensures same_member { self.new.pass.member ≡ self.old.pass.member }
        ensures read_faults { F.faults from.old ≤ F.faults from.new }
        ensures write_faults { K.faults to.old ≤ K.faults to.new }
        ensures kept_known { ArePassesOf place.now.cells.items known.new.items }
    {
        self.prepare(place, known);
        let turn = self.turn(rt, alloc, place, env, gate, piece, from, to, clock, journal);
        self.settle(place, known, turn.step);
        turn
    }

    /// Lets the session see what these passes have seen of the partition of the call that is started next, if one is.
    fn prepare(&mut self, place: &Workplace<T>, known: &mut Vec<Pass<T>>)
        requires calls { ServesCalls T.fits place.now }
        requires served { IsAlive T.key_of T.tells T.call_of place.now self.old }
        requires known { ArePassesOf place.now.cells.items known.old.items }
        ensures prepared { (seen : ℕ → List T.Event) (log : Log) (read written : List ℕ)
            → IsServedTo T.key_of T.tells T.call_of log place.now self.old seen read written
            → IsPrepared T.key_of T.tells T.call_of place.now self.old self.new seen log read written known.old.items }
        ensures same { self.new ≡ record self.old { pass = self.new.pass } }
        ensures same_conn { self.new.pass.conn ≡ self.old.pass.conn }
        ensures same_member { self.new.pass.member ≡ self.old.pass.member }
        ensures same_known { known.new.items ≡ known.old.items }
    {
        if self.asked.is_some() {
            return;
        }
        if !self.out.has_room() {
            return;
        }
        match self.items.front() {
            Some(Item::Call(request)) => {
                let partition = request.partition;
                self.pass.learn(place, known, partition);
            }
            _ => {}
        }
    }

    /// Lets these passes see what the session has seen of the partition of a call that came to its outcome by this step.
    fn settle(&mut self, place: &Workplace<T>, known: &mut Vec<Pass<T>>, step: CallStep)
        requires may { MaySettle place.now step self.old }
        requires known { ArePassesOf place.now.cells.items known.old.items }
        ensures settled { HasSettled T.key_of place.now step self.old self.new known.old.items known.new.items }
        ensures same { self.new ≡ record self.old { pass = self.new.pass } }
        ensures same_conn { self.new.pass.conn ≡ self.old.pass.conn }
        ensures same_member { self.new.pass.member ≡ self.old.pass.member }
        ensures kept_known { ArePassesOf place.now.cells.items known.new.items }
    {
        match step {
            CallStep::Ended(call) | CallStep::Made(call) => {
                self.pass.teach(place, known, call.partition);
            }
            CallStep::Nothing | CallStep::Begun(_) => {}
        }
    }
}
