//! What a server's thread does between two rounds.
ghost use Rattle.std.specs.Prelude.{◌≡◌};
ghost use Rattle.grid_edge.specs.Faults.{HasCause};

use crate::due::Due;
use crate::rounds::Went;
use grid_edge::{DoorFault, Doors};
use std::thread;

/// After how many looks in a row that found nothing ready the thread sleeps, though connections are due.
const MOST_LOOKS: usize = 200;

/// How long it sleeps at most, in milliseconds.
const LONGEST_SLEEP: u32 = 1000;

/// What the thread does after a round.
#[derive(Clone, Copy, Debug)]
pub(crate) enum Pause {
    /// It sleeps, since nobody is due.
    Sleep,
    /// It goes on at once, since something moved.
    None,
    /// It lets others run, since calls are under way with them, of so many connections at most.
    Yield { due: usize },
}

impl Pause {
    /// After a round that came to this, by which these are due. A connection may have come.
    pub fn after(due: &Due, went: Went, came: bool) -> Pause {
        if came {
            return Pause::None;
        }
        if due.is_empty() {
            return Pause::Sleep;
        }
        if went.moved {
            return Pause::None;
        }
        Pause::Yield { due: went.due }
    }
}

/// Pauses after a round. Where others are let run it sleeps after a few such rounds in a row. `idle` is how many looks in a row
/// found nothing ready before; gives the number for the next round.
///
/// Each round has a wait, though it be of no time: doors may tell only there what has come to streams that weren't ready.
/// Where it fails all connections are due, since no doors tell of them.
pub(crate) fn rest<D: Doors>(doors: &mut D, pause: Pause, idle: usize) -> Result<usize, DoorFault>
    ensures book { D.book doors.new ≡ D.book doors.old }
    ensures looks { D.empty_looks doors.new ≡ D.empty_looks doors.old }
    ensures cause { HasCause (D.faults doors.old) (D.faults doors.new) result }
{
    match pause {
        Pause::Yield { due } if idle < MOST_LOOKS => {
            thread::yield_now();
            doors.wait(0)?;
            Ok(idle.saturating_add(due).saturating_add(1))
        }
        Pause::None => {
            doors.wait(0)?;
            Ok(0)
        }
        Pause::Sleep | Pause::Yield { .. } => {
            doors.wait(LONGEST_SLEEP)?;
            Ok(0)
        }
    }
}
