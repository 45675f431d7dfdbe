//! Whether there is room for threads.
ghost use Rattle.std.specs.Prelude.{◌≡◌, All, map, IfSome};
ghost use Rattle.thread_crew.specs.Rooms.{thread_of, HasGivenItsNumber, AreNumbered, HaveEnded};

use ghost_list::GhostList;
use std::alloc::Global;
use std::snapshot::Snapshot;
use std::sync::{Mutex, Wait};
use std::thread::{self, Promise, PromisedHandle, Scope, Threads};

/// That a thread gives its own number.
#[derive(Drop)]
pub(crate) struct GivesNumber {
    number: usize,
}

impl Promise<usize> for GivesNumber {
    ghost kept_by = { λ p given. given ≡ p.number };
}

type Numbered = PromisedHandle<usize, GivesNumber>;

/// A thread that was made, and what it gave as it ended.
#[derive(Drop)]
pub(crate) struct Ended {
    thread: Snapshot<Numbered>,
    gave: usize,
}

/// So many threads were there together a while ago. Contracts see each thread that was made, by its number, and that it has ended.
#[derive(Drop)]
pub struct Room {
    pub(crate) threads: usize,
    ended: GhostList<Ended>,
    ghost made: { HaveEnded threads ended.items },
}

/// Starts threads with the numbers from 0 on, below this one, until one can't be made. Gives those that were made, which wait at the
/// door. Where memory is wanting none is made.
fn start_each<'s, R: Wait + Sync, E>(
    rt: &'s R,
    alloc: Global,
    scope: &Scope<'s, E>,
    door: &'s Mutex<()>,
    threads: usize,
) -> Vec<Numbered>
    ensures { AreNumbered result.items }
{
    let Ok(mut made) = Vec::with_capacity(alloc, threads) else {
        return Vec::new(alloc);
    };
    for number in 0..threads {
        let waiting = move || -> usize
            ensures { result ≡ number }
        {
            drop(door.lock(rt));
            number
        };
        let Ok(thread) = scope.spawn_with(GivesNumber { number }, waiting) else {
            break;
        };
        made.push_reserved(thread);
    }
    made
}

/// Waits for each thread to end, and notes it with what it gave.
fn join_each<R: Threads>(rt: &R, made: Vec<Numbered>) -> GhostList<Ended>
    ensures all { map thread_of result.items ≡ made.items }
    ensures gave { All HasGivenItsNumber result.items }
{
    let mut ended = GhostList::new();
    for thread in made {
        let was = Snapshot::of(&thread);
        let gave = thread.join(rt);
        ended = ended.with(&Ended { thread: was, gave });
    }
    ended
}

/// Room for so many threads beside this one, if there is. It asks for them, and they stay until all were asked for. Each was made once,
/// and has ended when it returns. Where memory is wanting none was made.
pub fn room_for<R: Threads + Wait + Sync>(rt: &R, alloc: Global, threads: usize) -> Option<Room>
    ensures threads { IfSome result (λ room. room.threads ≡ threads) }
    ensures made { IfSome result (λ room. HaveEnded threads room.ended.items) }
{
    let door = Mutex::new(());
    let all_asked = door.lock(rt);
    let at_door = &door;
    thread::scope(
        thread::scope_env(),
        rt,
        move |scope| -> Option<Room>
            ensures threads { IfSome result (λ room. room.threads ≡ threads) }
            ensures made { IfSome result (λ room. HaveEnded threads room.ended.items) }
        {
            let made = start_each(rt, alloc, scope, at_door, threads);
            drop(all_asked);
            let is_whole = made.len() == threads;
            let ended = join_each(rt, made);
            if is_whole {
                Some(Room { threads, ended })
            } else {
                None
            }
        },
    )
}
