//! A crew: threads that each have work, and one that runs beside them.
ghost use Rattle.std.specs.Prelude.{◌≡◌, true, All, Bool};
ghost use Rattle.thread_crew.specs.Crews.{HaveThreads};

use crate::task::{Lent, Task, take_back};
use std::alloc::Global;
use std::snapshot::Snapshot;
use std::sync::Wait;
use std::thread::{self, Promise, PromisedHandle, Scope, Threads};

/// Work that each thread of a crew does with a worker of its own.
trait Labor<T>: Sync {
    ghost can_labor: { Self → T → Type 0 };

    ghost labors: { Self → T → Type 0 };

    fn labor(&self, worker: T)
        requires { can_labor self.now worker }
        ensures { labors self.now worker };
}

/// The calls of a closure.
#[derive(Drop)]
struct Calls<'a, W> {
    f: &'a W,
}

impl<'a, T, W: Fn(T) + Sync> Labor<T> for Calls<'a, W> {
    ghost can_labor = { λ s worker. W.pre s.f.now worker };

    ghost labors = { λ s worker. W.post s.f.now worker tt };

    fn labor(&self, worker: T) {
        (self.f)(worker);
    }
}

/// That a thread does the work with a worker.
#[derive(Drop)]
pub(crate) struct Works<T, L> {
    worker: Snapshot<T>,
    work: Snapshot<L>,
}

impl<T, L: Labor<T>> Promise<()> for Works<T, L> {
    ghost kept_by = { λ p r. L.labors p.work.value p.worker.value };
}

/// Starts a thread for each worker, in their order, until one can't be made. Gives those that were made.
fn start_all<'s, E, T: Send + Drop + 's, L: Labor<T>>(
    alloc: Global,
    scope: &Scope<'s, E>,
    work: &'s L,
    workers: Vec<T>,
) -> Vec<PromisedHandle<(), Works<T, L>>>
    requires { All (λ worker. L.can_labor work.now worker) workers.items }
    ensures { HaveThreads work.now workers.items result.items }
{
    let Ok(mut made) = Vec::with_capacity(alloc, workers.len()) else {
        return Vec::new(alloc);
    };
    for worker in workers {
        let promise = Works {
            worker: Snapshot::of(&worker),
            work: Snapshot::of(work),
        };
        let job = move || -> ()
            requires { L.can_labor work.now worker }
            ensures { L.labors work.entry.now worker }
        { work.labor(worker) };
        let Ok(thread) = scope.spawn_with(promise, job) else {
            break;
        };
        let Ok(()) = made.push(thread) else {
            break;
        };
    }
    made
}

/// Waits for each thread to end.
fn join_all<R: Threads, T, L: Labor<T>>(rt: &R, made: Vec<PromisedHandle<(), Works<T, L>>>)
    ensures { All (λ thread. L.labors thread.promise.work.value thread.promise.worker.value) made.items }
{
    for thread in made {
        thread.join(rt);
    }
}

/// Runs the task beside the crew. Tells whether the crew was whole, and what the task gave. A whole crew has done its work.
fn run_beside<R: Threads + Wait, T: Send + Drop, L: Labor<T>, S: Task + Drop>(
    rt: &R,
    alloc: Global,
    workers: Vec<T>,
    work: &L,
    task: S,
) -> (bool, S::Output)
    requires work { All (λ worker. L.can_labor work.now worker) workers.items }
    requires task { S.can_run task }
    ensures task { S.run_gives task result.0 result.1 }
    ensures worked { result.0 ≡ true → All (λ worker. L.labors work.now worker) workers.items }
{
    thread::scope(
        thread::scope_env(),
        rt,
        move |scope| -> (bool, S::Output)
            requires work { All (λ worker. L.can_labor work.now worker) workers.items }
            requires task { S.can_run task }
            ensures task { S.run_gives task result.0 result.1 }
            ensures worked { result.0 ≡ true → All (λ worker. L.labors work.entry.now worker) workers.items }
        {
            let asked = workers.len();
            let made = start_all(alloc, scope, work, workers);
            let is_whole = made.len() == asked;
            let output = task.run(is_whole);
            join_all(rt, made);
            (is_whole, output)
        },
    )
}

/// Calls `work` with each worker, each on a thread of its own, and `front` on this one, once, with whether
/// each of them got a thread. Where one didn't, or memory is wanting, those behind it have none either and aren't called. It comes
/// back once all have: so `front` has to end the others' work. Where `front` was told that each has a thread, `work` has been called
/// with each and has come back.
pub fn with_crew<R: Threads + Wait, T: Send + Drop, W: Fn(T) + Sync, X, F: FnMut(bool) -> X>(
    rt: &R,
    alloc: Global,
    workers: Vec<T>,
    work: &W,
    front: &mut F,
) -> (bool, X)
    requires work { All (λ worker. W.pre work.now worker) workers.items }
    requires front { (is_whole : Bool) → F.pre front.old is_whole }
    ensures front { F.step front.old result.0 result.1 front.new }
    ensures worked { result.0 ≡ true → All (λ worker. W.post work.now worker tt) workers.items }
{
    let (is_whole, (front, x)) = run_beside(
        rt,
        alloc,
        workers,
        &Calls { f: work },
        Lent { f: front },
    );
    take_back(front);
    (is_whole, x)
}
