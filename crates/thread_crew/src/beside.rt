//! Two closures, each on a thread of its own, where there is one more.
ghost use Rattle.std.specs.Prelude.{◌≡◌, Bool};

use crate::task::{Lent, Task, take_back};
use std::snapshot::Snapshot;
use std::sync::Wait;
use std::thread::{self, Promise, SpawnError, Threads};

/// Work that goes to another thread, and gives an `A`.
trait Errand<A> {
    ghost can_go: { Self → Type 0 };

    ghost go_gives: { Self → A → Type 0 };

    fn go(self) -> A
        requires { can_go self }
        ensures { go_gives self result };
}

/// A closure that is given back once it was called.
#[derive(Drop)]
struct Sent<'a, F> {
    f: &'a mut F,
}

impl<'a, F: FnMut() -> A, A> Errand<(&'a mut F, A)> for Sent<'a, F> {
    ghost can_go = { λ s. F.pre s.f.now };

    ghost go_gives = { λ s r. (r.0.ghost_name ≡ s.f.ghost_name) × F.step s.f.now r.1 r.0.now };

    fn go(self) -> (&'a mut F, A) {
        let Sent { f } = self;
        let given = f();
        (f, given)
    }
}

/// That a thread gives what the errand does.
#[derive(Drop)]
struct Gives<S>(Snapshot<S>);

impl<S: Errand<A>, A> Promise<A> for Gives<S> {
    ghost kept_by = { λ p r. S.go_gives p.0.value r };
}

/// Runs the errand on a thread of its own, or last where none can be made, and the task on this one, which is told whether it could.
fn run_both<R: Threads + Wait, S: Errand<A> + Send + Drop, A: Send + Drop, T: Task + Drop>(
    rt: &R,
    errand: S,
    task: T,
) -> (bool, A, T::Output)
    requires errand { S.can_go errand }
    requires task { T.can_run task }
    ensures errand { S.go_gives errand result.1 }
    ensures task { T.run_gives task result.0 result.2 }
{
    thread::scope(
        thread::scope_env(),
        rt,
        move |scope| -> (bool, A, T::Output)
            requires errand { S.can_go errand }
            requires task { T.can_run task }
            ensures errand { S.go_gives errand result.1 }
            ensures task { T.run_gives task result.0 result.2 }
        {
            let promise = Gives(Snapshot::of(&errand));
            let going = move || -> A
                requires { S.can_go errand }
                ensures { S.go_gives errand result }
            { errand.go() };
            match scope.spawn_with(promise, going) {
                Ok(thread) => {
                    let output = task.run(true);
                    (true, thread.join(rt), output)
                }
                Err(SpawnError { value: going }) => {
                    let output = task.run(false);
                    (false, going(), output)
                }
            }
        },
    )
}

/// Calls `apart` on a thread of its own, and `front` on this one, with whether there is such a thread. Where there is none, `apart` is
/// called on this one too, once `front` has come back. Tells which it was, and what both gave.
pub fn join_told<R: Threads + Wait, F: FnMut() -> A + Send, A: Send + Drop, G: FnMut(bool) -> B, B>(
    rt: &R,
    apart: &mut F,
    front: &mut G,
) -> (bool, A, B)
    requires apart { F.pre apart.old }
    requires front { (is_apart : Bool) → G.pre front.old is_apart }
    ensures apart { F.step apart.old result.1 apart.new }
    ensures front { G.step front.old result.0 result.2 front.new }
{
    let (is_apart, (apart, a), (front, b)) = run_both(rt, Sent { f: apart }, Lent { f: front });
    take_back(apart);
    take_back(front);
    (is_apart, a, b)
}
