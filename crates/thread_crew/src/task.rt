//! Closures that are lent to a scope.
ghost use Rattle.std.specs.Prelude.{◌≡◌, Bool};

/// Work for the thread at hand, which is told whether the others that it runs beside could be made.
///
/// `scope` says nothing of a `&mut` that its closure holds, so that closure holds a value of a type parameter.
pub(crate) trait Task {
    type Output;

    ghost can_run: { Self → Type 0 };

    ghost run_gives: { Self → Bool → Self.Output → Type 0 };

    fn run(self, is_whole: bool) -> Self::Output
        requires { can_run self }
        ensures { run_gives self is_whole result };
}

/// A closure that is given back once it was called.
#[derive(Drop)]
pub(crate) struct Lent<'a, F> {
    pub(crate) f: &'a mut F,
}

impl<'a, F: FnMut(bool) -> X, X> Task for Lent<'a, F> {
    type Output = (&'a mut F, X);

    ghost can_run = { λ t. (is_whole : Bool) → F.pre t.f.now is_whole };

    ghost run_gives = { λ t is_whole r. (r.0.ghost_name ≡ t.f.ghost_name) × F.step t.f.now is_whole r.1 r.0.now };

    fn run(self, is_whole: bool) -> (&'a mut F, X) {
        let Lent { f } = self;
        let x = f(is_whole);
        (f, x)
    }
}

/// Does nothing, but this use of a reference that was given back ties it to the one that was lent.
pub(crate) fn take_back<T>(x: &mut T)
    ensures { x.new ≡ x.old }
{}
