//! Who is told how far a sample has come.
use call_engine::GridShelf;
use grid_base::{Executed, Memory, Moment, Request};
use live_grid::Environment;
use sample_run::{LineWatch, Unwatched};
use std::alloc::Global;

/// Is told how far a sample has come, by any of its threads. What it makes of that changes nothing of what is printed.
pub trait Watch: LineWatch + Sync {
    /// One more of the counted calls was run.
    fn ran_call(&self);
}

impl Watch for Unwatched {
    fn ran_call(&self) {}
}

/// An environment for calls, of each of which the watch is told.
#[derive(Drop)]
pub(crate) struct Watched<'w, N, W> {
    pub(crate) env: N,
    pub(crate) watch: &'w W,
}

impl<'w, N: Environment, W: Watch> Environment for Watched<'w, N, W> {
    type Held = N::Held;

    ghost settings = { λ watched. N.settings watched.env };

    fn execute(
        &self,
        alloc: Global,
        shelf: &GridShelf,
        call: &Request,
        now: Moment,
    ) -> Result<Executed, Memory> {
        self.watch.ran_call();
        self.env.execute(alloc, shelf, call, now)
    }
}
