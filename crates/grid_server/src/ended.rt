//! How a command ended.
ghost use Rattle.std.specs.Prelude.{◌≡◌, [], None};

use grid_cli::Status;
use live_grid::{GridPass, LiveGrid};
use live_server::Closed;
use loop_journal::Journal;

/// How a command ended, with the live grid that it made, if it made one, and the grid's first pass. Where it served clients, with
/// the journal of what was done for them, and with its closing as that was seen, unless its doors had a fault.
#[derive(Drop)]
pub struct Ended<D> {
    pub status: Status,
    pub grid: Option<(LiveGrid, GridPass)>,
    pub journal: Journal,
    pub closed: Option<Closed<D>>,
}

impl<D> Ended<D> {
    /// A command ended that made no grid.
    pub(crate) fn without_grid(status: Status) -> Ended<D>
        ensures status { result.status ≡ status }
        ensures grid { result.grid ≡ None }
        ensures journal { result.journal ≡ [] }
        ensures closed { result.closed ≡ None }
    {
        Ended {
            status,
            grid: None,
            journal: Journal::new(),
            closed: None,
        }
    }
}
