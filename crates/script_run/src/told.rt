//! What a line of a script told.

ghost use Rattle.std.specs.Prelude.{◌≡◌};
ghost use Rattle.script_run.specs.LineTold.{told_of, by_grid};

use grid_base::Bytes;
use grid_client::Heard;
use line_told::Ready;
use std::alloc::Global;

/// What a near client did at a line.
#[derive(Debug, Drop)]
pub enum NearOutcome {
    /// Its look-up hit: this value is kept for the key, which may be null. It sent nothing.
    Hit(Option<Bytes>),
    /// Its look-up missed. What its get brought the grid tells.
    Miss,
    /// It was handed so many bytes of its connection's output.
    Fed { bytes: usize },
}

/// What a line of a script told, in order.
#[derive(Debug, Drop)]
pub struct ScriptTold {
    /// What a near client did, if the line is of one that did something. Else the grid tells what the line came to.
    pub near: Option<NearOutcome>,
    /// What it made of the messages that it was handed.
    pub heard: Vec<Heard>,
    pub grid: Ready,
}

impl ScriptTold {
    /// What the grid told alone. Takes no memory.
    pub(crate) fn by_grid(alloc: Global, grid: Ready) -> ScriptTold
        ensures { told_of result ≡ by_grid grid.told.items grid.printed.items }
    {
        ScriptTold {
            near: None,
            heard: Vec::new(alloc),
            grid,
        }
    }
}
