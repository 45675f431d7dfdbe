//! Who is told how far a run has come.

/// Is told how far the run of a script has come. What it makes of that changes nothing of the run.
pub trait LineWatch {
    /// The script's first lines were run, so many of them.
    fn ran_lines(&self, lines: u32);
}

/// Nobody, who is told nothing.
#[derive(Clone, Copy, Debug)]
pub struct Unwatched;

impl LineWatch for Unwatched {
    fn ran_lines(&self, _lines: u32) {}
}
