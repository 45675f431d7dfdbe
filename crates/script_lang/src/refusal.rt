ghost use Rattle.std.specs.Prelude.{◌≡◌};
ghost use Rattle.script_lang.specs.Lines.{why_text};
ghost use Rattle.script_lang.specs.declared.refusal.LineRefused.TheVariants.{Memory};

use std::alloc::{AllocError, AllocFailed};
use thiserror::Error;

/// Why a line is refused: the first of these that holds of it.
#[derive(Clone, Copy, Debug, PartialEq, Eq, Error)]
pub enum LineWhy {
    #[error("no line begins with this word")]
    Word,
    #[error("a grid's line is the first one, and only that")]
    NoGrid,
    #[error("the line has too few or too many words")]
    Count,
    #[error("a word is no number in its range")]
    Number,
    #[error("a word is no list of bytes in hexadecimal")]
    Hex,
    #[error("the script stopped before a line `end`")]
    NoEnd,
}

impl LineWhy {
    /// The word that a transcript has for it.
    pub fn word(self) -> &'static str
        ensures { result.now ≡ why_text self }
    {
        match self {
            LineWhy::Word => "word",
            LineWhy::NoGrid => "nogrid",
            LineWhy::Count => "count",
            LineWhy::Number => "number",
            LineWhy::Hex => "hex",
            LineWhy::NoEnd => "noend",
        }
    }
}

/// Why a line was not read.
#[derive(Clone, Copy, Debug, PartialEq, Eq, Error)]
pub enum LineRefused {
    #[error("{0}")]
    Why(LineWhy),
    #[error("out of memory")]
    Memory,
}

impl From<AllocError> for LineRefused {
    ghost from_gives = { λ _ refused. refused ≡ Memory };

    fn from(_error: AllocError) -> LineRefused {
        LineRefused::Memory
    }
}

impl<T: Drop> From<AllocFailed<T>> for LineRefused {
    ghost from_gives = { λ _ refused. refused ≡ Memory };

    fn from(_error: AllocFailed<T>) -> LineRefused {
        LineRefused::Memory
    }
}
