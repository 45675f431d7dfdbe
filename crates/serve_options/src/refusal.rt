ghost use Rattle.std.specs.Prelude.{◌≡◌};
ghost use Rattle.clap.specs.Words.{kind_of};
ghost use Rattle.serve_options.specs.declared.refusal.OptionsRefused.TheVariants as OptionsRefused;

use clap::error::ErrorKind;
use grid_base::Memory;
use thiserror::Error;

/// Why words aren't options.
#[derive(Clone, Copy, Debug, PartialEq, Eq, Error)]
pub enum OptionsRefused {
    /// They ask for help before anything in them is wrong.
    #[error("help was asked for")]
    Help,
    #[error("a word is no option, or an option has no value, a wrong one, or stands twice")]
    Usage,
    #[error("out of memory")]
    Memory,
}

impl From<Memory> for OptionsRefused {
    ghost from_gives = { λ _ why. why ≡ OptionsRefused.Memory };

    fn from(_: Memory) -> OptionsRefused {
        OptionsRefused::Memory
    }
}

impl From<clap::Error> for OptionsRefused {
    ghost use Rattle.serve_options.specs.Options.{refused_for};

    ghost from_gives = { λ error why. why ≡ refused_for (kind_of error) };

    fn from(error: clap::Error) -> OptionsRefused {
        match error.kind() {
            ErrorKind::DisplayHelp => OptionsRefused::Help,
            ErrorKind::OutOfMemory => OptionsRefused::Memory,
            _ => OptionsRefused::Usage,
        }
    }
}
