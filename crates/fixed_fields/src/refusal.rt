ghost use Rattle.std.specs.Prelude.{◌≡◌};
ghost use Rattle.grid_base.specs.declared.refusal.CallRefused.TheVariants.{BadCall};

use grid_base::CallRefused;
use thiserror::Error;

/// Why a field can't be read.
#[derive(Clone, Copy, Debug, PartialEq, Eq, Error)]
pub enum FieldRefused {
    #[error("the payload ends before the field")]
    Short,
    #[error("the frame that is wanted is not next")]
    NoFrame,
    #[error("the text is not UTF-8")]
    NotUtf8,
}

/// A request with a field that can't be read is a bad call.
impl From<FieldRefused> for CallRefused {
    ghost from_gives = { λ _ refused. refused ≡ BadCall };

    fn from(_why: FieldRefused) -> CallRefused {
        CallRefused::BadCall
    }
}
