ghost use Rattle.std.specs.Prelude.{◌≡◌, ◌==◌, IfOk, IfErr, is_ok};
ghost use Rattle.partition_protocol.specs.Service.{on_frozen};
ghost use Rattle.migration.specs.Steps.{drained_step, freezing_step, service_at, step_of};

use crate::drained::Drained;
use crate::replacing::{Replacing, Underway};

/// The step of [`Freezing`].
#[derive(Debug, Drop)]
pub struct FreezingStep;

impl Underway for FreezingStep {}

/// The source, which is primary, was told to execute no more, and hasn't said yet that it is drained.
pub type Freezing = Replacing<FreezingStep>;

impl Freezing {
    /// Takes a word that the primary of that version is drained. One of another version leaves the move as it was.
    pub fn drained(self, version: u32) -> Result<Drained, Freezing>
        ensures exact { is_ok result ≡ (self.row.version == version) }
        ensures ok { IfOk result (λ drained. drained ≡ self) }
        ensures step { let after = (on_frozen version (service_at (freezing_step self))).service in
            IfOk result (λ drained. drained_step drained ≡ step_of after) }
        ensures err { IfErr result (λ freezing. freezing ≡ self) }
    {
        if self.row().version == version {
            Ok(self.at_step())
        } else {
            Err(self)
        }
    }
}
