ghost use Rattle.std.specs.Prelude.{◌≡◌, nat_lt, if◌then◌else◌};
ghost use Rattle.partition_protocol.specs.Node.{no_pair};
ghost use Rattle.partition_protocol.specs.History.{begins_anew};

use partition_protocol::Pair;
use partition_table::Row;
use std::marker::Model;

/// The pair with which the primary of a version began it, and the reset of that version's row.
#[derive(Clone, Copy)]
pub struct Base {
    pub version: u32,
    pub reset: u32,
    pub base_version: u32,
    pub base_count: u32,
}

impl Model for Base {
    ghost use Rattle.partition_protocol.specs.History.{Base};

    ghost Value = { Base };

    ghost view = { λ b. record { version = b.version; reset = b.reset; pair = record { version = b.base_version; count = b.base_count } } };

    ghost inverse = { λ b. record { version = b.version; reset = b.reset; base_version = b.pair.version; base_count = b.pair.count } };
}

impl Base {
    /// With what the primary of a row begins its version, which had contents of that name: with none where the row was
    /// reopened since.
    pub(crate) fn begun(row: &Row, had: Pair) -> Base
        ensures { result ≡ record {
          version = row.now.version;
          reset = row.now.reset;
          pair = if nat_lt had.version row.now.reset then no_pair else had;
        } }
    {
        let begins = if had.version < row.reset {
            Pair::none()
        } else {
            had
        };
        Base {
            version: row.version,
            reset: row.reset,
            base_version: begins.version,
            base_count: begins.count,
        }
    }

    /// The pair with which its version began.
    pub(crate) fn pair(self) -> Pair
        ensures { result ≡ self.pair }
    {
        Pair {
            version: self.base_version,
            count: self.base_count,
        }
    }

    /// Whether its version began with no contents, since a reopening.
    pub(crate) fn begins_anew(self) -> bool
        ensures { result ≡ begins_anew self }
    {
        self.reset != 0 && self.base_version == 0 && self.base_count == 0
    }
}
