ghost use Rattle.std.specs.Prelude.{◌≡◌};
ghost use Rattle.std.specs.Option.{option_copied};

use grid_base::Bytes;

/// What a client asks a member to tell it from now on. `correlation` is the request's, and each event repeats it.
#[derive(Debug, Drop)]
pub enum Registration {
    /// How the values of a map's entries change.
    Entries {
        correlation: i64,
        /// The map's name, a text.
        name: Bytes,
        /// Whether the events carry the new and the old value.
        with_value: bool,
    },
    /// Which entries of a map a near cache is to give up.
    Invalidations {
        correlation: i64,
        /// The map's name, a text.
        name: Bytes,
    },
    /// Which rows the member adopts.
    Rows {
        correlation: i64,
    },
}

impl Registration {
    ghost use Rattle.event_codecs.specs.SpelledRegistrations.{correlation_of, map_of};

    pub fn correlation(&self) -> i64
        ensures { result ≡ correlation_of self.now }
    {
        match self {
            Registration::Entries { correlation, .. }
            | Registration::Invalidations { correlation, .. }
            | Registration::Rows { correlation } => *correlation,
        }
    }

    /// The name of the map that it is about, if it is about one.
    pub fn map(&self) -> Option<&Bytes>
        ensures { option_copied result ≡ map_of self.now }
    {
        match self {
            Registration::Entries { name, .. } | Registration::Invalidations { name, .. } => Some(
                name,
            ),
            Registration::Rows { .. } => None,
        }
    }
}
