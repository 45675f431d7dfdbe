//! What a message has of a registration: its type, whether values are wanted, and the map's name.
ghost use Rattle.std.specs.Prelude.{◌≡◌, ◌++◌, IfOk, OnOk};
ghost use Rattle.compose_words.specs.Listenings.{kind_of_listening, listening_fields, listening_parts};

use crate::calls::one_part;
use crate::saying::Listening;
use event_codecs::{CLUSTER_VIEW_KIND, ENTRY_LISTENER_KIND, INVALIDATION_LISTENER_KIND};
use grid_base::{Bytes, Memory};
use std::alloc::Global;

impl Listening {
    pub(crate) fn kind(&self) -> u32
        ensures { result ≡ kind_of_listening self.now }
    {
        match self {
            Listening::Entries { .. } => ENTRY_LISTENER_KIND,
            Listening::Invalidations { .. } => INVALIDATION_LISTENER_KIND,
            Listening::Rows => CLUSTER_VIEW_KIND,
        }
    }

    /// What the frames behind the first hold: a copy of the map's name, where there is one.
    pub(crate) fn parts(&self, alloc: Global) -> Result<Vec<Bytes>, Memory>
        ensures { IfOk result (λ parts. parts.items ≡ listening_parts self.now) }
    {
        match self {
            Listening::Entries { name, .. } | Listening::Invalidations { name } => {
                one_part(alloc, name)
            }
            Listening::Rows => Ok(Vec::new(alloc)),
        }
    }

    /// Appends the fields: whether values are wanted, where some may be.
    pub(crate) fn write_fields(&self, out: &mut Vec<u8>) -> Result<(), Memory>
        ensures { OnOk result (out.new.items ≡ out.old.items ++ listening_fields self.now) }
    {
        match self {
            Listening::Entries { with_value, .. } => {
                out.push(u8::from(*with_value))?;
                Ok(())
            }
            Listening::Invalidations { .. } | Listening::Rows => Ok(()),
        }
    }
}
