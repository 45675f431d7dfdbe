ghost use Rattle.std.specs.Prelude.{◌≡◌, IfOk};

use grid_base::{Bytes, Executed, Executes, Memory, Moment, Shelf};
use std::alloc::Global;
use std::marker::Model;

/// A call on a list of bytes. Each answers the bytes before it.
#[derive(Clone, Copy, Debug, PartialEq, Eq)]
pub enum JournalCall {
    /// Puts a byte at the end, which is the call's effect.
    Append(u8),
    /// Only looks.
    Read,
}

/// A shelf that is one list of bytes.
///
/// An effect that is lost, comes twice or comes out of order shows in the list.
#[derive(Drop)]
pub struct Journal {
    bytes: Vec<u8>,
}

impl Model for Journal {
    ghost use Rattle.std.specs.Prelude.{ℕ, List};

    ghost Value = { List ℕ };

    ghost view = { λ journal. journal.bytes.items };
}

impl Journal {
    /// The shelf that has these bytes, at the cost of their length.
    pub fn of(alloc: Global, bytes: &[u8]) -> Result<Journal, Memory>
        ensures { IfOk result (λ journal. journal ≡ bytes.now) }
    {
        Ok(Journal {
            bytes: Vec::from_slice(alloc, bytes)?,
        })
    }

    /// The bytes, those that came first in front.
    pub fn bytes(&self) -> &[u8]
        ensures { result.now ≡ self.now }
    {
        self.bytes.as_slice()
    }
}

impl Shelf for Journal {
    ghost use Rattle.std.specs.Prelude.{ℕ, List, refl};
    ghost use Rattle.test_shelf.specs.Journals.{journal_shelf};
    ghost use Rattle.test_shelf.specs.ShelfLaws.{changes_by_effect, same_without_effect, differs_by_effect, made_by_effect};

    type Plan = ();

    type Call = JournalCall;

    ghost State = { List ℕ };

    ghost model = { journal_shelf };

    fn empty(alloc: Global) -> Self {
        Journal {
            bytes: Vec::new(alloc),
        }
    }

    fn apply(&mut self, _alloc: Global, effect: &Bytes) -> Result<(), Memory> {
        self.bytes.extend_from_slice(effect.as_slice())
    }

    fn snapshot(&self, alloc: Global) -> Result<Bytes, Memory> {
        Bytes::copied_from(alloc, self.bytes())
    }

    fn install(alloc: Global, bytes: &Bytes) -> Result<Self, Memory> {
        Journal::of(alloc, bytes.as_slice())
    }

    ghost begins_empty = { λ plan. refl };

    ghost changes_by_effect = { λ plan bytes call now. changes_by_effect call };

    ghost same_without_effect = { λ plan bytes call now. same_without_effect bytes call };

    ghost differs_by_effect = { λ plan bytes call now. differs_by_effect bytes call };

    ghost made_by_effect = { λ plan bytes call now effect small limits. made_by_effect bytes call effect };

    ghost begins_within = { tt };

    ghost grows_within = { λ plan calls bytes call now limits within. tt };

    ghost widens = { λ m n bytes more within. tt };

    ghost one_spelling = { λ bytes others small also same. same };
}

impl Executes<()> for Journal {
    ghost plan_of = { λ env. env };

    fn execute(
        &self,
        alloc: Global,
        _env: &(),
        call: &JournalCall,
        _now: Moment,
    ) -> Result<Executed, Memory> {
        let effect = match call {
            JournalCall::Append(byte) => Some(Bytes::copied_from(alloc, &[*byte])?),
            JournalCall::Read => None,
        };
        Ok(Executed {
            reply: Bytes::copied_from(alloc, self.bytes())?,
            effect,
            change: None,
        })
    }
}
