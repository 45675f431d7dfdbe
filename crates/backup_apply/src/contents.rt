ghost use Rattle.std.specs.Prelude.{◌≡◌, option_copied, OnOk, OnErr};
ghost use Rattle.backup_apply.specs.Contents.{Does, IsOfEffect, IsPossible};

use grid_base::{Bytes, Memory, Shelf};
use std::alloc::Global;

/// What a member's contents do.
#[derive(Clone, Copy)]
pub enum ContentsChange<'a> {
    /// They stay as they are.
    Keep,
    /// They become those for which the bytes stand.
    Install(&'a Bytes),
    /// The effect with these bytes is applied to them.
    Apply(&'a Bytes),
}

impl<'a> ContentsChange<'a> {
    /// What the contents do where a call has this effect, or none.
    pub fn of_effect(effect: Option<&'a Bytes>) -> ContentsChange<'a>
        ensures { IsOfEffect (option_copied effect.entry) result }
    {
        match effect {
            None => ContentsChange::Keep,
            Some(bytes) => ContentsChange::Apply(bytes),
        }
    }

    /// Does this to a shelf. Costs an installation or an application of an effect, and else nothing. Want of memory
    /// changes nothing.
    pub fn perform<S: Shelf>(self, alloc: Global, shelf: &mut S) -> Result<(), Memory>
        requires { IsPossible S.model.within S.model.applied S.model.snapshot_of self (S.model.state shelf.old) }
        ensures ok { OnOk result (Does S.model.within S.model.applied S.model.snapshot_of self.entry (S.model.state shelf.old) (S.model.state shelf.new)) }
        ensures err { OnErr result (S.model.state shelf.new ≡ S.model.state shelf.old) }
    {
        match self {
            ContentsChange::Keep => Ok(()),
            ContentsChange::Install(snapshot) => {
                *shelf = S::install(alloc, snapshot)?;
                Ok(())
            }
            ContentsChange::Apply(effect) => shelf.apply(alloc, effect),
        }
    }
}
