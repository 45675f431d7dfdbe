//! The places of a session's passes.
ghost use Rattle.std.specs.Prelude.{◌≡◌, ◌<◌, Some, None, vec_len, slice_get, slice_set};
ghost use Rattle.hand_cell.specs.Told.{Told};

use hand_cell::{Pass, Served};

/// Takes the pass that is at a place.
pub(crate) fn take_pass<T: Served>(passes: &mut Vec<Option<Pass<T>>>, place: usize) -> Pass<T>
    requires { (pass : Told T.Event) × (slice_get passes.old.items place ≡ Some (Some pass)) }
    ensures taken { slice_get passes.old.items place ≡ Some (Some result) }
    ensures left { passes.new.items ≡ slice_set passes.old.items place None }
{
    passes[place].take().unwrap()
}

/// Puts a pass at a place.
pub(crate) fn put_pass<T: Served>(passes: &mut Vec<Option<Pass<T>>>, place: usize, pass: Pass<T>)
    requires { place < vec_len passes.old }
    ensures { passes.new.items ≡ slice_set passes.old.items place (Some pass) }
{
    passes[place] = Some(pass);
}
