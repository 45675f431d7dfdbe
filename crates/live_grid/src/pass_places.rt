//! The places of a grid's passes.
ghost use Rattle.std.specs.Prelude.{◌≡◌, ◌≤◌, ◌<◌, Some, vec_len, vec_capacity, slice_get};
ghost use Rattle.std.specs.List.{remove, insert};

use crate::world::LiveWorld;
use hand_cell::Pass;

/// Takes the pass that is at a place out. A pass has no bytes, so nothing is moved.
pub(crate) fn take_pass(passes: &mut Vec<Pass<LiveWorld>>, place: usize) -> Pass<LiveWorld>
    requires { place < vec_len passes.old }
    ensures taken { slice_get passes.old.items place ≡ Some result }
    ensures left { passes.new.items ≡ remove passes.old.items place }
    ensures long { place ≤ vec_len passes.new }
    ensures room { vec_len passes.new < vec_capacity passes.new }
{
    passes.remove(place)
}

/// Puts a pass back at the place where one was taken out.
pub(crate) fn put_pass(passes: &mut Vec<Pass<LiveWorld>>, place: usize, pass: Pass<LiveWorld>)
    requires long { place ≤ vec_len passes.old }
    requires room { vec_len passes.old < vec_capacity passes.old }
    ensures { passes.new.items ≡ insert passes.old.items place pass }
{
    match passes.insert(place, pass) {
        Ok(()) => {}
        Err(_) => unreachable!(),
    }
}
