//! How passes are split and joined, and learn of each other.
ghost use Rattle.std.specs.Prelude.{◌≡◌, []};
ghost use Rattle.hand_cell.specs.Names.{left_names, given_names, MayGive, both_names};
ghost use Rattle.hand_cell.specs.Rule.{view_of, named_view, idle_view, longer_of, IsSamePass, Extends};
ghost use Rattle.hand_cell.specs.Inside.{IsIdle};
ghost use Rattle.hand_cell.specs.Told.{with_names, having_seen};
ghost use Rattle.hand_cell.specs.Calls.{IsPassOf, HasLearned};

use crate::cell::Cell;
use crate::names::Names;
use crate::pass::{Pass, Place};
use crate::stands::Stands;
use crate::steps::{HandOver, Merge, NamesAre, Refresh};
use crate::tickets::SERVED;
use std::marker::Brand;

impl<T: Stands> Cell<T> {
    /// Cuts a pass in two. The new one has seen as much, and gets the names, which the other loses.
    ///
    /// It waits for nobody, and takes no memory; so does `join`.
    pub fn split(&self, pass: &mut Pass<T>, names: Names) -> Pass<T>
        requires cell { IsPassOf self.now pass.old }
        requires may { MayGive names pass.old.names }
        ensures kept { pass.new ≡ with_names pass.old (left_names names pass.old.names) }
        ensures given { result ≡ with_names pass.old (given_names names pass.old.names) }
    {
        Pass {
            place: self.split_as::<Brand>(&mut pass.place, names),
        }
    }

    fn split_as<H: NamesAre>(&self, place: &mut Place<T>, names: Names) -> Place<T>
        requires cell { place.old.table_id ≡ self.now.table.shared.table_id }
        requires idle { IsIdle place.old }
        requires names { H.names ≡ names }
        requires may { MayGive names (view_of place.old).names }
        ensures cell { IsSamePass place.old place.new × (result.table_id ≡ place.old.table_id) }
        ensures kept { place.new.me ≡ (named_view (view_of place.old) (left_names names (view_of place.old).names), []) }
        ensures given { result.me ≡ (idle_view (view_of place.old).seen (given_names names (view_of place.old).names), []) }
    {
        self.table.shared.split_seat::<HandOver<H>>(place)
    }

    /// Takes another pass in. The pass has then both's names, and has seen the longer of what the two had seen, which
    /// the other begins. None of what the longer has more has a name of the pass that hadn't seen it.
    pub fn join(&self, pass: &mut Pass<T>, other: Pass<T>)
        requires cell { IsPassOf self.now pass.old × IsPassOf self.now other }
        ensures joined { pass.new ≡ with_names (having_seen pass.old (longer_of pass.old.seen other.seen))
            (both_names pass.old.names other.names) }
        ensures extends { Extends T.key_of pass.old.seen pass.old.names other.seen other.names }
    {
        let Pass { place } = other;
        self.merge(&mut pass.place, place);
    }

    /// Lets a pass see all that another pass of its cell has seen. Each keeps its names, and the other has seen what it
    /// had. The pass has then seen the longer of what the two had seen, which the other begins.
    ///
    /// It waits for nobody, and takes no memory. It costs three loads of the cell's counters and writes nothing.
    pub fn learn(&self, pass: &mut Pass<T>, from: &mut Pass<T>)
        requires cell { IsPassOf self.now pass.old × IsPassOf self.now from.old }
        ensures learned { HasLearned T.key_of pass.old from.old pass.new }
        ensures same { from.new ≡ from.old }
    {
        let part = self.split(from, Names::Nothing);
        self.join(pass, part);
    }

    fn merge(&self, place: &mut Place<T>, other: Place<T>)
        requires cell { place.old.table_id ≡ self.now.table.shared.table_id }
        requires other_cell { other.table_id ≡ self.now.table.shared.table_id }
        requires idle { IsIdle place.old }
        requires other_idle { IsIdle other }
        ensures cell { IsSamePass place.old place.new }
        ensures joined { place.new.me ≡ (
          idle_view (longer_of (view_of place.old).seen (view_of other).seen)
              (both_names (view_of place.old).names (view_of other).names),
          [],
        ) }
        ensures extends { Extends T.key_of (view_of place.old).seen (view_of place.old).names (view_of other).seen
            (view_of other).names }
    {
        self.table.shared.join_seat::<Merge>(place, other);
        self.table.shared.load::<Refresh<T>>(place, SERVED);
    }
}
