//! The rule of a cell's table.
use crate::stands::Stands;
use crate::view::{Held, View};
use atomic_table::TableRule;
use std::marker::PhantomData;

/// There is a history. The value stands for it while no pass has the turn, and each pass has seen a beginning of it.
pub struct TurnRule<T> {
    value: PhantomData<T>,
}

impl<T: Stands> TableRule<Option<Held<T>>, View<T::Event>, T::Plan> for TurnRule<T> {
    ghost use Rattle.hand_cell.specs.Rule.{IsKept, first_view};

    ghost holds = { λ plan. IsKept T.stands T.key_of plan };

    ghost first = { λ _. first_view };
}
