use crate::stands::Stands;
use crate::view::{Held, View};
use atomic_table::Seat;
use std::marker::Model;

pub(crate) type Place<T: Stands> = Seat<Option<Held<T>>, View<T::Event>>;

/// What one thread knows of one cell, and its leave to enter it. It has no bytes.
///
/// Contracts see the cell, the beginning of its history that was seen, and the names. A pass that is dropped takes its
/// names with it.
#[derive(Drop)]
pub struct Pass<T: Stands> {
    pub(crate) place: Place<T>,
}

impl<T: Stands> Model for Pass<T> {
    ghost use Rattle.hand_cell.specs.Told.{Told};
    ghost use Rattle.hand_cell.specs.Inside.{told, IsIdle};

    ghost Value = { Told T.Event };

    ghost view = { λ p. told p.place };

    ghost invariant = { λ p. IsIdle p.place };
}
