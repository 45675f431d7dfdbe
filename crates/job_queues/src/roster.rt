//! For which cells a queue is made.
ghost use Rattle.std.specs.Prelude.{List};
ghost use base.Fml.{ftrue};
ghost use base.Stored.{coded_list};
ghost use Rattle.atomic_table.specs.Seated.{TableId, table_id_coded};

use std::collections::LinkedList;
use std::marker::{Model, PhantomData};

/// The tables of cells. No value of it is made.
pub struct Tables {
    marker: PhantomData<u8>,
    pub ghost ids: { List TableId } by { coded_list table_id_coded },
}

impl Model for Tables {
    ghost also_owns = { λ _. ftrue };
}

/// The cells that a queue is made for: their tables, and what they were made for. No value of it is made.
pub struct Roster<P> {
    tables: Tables,
    plans: LinkedList<P>,
}

impl<P> Model for Roster<P> {
    ghost use Rattle.job_queues.specs.Roster.{Roster};

    ghost Value = { Roster P };

    ghost view = { λ r. record { tables = r.tables.ids; plans = r.plans } };
}

/// What a pass of a queue knows. No value of it is made.
pub enum QueueSide<P> {
    Opening,
    Ready(Roster<P>),
    Spent,
}
