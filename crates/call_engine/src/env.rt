use entry_processors::{Form, Registry};
use std::marker::Model;

/// What the objects of a grid go by, all its life long.
#[derive(Drop)]
pub struct GridEnv {
    /// The processors that calls on maps may name.
    pub registry: Registry,
    /// How many values a queue may have.
    pub capacity: u32,
}

/// What an environment means to calls, as plain data that threads may share. Contracts see the `Settings`.
#[derive(Drop)]
pub struct GridSettings {
    /// The forms of the processors, in the order of their numbers.
    pub forms: Vec<Form>,
    /// How many values a queue may have.
    pub capacity: u32,
}

impl Model for GridSettings {
    ghost use Rattle.std.specs.Prelude.{map};
    ghost use Rattle.entry_processors.specs.Forms.{form_of};
    ghost use Rattle.call_engine.specs.Calls.{Settings};

    ghost Value = { Settings };

    ghost view = { λ settings. record { forms = map form_of settings.forms.items; capacity = settings.capacity } };
}
