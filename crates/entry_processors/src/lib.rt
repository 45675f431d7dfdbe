//! Entry processors: rules that make a new value of an entry's value where it is kept, and a registry of them by number.
#![tactic(auto)]

mod form;
pub mod laws;
mod number;
mod numbered;
mod processor;
mod registry;
mod rules;

pub use form::Form;
pub use numbered::Numbered;
pub use processor::{Outcome, Processor};
pub use registry::{ProcessorRefused, Registry};
pub use rules::{Add, AddUpTo, Append, Clear, SetIfGreater};
