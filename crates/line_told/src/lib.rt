//! What a line of a script told, as data, and how it is printed.
//!
//! Each line gives a list: its outcome first, and then what followed, in order: messages that were appended to outputs of
//! connections, each with the call that it answers or refuses, a close with its fault, the steps of a plan and how each
//! ended. Lines that print histories or what is kept write that text beside their list as they go, so that it isn't held
//! twice.
//!
//! `specs/` has the words (`Words`, `Outcomes`), the text of each thing told and the one law of printing (`Printing`), and
//! an outcome of the protocol as the code tells it (`Happenings`).
#![tactic(auto)]

mod followed;
mod outcomes;
mod print;
mod told;
mod words;

pub use followed::{push_appended, push_close, push_ended, push_published, push_step};
pub use outcomes::{push_nothing, push_ok, push_outcome, push_words};
pub use print::{push_ready, push_told};
pub use told::{Appended, LineOutcome, Ready, Told};
pub use words::{
    push_decimal, push_hex, push_hex_word, push_number, push_optional, push_text, push_value,
    push_word,
};
