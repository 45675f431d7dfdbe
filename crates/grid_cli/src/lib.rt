//! The program's commands: `grid replay` reads a script and prints its transcript.
#![tactic(auto)]

mod command;
mod laws;
mod print;
mod replay;
mod status;
mod transcriber;

pub use command::replay_command;
pub use laws::{
    every_claim_holds_in_memory, every_message_is_printed,
    every_transcript_that_tells_of_no_skip_has_none,
};
pub use print::{push_limit, push_refused};
pub use script_lang::{Line, LineWhy, read_line};
pub use status::{LimitWhat, Status};
