//! The words of `grid serve`: how a server is set up.
//!
//! | Option | From | To | Default | What it sets |
//! |---|---|---|---|---|
//! | `--members` | 1 | 8 | 3 | how many members the grid has |
//! | `--backups` | 0 | 6 | 1 | how many backups a partition has at most |
//! | `--capacity` | 0 | 2,147,483,647 | 1000 | how many values a queue may have |
//! | `--port` | 1 | 65,528 | 5701 | the port of member 0; member m listens at this port plus m |
//! | `--stay` | | | | the server goes on once its control script has ended |
//!
//! Each may stand once, in any order. A number is decimal, maybe with leading zeros, and stands as `--port 80` or
//! `--port=80`. `-h` and `--help` ask for help.
#![tactic(auto)]

mod command;
mod options;
mod refusal;

pub use command::help_of_serve;
pub use options::{ServeOptions, read_options, why_refused};
pub use refusal::OptionsRefused;
