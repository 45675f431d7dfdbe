//! What a member knows of a partition beside its contents, and what it keeps as primary: the answers that wait for the
//! backups, what each backup acknowledged, and the newest effects; and what a backup that lags is sent to catch up.
#![tactic(auto)]

mod acks;
mod adoption;
mod answer;
mod answers;
mod backups;
mod changes;
mod facts;
mod room;
mod view;

pub use acks::{Acknowledged, Acks};
pub use answer::CallAnswer;
pub use answers::Answers;
pub use facts::Facts;
pub use room::Room;
pub use view::{CatchUp, View};
