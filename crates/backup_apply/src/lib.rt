//! How a backup takes whole contents, effects and bridges: what it says, and what its contents do.
#![tactic(auto)]

mod contents;
mod steps;

pub use contents::ContentsChange;
pub use steps::{BackupStep, take_bridge, take_effect, take_sync};
