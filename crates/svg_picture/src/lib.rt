//! A picture as SVG: lines, arrows, bars, crosses and texts, each told by what it is. Its bytes are one well-formed element.
#![tactic(auto)]

mod content;
mod escaping;
mod picture;
mod words;

pub use picture::{Picture, Point};
pub use words::{Anchor, Look};
