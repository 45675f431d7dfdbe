//! Frames, the parts of a message on a connection, read from bytes and written as bytes.
#![tactic(auto)]

pub mod flags;
mod frames;
pub mod laws;
mod malformed;
mod marks;
mod partial;
mod reader;

pub use frames::{
    Frame, HEADER_LENGTH, MAX_FRAME_LENGTH, MAX_PAYLOAD, PlacedFrame, write_frame, write_payload,
};
pub use malformed::{Malformed, Why};
pub use marks::FrameMark;
pub use reader::{FedFrames, FrameReader};
