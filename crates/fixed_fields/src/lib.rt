//! What a message holds, read in place: numbers and UUIDs of a payload, and data, texts, nulls and
//! structures of its frames. And a member's answers, as bytes.
#![tactic(auto)]

mod cursor;
mod fields;
mod refusal;
mod replies;
mod requests;
mod responses;
mod structures;
mod writers;

pub use cursor::Cursor;
pub use fields::{byte_at, int32_at, int64_at, uuid_at};
pub use refusal::FieldRefused;
pub use replies::write_reply;
pub use requests::kind_of;
pub use responses::{response_head, write_error, write_single, write_void};
pub use writers::{write_int32, write_int64, write_uuid};
