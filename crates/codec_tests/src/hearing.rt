//! The message that bytes are, and the text of what is read of it.

use message_frames::{Message, MessageReader};
use std::alloc::Global;
use std::fmt::Debug;
use std::test::Fail;

/// The last message of these bytes, which have no prefix.
pub(crate) fn message(alloc: Global, bytes: &[u8]) -> Result<Message, Fail> {
    let mut reader = MessageReader::new(alloc, false);
    let mut fed = reader.feed(alloc, bytes)?;
    let message = fed.messages.pop().ok_or("no message")?;
    Ok(message)
}

/// What a value is told as.
pub(crate) fn text<T: Debug + Drop>(alloc: Global, value: T) -> Result<String, Fail> {
    Ok(format!(in alloc; "{value:?}")?)
}
