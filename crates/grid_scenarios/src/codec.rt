//! Reads a connection's bytes in pieces of one size, for `bench/codec.sh` to time.

use grid_base::Memory;
use message_frames::MessageReader;
use std::alloc::Global;

/// How many messages a stream completes, which comes in pieces of that size.
pub(crate) fn count_messages(alloc: Global, stream: &[u8], size: usize) -> Result<u64, Memory> {
    let mut reader = MessageReader::new(alloc, true);
    let mut count = 0u64;
    for piece in stream.chunks(size.max(1)) {
        let fed = reader.feed(alloc, piece)?;
        count = count.saturating_add(fed.messages.len() as u64);
    }
    Ok(count)
}
