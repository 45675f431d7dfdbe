//! What the messages that a client hears say.

ghost use Rattle.std.specs.Prelude.{◌≡◌, option_map, option_copied, IfOk, OnOk, ◌++◌};
ghost use Rattle.frame_codec.specs.Frames.{frame_bytes};
ghost use Rattle.frame_codec.specs.Laws.{spelled};
ghost use Rattle.grid_client.specs.Messages.{head_of, code_of, value_of, bytes_of, accepted_of};
ghost use Rattle.grid_client.specs.Hearing.{is_welcome};

use client_codecs::AUTHENTICATION_KIND;
use fixed_fields::{Cursor, byte_at, int32_at, int64_at, kind_of, uuid_at};
use frame_codec::{Frame, MAX_PAYLOAD, write_payload};
use grid_base::{Bytes, Memory};
use message_frames::Message;
use request_codecs::AUTHENTICATION_CORRELATION;
use std::alloc::{AllocError, Global};

/// Where a first payload has the correlation.
const CORRELATION_OFFSET: usize = 4;

/// Where an error has its code.
const CODE_OFFSET: usize = 13;

/// Where the answer to an authentication has its status.
const STATUS_OFFSET: usize = 13;

/// Where it has the member's UUID.
const UUID_OFFSET: usize = 14;

/// The message type of an error.
const ERROR_KIND: u32 = 0;

/// The status of a client that is accepted.
const ACCEPTED: u8 = 0;

/// A message's type and correlation.
#[derive(Clone, Copy, Debug)]
pub(crate) struct Head {
    pub kind: u32,
    pub correlation: i64,
}

impl Head {
    pub fn of(message: &Message) -> Option<Head>
        ensures { result ≡ head_of message.now }
    {
        let first = message.frames.as_slice().first()?;
        Some(Head {
            kind: kind_of(first)?,
            correlation: int64_at(first, CORRELATION_OFFSET).ok()?,
        })
    }

    /// Whether it is that of the answer to the authentication.
    pub fn is_welcome(self) -> bool
        ensures { result ≡ is_welcome self }
    {
        self.kind == AUTHENTICATION_KIND + 1 && self.correlation == AUTHENTICATION_CORRELATION
    }
}

/// The code of an error.
pub(crate) fn code_of(kind: u32, message: &Message) -> Option<i32>
    ensures { result ≡ code_of kind message.now }
{
    if kind != ERROR_KIND {
        return None;
    }
    let first = message.frames.as_slice().first()?;
    int32_at(first, CODE_OFFSET).ok()
}

/// The value that the answer to a get brings, if it can be read.
pub(crate) fn value_of(message: &Message) -> Option<Option<&Bytes>>
    ensures { option_map option_copied result ≡ value_of message.now }
{
    let (_, frames) = message.frames.as_slice().split_first()?;
    Cursor::new(frames).nullable().ok()
}

/// The UUID that a member told which accepted the client.
pub(crate) fn accepted_of(message: &Message) -> Option<Option<u128>>
    ensures { result ≡ accepted_of message.now }
{
    let first = message.frames.as_slice().first()?;
    if byte_at(first, STATUS_OFFSET).ok()? != ACCEPTED {
        return None;
    }
    uuid_at(first, UUID_OFFSET).ok()
}

/// Appends a frame as it came. One that is longer than a frame can be is answered as want of memory.
fn write_frame(frame: &Frame, out: &mut Vec<u8>) -> Result<(), Memory>
    ensures { OnOk result (out.new.items ≡ out.old.items ++ frame_bytes frame.now) }
{
    let payload = frame.payload.as_slice();
    if payload.len() > MAX_PAYLOAD {
        return Err(AllocError);
    }
    write_payload(frame.flags, payload, out)
}

/// Frames as they came, one after the other.
fn frames_bytes(alloc: Global, frames: &[Frame]) -> Result<Bytes, Memory>
    ensures { IfOk result (λ bytes. bytes ≡ spelled frames.now) }
{
    let mut bytes = Vec::new(alloc);
    for frame in frames {
        write_frame(frame, &mut bytes)?;
    }
    Ok(Bytes::from_vec(bytes))
}

/// The frames of a message as they came, one after the other, at the cost of their bytes.
pub(crate) fn bytes_of(alloc: Global, message: &Message) -> Result<Bytes, Memory>
    ensures { IfOk result (λ bytes. bytes ≡ bytes_of message.now) }
{
    frames_bytes(alloc, message.frames.as_slice())
}
