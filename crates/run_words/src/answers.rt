//! A member's answers to its clients in words.

use crate::events::push_event;
use client_codecs::{AUTHENTICATION_KIND, PING_KIND};
use client_words::{push_hex, push_nullable};
use event_codecs::{
    CLUSTER_VIEW_KIND, ENTRY_LISTENER_KIND, INVALIDATION_LISTENER_KIND, read_event,
};
use fixed_fields::{Cursor, byte_at, int32_at, int64_at, kind_of, uuid_at};
use frame_codec::Frame;
use grid_base::errors::{
    BAD_CALL, KEY_LOCKED, MIGRATING, NOT_AUTHENTICATED, NOT_OWNER, PARTITION_LOST,
    UNKNOWN_PROCESSOR, UNKNOWN_TYPE, WANT_OF_MEMORY, WRONG_PARTITION, WRONG_TARGET,
};
use grid_base::{CallRefused, Memory};
use map_codecs::{
    CONTAINS_KEY_KIND, DELETE_KIND, EXECUTE_ON_KEY_KIND, FORCE_UNLOCK_KIND, GET_KIND,
    IS_LOCKED_KIND, LOCK_WAIT_KIND, PUT_IF_ABSENT_KIND, PUT_KIND, PUT_MAX_IDLE_KIND, PUT_WAIT_KIND,
    REMOVE_IF_SAME_KIND, REMOVE_KIND, REPLACE_IF_SAME_KIND, REPLACE_KIND, SET_KIND,
    SET_MAX_IDLE_KIND, TRY_LOCK_KIND, UNLOCK_KIND,
};
use message_frames::{Message, MessageReader};
use queue_codecs::{
    CLEAR_KIND, OFFER_KIND, OFFER_WAIT_KIND, PEEK_KIND, POLL_KIND, POLL_WAIT_KIND,
    REMAINING_CAPACITY_KIND, SIZE_KIND,
};
use std::alloc::{AllocError, Global};

/// The type of an error. That of each other answer is one more than the type of what it answers.
const ERROR: u32 = 0;

/// Where the first payload of an answer has the correlation.
const CORRELATION: usize = 4;

/// Where an answer's fields begin.
const FIELDS: usize = 13;

/// What a member sends on a connection, in words.
#[derive(Debug, Drop)]
pub enum Output {
    /// The answer of the message that has this correlation, and whether it wasn't refused.
    Answer {
        correlation: i64,
        executed: bool,
        words: String,
    },
    /// What who listens is told, or bytes that nothing reads.
    Unasked {
        words: String,
    },
}

/// What an answer has beside its head.
#[derive(Clone, Copy)]
enum Shape {
    Error,
    Authentication,
    Void,
    Flag,
    Number,
    Data,
    Unknown,
}

/// The shape of the answer of a message of this type.
fn shape_of_answer(kind: u32) -> Shape {
    match kind {
        AUTHENTICATION_KIND => Shape::Authentication,
        PING_KIND
        | CLUSTER_VIEW_KIND
        | ENTRY_LISTENER_KIND
        | INVALIDATION_LISTENER_KIND
        | DELETE_KIND
        | SET_KIND
        | UNLOCK_KIND
        | FORCE_UNLOCK_KIND
        | SET_MAX_IDLE_KIND
        | CLEAR_KIND => Shape::Void,
        LOCK_WAIT_KIND
        | OFFER_WAIT_KIND
        | REPLACE_IF_SAME_KIND
        | CONTAINS_KEY_KIND
        | REMOVE_IF_SAME_KIND
        | TRY_LOCK_KIND
        | IS_LOCKED_KIND
        | OFFER_KIND => Shape::Flag,
        SIZE_KIND | REMAINING_CAPACITY_KIND => Shape::Number,
        PUT_KIND
        | GET_KIND
        | REMOVE_KIND
        | REPLACE_KIND
        | PUT_IF_ABSENT_KIND
        | EXECUTE_ON_KEY_KIND
        | PUT_MAX_IDLE_KIND
        | PUT_WAIT_KIND
        | POLL_WAIT_KIND
        | POLL_KIND
        | PEEK_KIND => Shape::Data,
        _ => Shape::Unknown,
    }
}

/// The shape of a message that begins with this frame.
fn shape_of(first: &Frame) -> Shape {
    match kind_of(first) {
        Some(ERROR) => Shape::Error,
        Some(kind) => shape_of_answer(kind - 1),
        None => Shape::Unknown,
    }
}

/// What the number of an error says.
fn error_words(code: i32) -> &'static str {
    match code {
        NOT_AUTHENTICATED => "no client is known on the connection",
        UNKNOWN_TYPE => "no message has this type",
        BAD_CALL => "the message can't be read",
        WRONG_PARTITION => "another partition is the key's",
        PARTITION_LOST => "the partition is lost",
        WRONG_TARGET => "the member isn't primary",
        MIGRATING => "the member gives the partition up",
        WANT_OF_MEMORY => "memory was wanting",
        KEY_LOCKED => "another owner has locked the key",
        NOT_OWNER => "the caller doesn't hold the lock",
        UNKNOWN_PROCESSOR => "there is no such processor",
        _ => "for a cause that has no words",
    }
}

/// Appends what an error says: its number, its words and what it brings.
fn push_error(out: &mut String, code: i32, one: i32, two: i32) -> Result<(), Memory> {
    let words = error_words(code);
    match code {
        KEY_LOCKED | NOT_OWNER | UNKNOWN_PROCESSOR => write!(
            out,
            "answered: error {code}, {words}"
        ),
        WRONG_PARTITION => {
            write!(
                out,
                "refused with {code}: {words}, {two} where {one} was stated"
            )
        }
        PARTITION_LOST | WRONG_TARGET | MIGRATING => {
            let version = one.cast_unsigned();
            write!(out, "refused with {code}: {words} by row {version}")
        }
        _ => write!(out, "refused with {code}: {words}"),
    }
}

/// Appends what a message that is an error says.
fn push_error_message(out: &mut String, first: &Frame) -> Result<(), Memory> {
    let code = int32_at(first, FIELDS).unwrap_or(0);
    let one = int32_at(first, FIELDS + 4).unwrap_or(0);
    let two = int32_at(first, FIELDS + 8).unwrap_or(0);
    push_error(out, code, one, two)
}

/// Appends whether an authentication was accepted, and by whom.
fn push_authentication(out: &mut String, first: &Frame) -> Result<(), Memory> {
    match (byte_at(first, FIELDS), uuid_at(first, FIELDS + 1)) {
        (Ok(0), Ok(Some(member))) => {
            let member = member.saturating_sub(1);
            write!(out, "answered: accepted by member {member}")
        }
        _ => out.push_str("answered: not accepted"),
    }
}

/// Appends the fields of an answer of that shape.
fn push_fields(
    alloc: Global,
    out: &mut String,
    shape: Shape,
    first: &Frame,
    rest: &[Frame],
) -> Result<(), Memory> {
    match shape {
        Shape::Void => out.push_str("done"),
        Shape::Flag if byte_at(first, FIELDS).unwrap_or(0) == 0 => out.push_str("false"),
        Shape::Flag => out.push_str("true"),
        Shape::Number => {
            let number = int32_at(first, FIELDS).unwrap_or(0).cast_unsigned();
            write!(out, "{number}")
        }
        _ => {
            let value = Cursor::new(rest).nullable().unwrap_or(None);
            push_nullable(alloc, out, value.map(|value| value.as_slice()))
        }
    }
}

/// Appends what a message of a member answers.
fn push_message(
    alloc: Global,
    out: &mut String,
    message: &Message,
    bytes: &[u8],
) -> Result<(), Memory> {
    let Some((first, rest)) = message.frames.as_slice().split_first() else {
        return push_hex(alloc, out, bytes);
    };
    match shape_of(first) {
        Shape::Error => push_error_message(out, first),
        Shape::Authentication => push_authentication(out, first),
        Shape::Unknown => push_hex(alloc, out, bytes),
        shape => {
            out.push_str("answered: ")?;
            push_fields(alloc, out, shape, first, rest)
        }
    }
}

/// The first message of bytes that a member sends, if they have one.
fn message_of(alloc: Global, bytes: &[u8]) -> Result<Option<Message>, Memory> {
    let fed = MessageReader::new(alloc, false).feed(alloc, bytes)?;
    Ok(fed.messages.into_iter().next())
}

/// What the bytes of an answer say. Bytes that nothing reads are shown as they are.
fn answer_words(alloc: Global, bytes: &[u8]) -> Result<String, Memory> {
    let mut words = String::new(alloc);
    match message_of(alloc, bytes)? {
        Some(message) => push_message(alloc, &mut words, &message, bytes)?,
        None => push_hex(alloc, &mut words, bytes)?,
    }
    Ok(words)
}

/// Whether an answer refuses a call that wasn't executed.
fn is_refusal(first: &Frame) -> bool {
    let code = int32_at(first, FIELDS).unwrap_or(0);
    kind_of(first) == Some(ERROR) && !matches!(code, KEY_LOCKED | NOT_OWNER | UNKNOWN_PROCESSOR)
}

/// What a message says that answers another.
fn read_answer(alloc: Global, message: &Message, bytes: &[u8]) -> Result<Output, Memory> {
    let mut words = String::new(alloc);
    push_message(alloc, &mut words, message, bytes)?;
    let (correlation, executed) = match message.frames.as_slice().first() {
        Some(first) => (
            int64_at(first, CORRELATION).unwrap_or(0),
            !is_refusal(first),
        ),
        None => (0, false),
    };
    Ok(Output::Answer {
        correlation,
        executed,
        words,
    })
}

/// What the bytes say that a member sends on a connection. Bytes that nothing reads are shown as they are.
pub fn read_output(alloc: Global, bytes: &[u8]) -> Result<Output, Memory> {
    let mut words = String::new(alloc);
    let Some(message) = message_of(alloc, bytes)? else {
        push_hex(alloc, &mut words, bytes)?;
        return Ok(Output::Unasked { words });
    };
    match read_event(alloc, &message) {
        Ok(event) => {
            push_event(alloc, &mut words, &event)?;
            Ok(Output::Unasked { words })
        }
        Err(CallRefused::Memory) => Err(AllocError),
        Err(_) => read_answer(alloc, &message, bytes),
    }
}

/// What an answer says in a history: its value, behind an `=`.
pub fn push_result(alloc: Global, out: &mut String, bytes: &[u8]) -> Result<(), Memory> {
    let words = answer_words(alloc, bytes)?;
    let value = words
        .as_str()
        .strip_prefix("answered: ")
        .unwrap_or(words.as_str());
    if value == "done" {
        return Ok(());
    }
    out.push_str(" = ")?;
    out.push_str(value)
}
