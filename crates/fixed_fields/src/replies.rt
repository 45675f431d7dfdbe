ghost use Rattle.std.specs.Prelude.{◌≡◌, ◌++◌, ◌≤◌, length, pos, IfOk, IfSome, OnOk, option_copied};
ghost use Rattle.grid_base.specs.Limits.{FitsFrame};
ghost use Rattle.fixed_fields.specs.Responses.{response_of, nullable_frame, error_bytes};
ghost use Rattle.fixed_fields.specs.Replies.{reply_bytes, AnswerFits};

use crate::responses::{response_head, write_error, write_single, write_void};
use frame_codec::flags::{FINAL, NULL, UNFRAGMENTED};
use frame_codec::write_payload;
use grid_base::errors::{KEY_LOCKED, NOT_OWNER, UNKNOWN_PROCESSOR};
use grid_base::{Answer, Bytes, Memory};
use std::alloc::Global;

/// The reply to a request of that type which has these fixed fields, at most a number's four bytes.
fn write_fields(alloc: Global, kind: u32, correlation: i64, fields: &[u8]) -> Result<Bytes, Memory>
    requires { length fields.now ≤ 4 }
    ensures { IfOk result (λ reply. reply ≡ response_of kind correlation fields.now) }
{
    let mut payload = response_head(alloc, kind, correlation)?;
    payload.extend_from_slice(fields)?;
    write_single(alloc, payload.as_slice())
}

/// Appends a value, or null, as a last frame.
fn write_nullable(value: Option<&Bytes>, out: &mut Vec<u8>) -> Result<(), Memory>
    requires { IfSome (option_copied value) FitsFrame }
    ensures { OnOk result (out.new.items ≡ out.old.items ++ nullable_frame (option_copied value.entry)) }
{
    match value {
        Some(value) => write_payload(FINAL, value.as_slice(), out),
        None => write_payload(FINAL | NULL, &[], out),
    }
}

/// The reply of a value, or null, to a request of that type. Copies the value once.
fn write_value_reply(
    alloc: Global,
    kind: u32,
    correlation: i64,
    value: Option<&Bytes>,
) -> Result<Bytes, Memory>
    requires { IfSome (option_copied value) FitsFrame }
    ensures { IfOk result (λ reply. reply ≡ reply_bytes kind correlation (Answer.Maybe (option_copied value.entry))) }
{
    let head = response_head(alloc, kind, correlation)?;
    let mut reply = Vec::new(alloc);
    write_payload(UNFRAGMENTED, head.as_slice(), &mut reply)?;
    write_nullable(value, &mut reply)?;
    Ok(Bytes::from_vec(reply))
}

/// The error with which an object answers.
fn write_object_error(alloc: Global, correlation: i64, code: i32) -> Result<Bytes, Memory>
    ensures { IfOk result (λ error. error ≡ error_bytes correlation code (pos 0) (pos 0)) }
{
    write_error(alloc, correlation, code, 0, 0)
}

/// The reply to a request of that type, whole: its type is the request's plus 1, and it repeats the
/// request's correlation. Costs its bytes, and copies a value once.
pub fn write_reply(
    alloc: Global,
    kind: u32,
    correlation: i64,
    answer: &Answer,
) -> Result<Bytes, Memory>
    requires { AnswerFits answer.now }
    ensures { IfOk result (λ reply. reply ≡ reply_bytes kind correlation answer.now) }
{
    match answer {
        Answer::Void => write_void(alloc, kind, correlation),
        Answer::Flag(flag) => write_fields(alloc, kind, correlation, &[u8::from(*flag)]),
        Answer::Number(n) => write_fields(alloc, kind, correlation, &n.to_le_bytes()),
        Answer::Maybe(value) => write_value_reply(alloc, kind, correlation, value.as_ref()),
        Answer::KeyLocked => write_object_error(alloc, correlation, KEY_LOCKED),
        Answer::NotOwner => write_object_error(alloc, correlation, NOT_OWNER),
        Answer::UnknownProcessor => write_object_error(alloc, correlation, UNKNOWN_PROCESSOR),
    }
}
