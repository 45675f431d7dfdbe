//! What is said, as the bytes of its message.
ghost use Rattle.std.specs.Prelude.{◌≡◌, ◌≢◌, ◌↔◌, ◌<◌, ◌≤◌, ◌^◌, ◌++◌, ◌∷◌, [], pos, length, map, All, IsTrue, IfOk, OnOk, IsErrOf};
ghost use Rattle.std.specs.Str.{IsUtf8};
ghost use Rattle.std.specs.Int.{w64};
ghost use Rattle.std.specs.Int.RustNames.{FitsSigned};
ghost use Rattle.frame_codec.specs.Laws.{spelled};
ghost use Rattle.fixed_fields.specs.Spelled.{with_parts};
ghost use Rattle.session_core.specs.Places.{partition_of_key};
ghost use Rattle.compose_words.specs.Sayings.{message_of, bytes_of, first_flags, IsPlaced, IsNamed, IsKeyed, FitMessage};
ghost use Rattle.compose_words.specs.Sessions.{Say};
ghost use Rattle.compose_words.specs.Layout.{kind_of, partition_of as stated_in, fields_of, parts_of, payload_of, frames_with, inner_frame, Appended, IsShort, NumbersFit};

use crate::calls::{
    map_kind, map_numbers_fit, map_parts, one_part, queue_kind, queue_parts, write_fields,
};
use crate::refusal::SayRefused;
use crate::saying::{Listening, Saying};
use client_codecs::{AUTHENTICATION_KIND, PING_KIND};
use fixed_fields::{write_int32, write_int64, write_uuid};
use frame_codec::flags::{FINAL, UNFRAGMENTED};
use frame_codec::{MAX_PAYLOAD, write_payload};
use grid_base::{Bytes, Memory};
use murmur_partition::{key_hash, partition_of};
use simdutf8::basic::from_utf8;
use std::alloc::Global;

/// What stands for the partition where a message states none.
const NO_PARTITION: i32 = -1;

/// The version of a client's serialization.
const VERSION: u8 = 1;

/// How many bytes of a key stand before its content.
const KEY_HEADER_LENGTH: usize = 8;

/// The most bytes of a message.
const MAX_LENGTH: usize = 2_097_152;

/// The most frames that stand behind the first of a message.
const MAX_PARTS: usize = 4_095;

fn kind_of(saying: &Saying) -> u32
    ensures { result ≡ kind_of saying.now }
{
    match saying {
        Saying::Hello(_) => AUTHENTICATION_KIND,
        Saying::Ping => PING_KIND,
        Saying::OnMap(call) => map_kind(call),
        Saying::OnQueue { call, .. } => queue_kind(call),
        Saying::WaitOnMap { wait, .. } => wait.kind(),
        Saying::WaitOnQueue { wait, .. } => wait.kind(),
        Saying::Listen(listening) => listening.kind(),
    }
}

/// The partition of a key.
fn partition_of_key(key: &Bytes) -> i32
    requires { 8 ≤ length key.now }
    ensures { result ≡ pos (partition_of_key key.now) }
{
    let hash = key_hash(key.as_slice()).unwrap();
    i32::from(partition_of(hash))
}

/// The partition that the message states.
fn stated_partition(saying: &Saying) -> i32
    requires { IsKeyed saying.now }
    ensures { result ≡ stated_in saying.now }
{
    match saying {
        Saying::Hello(_) | Saying::Ping | Saying::Listen(_) => NO_PARTITION,
        Saying::OnMap(call) => partition_of_key(call.key()),
        Saying::WaitOnMap { wait, .. } => partition_of_key(wait.key()),
        Saying::OnQueue { partition, .. } | Saying::WaitOnQueue { partition, .. } => {
            i32::from(*partition)
        }
    }
}

/// Appends the fields behind the head of the message.
fn write_behind_head(saying: &Saying, out: &mut Vec<u8>) -> Result<(), Memory>
    ensures { OnOk result (out.new.items ≡ out.old.items ++ fields_of saying.now) }
{
    match saying {
        Saying::Hello(authentication) => {
            write_uuid(authentication.client, out)?;
            out.push(VERSION)?;
            Ok(())
        }
        Saying::OnMap(call) => write_fields(call, out),
        Saying::WaitOnMap { wait, timeout } => wait.write_fields(*timeout, out),
        Saying::WaitOnQueue { timeout, .. } => write_int64(*timeout, out),
        Saying::Listen(listening) => listening.write_fields(out),
        Saying::Ping | Saying::OnQueue { .. } => Ok(()),
    }
}

/// The first payload of the message.
fn payload_of(alloc: Global, correlation: i64, saying: &Saying) -> Result<Vec<u8>, Memory>
    requires { IsKeyed saying.now }
    ensures { IfOk result (λ payload. payload.items ≡ payload_of correlation saying.now) }
{
    let mut payload = Vec::new(alloc);
    payload.extend_from_slice(&kind_of(saying).to_le_bytes())?;
    write_int64(correlation, &mut payload)?;
    write_int32(stated_partition(saying), &mut payload)?;
    write_behind_head(saying, &mut payload)?;
    Ok(payload)
}

/// What the frames behind the first hold.
fn parts_of(alloc: Global, saying: &Saying) -> Result<Vec<Bytes>, Memory>
    ensures { IfOk result (λ parts. parts.items ≡ parts_of saying.now) }
{
    match saying {
        Saying::Hello(authentication) => one_part(alloc, &authentication.name),
        Saying::Ping => Ok(Vec::new(alloc)),
        Saying::OnMap(call) => map_parts(alloc, call),
        Saying::OnQueue { call, .. } => queue_parts(alloc, call),
        Saying::WaitOnMap { wait, .. } => wait.parts(alloc),
        Saying::WaitOnQueue { wait, .. } => wait.parts(alloc),
        Saying::Listen(listening) => listening.parts(alloc),
    }
}

/// Appends a frame with these flags and this payload.
fn write_part(flags: u16, part: &[u8], out: &mut Vec<u8>) -> Result<(), SayRefused>
    ensures frame { OnOk result (Appended out.old.items out.new.items (record { flags = flags; payload = part.now } ∷ [])) }
    ensures long { IsErrOf result SayRefused.Long → ¬ (IsShort part.now) }
    ensures named { result ≢ Err SayRefused.Name }
    ensures keyed { result ≢ Err SayRefused.Key }
{
    if part.len() > MAX_PAYLOAD {
        return Err(SayRefused::Long);
    }
    write_payload(flags, part, out)?;
    Ok(())
}

/// Appends frames without flags.
fn write_inner_parts(parts: &[Bytes], out: &mut Vec<u8>) -> Result<(), SayRefused>
    ensures frames { OnOk result (Appended out.old.items out.new.items (map inner_frame parts.now)) }
    ensures long { IsErrOf result SayRefused.Long → ¬ (All IsShort parts.now) }
    ensures named { result ≢ Err SayRefused.Name }
    ensures keyed { result ≢ Err SayRefused.Key }
{
    for part in parts {
        write_part(0, part.as_slice(), out)?;
    }
    Ok(())
}

/// Appends a frame for each part, of which the last ends the message.
fn write_parts(parts: &[Bytes], out: &mut Vec<u8>) -> Result<(), SayRefused>
    ensures frames { OnOk result (Appended out.old.items out.new.items (with_parts parts.now [])) }
    ensures long { IsErrOf result SayRefused.Long → ¬ (All IsShort parts.now) }
    ensures named { result ≢ Err SayRefused.Name }
    ensures keyed { result ≢ Err SayRefused.Key }
{
    match parts.split_last() {
        Some((last, others)) => {
            write_inner_parts(others, out)?;
            write_part(FINAL, last.as_slice(), out)
        }
        None => Ok(()),
    }
}

/// The flags of a message's first frame.
fn first_flags(parts: &[Bytes]) -> u16
    ensures { result ≡ first_flags parts.now }
{
    if parts.is_empty() {
        UNFRAGMENTED | FINAL
    } else {
        UNFRAGMENTED
    }
}

/// The message of a first payload and the parts behind it.
fn laid_out(alloc: Global, payload: &[u8], parts: &[Bytes]) -> Result<Bytes, SayRefused>
    ensures bytes { IfOk result (λ bytes. bytes ≡ spelled (frames_with payload.now parts.now)) }
    ensures fit { OnOk result (FitMessage (frames_with payload.now parts.now)) }
    ensures long { IsErrOf result SayRefused.Long → ¬ (FitMessage (frames_with payload.now parts.now)) }
    ensures named { result ≢ Err SayRefused.Name }
    ensures keyed { result ≢ Err SayRefused.Key }
{
    let mut bytes = Vec::new(alloc);
    write_part(first_flags(parts), payload, &mut bytes)?;
    write_parts(parts, &mut bytes)?;
    let bytes = Bytes::from_vec(bytes);
    if bytes.len() > MAX_LENGTH || parts.len() > MAX_PARTS {
        return Err(SayRefused::Long);
    }
    Ok(bytes)
}

fn is_text(name: &Bytes) -> bool
    ensures { IsTrue result ↔ IsUtf8 name.now }
{
    from_utf8(name.as_slice()).is_ok()
}

fn is_named(saying: &Saying) -> bool
    ensures { IsTrue result ↔ IsNamed saying.now }
{
    match saying {
        Saying::Hello(authentication) => is_text(&authentication.name),
        Saying::Ping => true,
        Saying::OnMap(call) => is_text(call.map()),
        Saying::OnQueue { call, .. } => is_text(call.queue()),
        Saying::WaitOnMap { wait, .. } => is_text(wait.map()),
        Saying::WaitOnQueue { wait, .. } => is_text(wait.queue()),
        Saying::Listen(Listening::Entries { name, .. } | Listening::Invalidations { name }) => {
            is_text(name)
        }
        Saying::Listen(Listening::Rows) => true,
    }
}

fn is_keyed(saying: &Saying) -> bool
    ensures { IsTrue result ↔ IsKeyed saying.now }
{
    match saying {
        Saying::OnMap(call) => call.key().len() >= KEY_HEADER_LENGTH,
        Saying::WaitOnMap { wait, .. } => wait.key().len() >= KEY_HEADER_LENGTH,
        Saying::Hello(_)
        | Saying::Ping
        | Saying::OnQueue { .. }
        | Saying::WaitOnQueue { .. }
        | Saying::Listen(_) => true,
    }
}

/// Refuses a name that isn't UTF-8, and else a key that is too short.
fn check(saying: &Saying) -> Result<(), SayRefused>
    ensures ok { OnOk result (IsNamed saying.now × IsKeyed saying.now) }
    ensures name { IsErrOf result SayRefused.Name ↔ ¬ (IsNamed saying.now) }
    ensures key { IsErrOf result SayRefused.Key ↔ (IsNamed saying.now × ¬ (IsKeyed saying.now)) }
    ensures short { result ≢ Err SayRefused.Long }
{
    if !is_named(saying) {
        return Err(SayRefused::Name);
    }
    if !is_keyed(saying) {
        return Err(SayRefused::Key);
    }
    Ok(())
}

fn number_fits(_number: u128)
    ensures { _number < 2 ^ 128 }
{}

fn timeout_fits(_timeout: i64)
    ensures { FitsSigned w64 _timeout }
{}

/// The numbers of a saying are those of their types. Nothing runs here.
fn numbers_fit(saying: &Saying)
    ensures { NumbersFit saying.now }
{
    match saying {
        Saying::Hello(authentication) => {
            if let Some(number) = authentication.client {
                number_fits(number);
            }
        }
        Saying::OnMap(call) => map_numbers_fit(call),
        Saying::WaitOnMap { wait, timeout } => wait.numbers_fit(*timeout),
        Saying::WaitOnQueue { timeout, .. } => timeout_fits(*timeout),
        Saying::Ping | Saying::OnQueue { .. } | Saying::Listen(_) => {}
    }
}

/// The bytes that say this, as one unfragmented message with that correlation; before them no prefix. Copies each name,
/// key and value.
///
/// `Name` where a name isn't UTF-8; else `Key` where a key has fewer than eight bytes; else `Long` where a part, or the
/// whole, is longer than a message may have it.
pub fn say(alloc: Global, correlation: i64, saying: &Saying) -> Result<Bytes, SayRefused>
    requires { IsPlaced saying.now }
    ensures bytes { IfOk result (λ bytes. bytes ≡ bytes_of correlation saying.now) }
    // Wherever they come on a connection, its session makes of them exactly the item that this says.
    ensures heard { IfOk result (λ bytes. Say correlation saying.now bytes) }
    ensures fit { OnOk result (FitMessage (message_of correlation saying.now).frames) }
    ensures long { IsErrOf result SayRefused.Long → ¬ (FitMessage (message_of correlation saying.now).frames) }
    ensures name { IsErrOf result SayRefused.Name ↔ ¬ (IsNamed saying.now) }
    ensures key { IsErrOf result SayRefused.Key ↔ (IsNamed saying.now × ¬ (IsKeyed saying.now)) }
{
    numbers_fit(saying);
    check(saying)?;
    let payload = payload_of(alloc, correlation, saying)?;
    let parts = parts_of(alloc, saying)?;
    laid_out(alloc, payload.as_slice(), parts.as_slice())
}
