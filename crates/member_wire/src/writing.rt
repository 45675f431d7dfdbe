ghost use Rattle.std.specs.Prelude.{◌≡◌, ℕ, ◌+◌, ◌*◌, ◌^◌, ◌<◌, ◌≤◌, ◌∷◌, [], ◌++◌, length, OnOk, IfOk};
ghost use Rattle.std.specs.List.{flat_map};
ghost use Rattle.wire_parts.specs.Parts.{IsByte, IsNumber, number, sized, mark};
ghost use Rattle.member_wire.specs.Kinds.{kind_byte};
ghost use Rattle.member_wire.specs.Spelling.{member_bytes, row_bytes, spelling, LengthsFit};

use crate::kind::Kind;
use crate::message::MemberMessage;
use grid_base::{Bytes, MemberId, Memory};
use partition_table::{Row, RowMember};
use std::alloc::{AllocError, Global};

fn put_number(out: &mut Vec<u8>, n: u32) -> Result<(), Memory>
    ensures { OnOk result (out.new.items ≡ out.old.items ++ number n) }
{
    Ok(out.extend_from_slice(&n.to_le_bytes())?)
}

fn put_sized(out: &mut Vec<u8>, bytes: &[u8]) -> Result<(), Memory>
    requires { length bytes.now < 2 ^ 32 }
    ensures { OnOk result (out.new.items ≡ out.old.items ++ sized bytes.now) }
{
    put_number(out, bytes.len() as u32)?;
    Ok(out.extend_from_slice(bytes)?)
}

fn put_mark(out: &mut Vec<u8>, is: bool) -> Result<(), Memory>
    ensures { OnOk result (out.new.items ≡ out.old.items ++ mark is) }
{
    Ok(out.push(u8::from(is))?)
}

fn put_members(out: &mut Vec<u8>, members: &[RowMember]) -> Result<(), Memory>
    ensures { OnOk result (out.new.items ≡ out.old.items ++ flat_map member_bytes members.now) }
{
    for listed in members {
        out.push(listed.member)?;
        put_mark(out, listed.eligible)?;
    }
    Ok(())
}

fn put_row(out: &mut Vec<u8>, row: &Row) -> Result<(), Memory>
    requires { length row.now.members < 2 ^ 8 }
    ensures { OnOk result (out.new.items ≡ out.old.items ++ row_bytes row.now) }
{
    put_number(out, row.version)?;
    put_number(out, row.reset)?;
    put_mark(out, row.lost)?;
    out.push(row.members.len() as u8)?;
    put_members(out, row.members.as_slice())
}

/// How many bytes a row is spelled by. Of more members than a byte counts no message tells.
fn row_length(row: &Row) -> Result<usize, Memory>
    ensures fits { OnOk result (IsByte (length row.now.members)) }
    ensures bytes { IfOk result (λ n. n ≡ length (row_bytes row.now)) }
    ensures few { IfOk result (λ n. n < 1024) }
{
    let count = row.members.len();
    if count > u8::MAX as usize {
        return Err(AllocError);
    }
    Ok(10 + 2 * count)
}

/// How many bytes contents are spelled by. Longer ones than a length says no message carries.
fn contents_length(contents: &[u8]) -> Result<usize, Memory>
    ensures fits { OnOk result (IsNumber (length contents.now)) }
    ensures bytes { IfOk result (λ n. n ≡ length (sized contents.now)) }
    ensures within { IfOk result (λ n. n < 2 ^ 33) }
{
    let count = contents.len();
    if count > u32::MAX as usize {
        return Err(AllocError);
    }
    Ok(4 + count)
}

/// A message of that kind as it begins, with room for so many bytes.
fn begun(alloc: Global, kind: Kind, room: usize) -> Result<Vec<u8>, Memory>
    ensures { IfOk result (λ out. out.items ≡ kind_byte kind ∷ []) }
{
    let mut out = Vec::with_capacity(alloc, room)?;
    out.push(kind.byte())?;
    Ok(out)
}

/// A row's message, written once into a buffer of its length.
pub(crate) fn row_message(alloc: Global, row: &Row) -> Result<Bytes, Memory>
    ensures spelled { IfOk result (λ bytes. bytes ≡ spelling (MemberMessage.NewRow row.now)) }
    ensures fits { OnOk result (LengthsFit (MemberMessage.NewRow row.now)) }
{
    let mut out = begun(alloc, Kind::NewRow, 1 + row_length(row)?)?;
    put_row(&mut out, row)?;
    Ok(Bytes::from_vec(out))
}

/// A message of whole contents, written once into a buffer of its length.
pub(crate) fn sync_message(
    alloc: Global,
    row: &Row,
    count: u32,
    snapshot: &Bytes,
) -> Result<Bytes, Memory>
    ensures spelled { IfOk result (λ bytes. bytes ≡ spelling (MemberMessage.Sync row.now count snapshot.now)) }
    ensures fits { OnOk result (LengthsFit (MemberMessage.Sync row.now count snapshot.now)) }
{
    let room = 5 + row_length(row)? + contents_length(snapshot.as_slice())?;
    let mut out = begun(alloc, Kind::Sync, room)?;
    put_row(&mut out, row)?;
    put_number(&mut out, count)?;
    put_sized(&mut out, snapshot.as_slice())?;
    Ok(Bytes::from_vec(out))
}

/// An effect's message, written once into a buffer of its length.
pub(crate) fn effect_message(
    alloc: Global,
    version: u32,
    number: u32,
    effect: &Bytes,
) -> Result<Bytes, Memory>
    ensures spelled { IfOk result (λ bytes. bytes ≡ spelling (MemberMessage.Effect version number effect.now)) }
    ensures fits { OnOk result (LengthsFit (MemberMessage.Effect version number effect.now)) }
{
    let room = 9 + contents_length(effect.as_slice())?;
    let mut out = begun(alloc, Kind::Effect, room)?;
    put_number(&mut out, version)?;
    put_number(&mut out, number)?;
    put_sized(&mut out, effect.as_slice())?;
    Ok(Bytes::from_vec(out))
}

/// A bridge's message, written once into a buffer of its length.
pub(crate) fn bridge_message(
    alloc: Global,
    row: &Row,
    base: u32,
    count: u32,
) -> Result<Bytes, Memory>
    ensures spelled { IfOk result (λ bytes. bytes ≡ spelling (MemberMessage.Bridge row.now base count)) }
    ensures fits { OnOk result (LengthsFit (MemberMessage.Bridge row.now base count)) }
{
    let mut out = begun(alloc, Kind::Bridge, 9 + row_length(row)?)?;
    put_row(&mut out, row)?;
    put_number(&mut out, base)?;
    put_number(&mut out, count)?;
    Ok(Bytes::from_vec(out))
}

fn ack_message(alloc: Global, version: u32, count: u32) -> Result<Bytes, Memory>
    ensures { IfOk result (λ bytes. bytes ≡ spelling (MemberMessage.Ack version count)) }
{
    let mut out = begun(alloc, Kind::Ack, 9)?;
    put_number(&mut out, version)?;
    put_number(&mut out, count)?;
    Ok(Bytes::from_vec(out))
}

fn joined_message(alloc: Global, version: u32, member: MemberId) -> Result<Bytes, Memory>
    ensures { IfOk result (λ bytes. bytes ≡ spelling (MemberMessage.Joined version member)) }
{
    let mut out = begun(alloc, Kind::Joined, 6)?;
    put_number(&mut out, version)?;
    out.push(member)?;
    Ok(Bytes::from_vec(out))
}

/// A message of that kind that says a version and no more.
fn version_message(alloc: Global, kind: Kind, version: u32) -> Result<Bytes, Memory>
    ensures { IfOk result (λ bytes. bytes ≡ kind_byte kind ∷ number version) }
{
    let mut out = begun(alloc, kind, 5)?;
    put_number(&mut out, version)?;
    Ok(Bytes::from_vec(out))
}

/// The one spelling of a message, at the cost of its bytes. Contents of more than 4,294,967,295 bytes, and a row of
/// more than 255 members, have none: no message can carry them, which is answered as want of memory.
pub fn write_member(alloc: Global, message: &MemberMessage) -> Result<Bytes, Memory>
    ensures spelled { IfOk result (λ bytes. bytes ≡ spelling message.now) }
    ensures fits { OnOk result (LengthsFit message.now) }
{
    match message {
        MemberMessage::NewRow { row } => row_message(alloc, row),
        MemberMessage::Sync {
            row,
            count,
            snapshot,
        } => sync_message(alloc, row, *count, snapshot),
        MemberMessage::Effect {
            version,
            number,
            effect,
        } => effect_message(alloc, *version, *number, effect),
        MemberMessage::Ack { version, count } => ack_message(alloc, *version, *count),
        MemberMessage::Joined { version, member } => joined_message(alloc, *version, *member),
        MemberMessage::Freeze { version } => version_message(alloc, Kind::Freeze, *version),
        MemberMessage::Frozen { version } => version_message(alloc, Kind::Frozen, *version),
        MemberMessage::Bridge { row, base, count } => bridge_message(alloc, row, *base, *count),
    }
}
