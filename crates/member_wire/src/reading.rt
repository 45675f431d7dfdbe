ghost use Rattle.std.specs.Prelude.{◌≡◌, map, [], Ok, IfOk, IfErr};
ghost use Rattle.partition_table.specs.Rows.{is_among, number_of};
ghost use Rattle.member_wire.specs.Faults.{IsFirstFault};
ghost use Rattle.member_wire.specs.Spelling.{is_count, spelling, IsSpelled};
ghost use Rattle.member_wire.specs.declared.message.MemberMessage.{MemberMessage as MemberMessageOf};
ghost use Rattle.wire_parts.specs.Parts.{Gives, IsUnlessMemory};
ghost use Rattle.member_wire.specs.Reading.{member_at, members_at, row_at, sync_at, effect_at, ack_at, joined_at, freeze_at, frozen_at, bridge_at, kind_at, fields_at, message_at, reading};

use crate::kind::Kind;
use crate::message::{MAX_MEMBERS, MemberMessage};
use grid_base::{Bytes, MemberId};
use partition_table::{Row, RowMember, RowMembers};
use std::alloc::Global;
use wire_parts::{Cursor, WireRefused};

fn is_listed(listed: &[RowMember], member: MemberId) -> bool
    ensures { result ≡ is_among (map number_of listed.now) member }
{
    listed
        .iter()
        .map(|earlier| earlier.member)
        .any(|earlier| member == earlier)
}

/// A lost row has no members, and another row has some.
fn is_count(lost: bool, count: u8) -> bool
    ensures { result ≡ is_count lost count }
{
    if lost {
        count == 0
    } else {
        0 < count && count as usize <= MAX_MEMBERS
    }
}

/// The next member of a row that has these already.
#[tactic(auto, unfolding(crate::specs::Reading::member_at))]
fn read_row_member(listed: &[RowMember], from: &mut Cursor<'_>) -> Result<RowMember, WireRefused>
    ensures { Gives (λ member. (member, from.new)) result (member_at listed.now from.old) }
{
    let at = from.at();
    let member = from.byte()?;
    if is_listed(listed, member) {
        return Err(WireRefused::Order { at });
    }
    let eligible = from.mark()?;
    Ok(RowMember { member, eligible })
}

fn read_row_members(
    alloc: Global,
    count: u8,
    from: &mut Cursor<'_>,
) -> Result<RowMembers, WireRefused>
    ensures { Gives (λ members. (members, from.new)) result (members_at [] count from.old) }
{
    let mut listed = Vec::with_capacity(alloc, count as usize)?;
    for _ in 0..count {
        let member = read_row_member(listed.as_slice(), from)?;
        listed.push(member)?;
    }
    Ok(RowMembers::from_vec(listed))
}

#[tactic(auto, unfolding(crate::specs::Reading::row_at))]
fn read_row(alloc: Global, from: &mut Cursor<'_>) -> Result<Row, WireRefused>
    ensures { Gives (λ row. (row, from.new)) result (row_at from.old) }
{
    let version = from.number()?;
    let reset = from.number()?;
    let lost = from.mark()?;
    let at = from.at();
    let count = from.byte()?;
    if !is_count(lost, count) {
        return Err(WireRefused::Order { at });
    }
    let members = read_row_members(alloc, count, from)?;
    Ok(Row {
        version,
        reset,
        lost,
        members,
    })
}

#[tactic(auto, unfolding(crate::specs::Reading::sync_at))]
fn read_sync(alloc: Global, from: &mut Cursor<'_>) -> Result<MemberMessage, WireRefused>
    ensures { Gives (λ sync. (sync, from.new)) result (sync_at from.old) }
{
    let row = read_row(alloc, from)?;
    let count = from.number()?;
    let snapshot = Bytes::copied_from(alloc, from.sized()?)?;
    Ok(MemberMessage::Sync {
        row,
        count,
        snapshot,
    })
}

#[tactic(auto, unfolding(crate::specs::Reading::effect_at))]
fn read_effect(alloc: Global, from: &mut Cursor<'_>) -> Result<MemberMessage, WireRefused>
    ensures { Gives (λ effect. (effect, from.new)) result (effect_at from.old) }
{
    let version = from.number()?;
    let number = from.number()?;
    let effect = Bytes::copied_from(alloc, from.sized()?)?;
    Ok(MemberMessage::Effect {
        version,
        number,
        effect,
    })
}

#[tactic(auto, unfolding(crate::specs::Reading::ack_at))]
fn read_ack(from: &mut Cursor<'_>) -> Result<MemberMessage, WireRefused>
    ensures { Gives (λ ack. (ack, from.new)) result (ack_at from.old) }
{
    let version = from.number()?;
    let count = from.number()?;
    Ok(MemberMessage::Ack { version, count })
}

#[tactic(auto, unfolding(crate::specs::Reading::joined_at))]
fn read_joined(from: &mut Cursor<'_>) -> Result<MemberMessage, WireRefused>
    ensures { Gives (λ joined. (joined, from.new)) result (joined_at from.old) }
{
    let version = from.number()?;
    let member = from.byte()?;
    Ok(MemberMessage::Joined { version, member })
}

#[tactic(auto, unfolding(crate::specs::Reading::bridge_at))]
fn read_bridge(alloc: Global, from: &mut Cursor<'_>) -> Result<MemberMessage, WireRefused>
    ensures { Gives (λ bridge. (bridge, from.new)) result (bridge_at from.old) }
{
    let row = read_row(alloc, from)?;
    let base = from.number()?;
    let count = from.number()?;
    Ok(MemberMessage::Bridge { row, base, count })
}

#[tactic(auto, unfolding(crate::specs::Reading::row_message_at, crate::specs::Reading::freeze_at, crate::specs::Reading::frozen_at))]
fn read_fields(
    alloc: Global,
    kind: Kind,
    from: &mut Cursor<'_>,
) -> Result<MemberMessage, WireRefused>
    ensures { Gives (λ message. (message, from.new)) result (fields_at kind from.old) }
{
    match kind {
        Kind::NewRow => Ok(MemberMessage::NewRow {
            row: read_row(alloc, from)?,
        }),
        Kind::Sync => read_sync(alloc, from),
        Kind::Effect => read_effect(alloc, from),
        Kind::Ack => read_ack(from),
        Kind::Joined => read_joined(from),
        Kind::Freeze => Ok(MemberMessage::Freeze {
            version: from.number()?,
        }),
        Kind::Frozen => Ok(MemberMessage::Frozen {
            version: from.number()?,
        }),
        Kind::Bridge => read_bridge(alloc, from),
    }
}

fn read_kind(from: &mut Cursor<'_>) -> Result<Kind, WireRefused>
    ensures { Gives (λ kind. (kind, from.new)) result (kind_at from.old) }
{
    let at = from.at();
    match Kind::of_byte(from.byte()?) {
        None => Err(WireRefused::Tag { at }),
        Some(kind) => Ok(kind),
    }
}

#[tactic(auto, unfolding(crate::specs::Reading::message_at))]
fn read_message(alloc: Global, from: &mut Cursor<'_>) -> Result<MemberMessage, WireRefused>
    ensures { Gives (λ message. (message, from.new)) result (message_at from.old) }
{
    let kind = read_kind(from)?;
    read_fields(alloc, kind, from)
}

#[tactic(auto, unfolding(crate::specs::Reading::reading))]
fn read_all(alloc: Global, bytes: &[u8]) -> Result<MemberMessage, WireRefused>
    ensures { IsUnlessMemory result (reading bytes.now) }
{
    let mut from = Cursor::new(bytes);
    let message = read_message(alloc, &mut from)?;
    from.end()?;
    Ok(message)
}

/// The message that the bytes spell, all of them. Costs their length.
pub fn read_member(alloc: Global, bytes: &[u8]) -> Result<MemberMessage, WireRefused>
    // What is read is spelled so.
    ensures found { IfOk result (λ m. IsSpelled m × (bytes.now ≡ spelling m)) }
    // What is spelled so is read, unless memory runs out.
    ensures only { (m : MemberMessageOf) → IsSpelled m → bytes.now ≡ spelling m
        → IsUnlessMemory result (Ok m) }
    // A refusal names the first place that fails.
    ensures first { IfErr result (IsFirstFault bytes.now) }
    // Which place and which fault it is.
    ensures exact { IsUnlessMemory result (reading bytes.now) }
{
    read_all(alloc, bytes)
}
