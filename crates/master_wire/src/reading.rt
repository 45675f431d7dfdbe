ghost use Rattle.std.specs.Prelude.{◌≡◌, ℕ, List, [], Ok, IfOk, length, vec_len};
ghost use Rattle.masters_protocol.specs.Members.{Message, log_of};
ghost use Rattle.wire_parts.specs.Parts.{Gives, IsUnlessMemory};
ghost use Rattle.master_wire.specs.declared.decision.Decision.{Decision as DecisionOf};
ghost use Rattle.master_wire.specs.Said.{said};
ghost use Rattle.master_wire.specs.Spelling.{spelling, IsSpelled};
ghost use Rattle.master_wire.specs.Reading.{begin_move_at, begin_handover_at, take_at, decision_kind_at, decision_fields_at, decision_at, decisions_at, log_at, store_at, stored_at, ask_at, tell_at, message_kind_at, message_fields_at, message_at, reading, has_log, log_length};

use crate::decision::Decision;
use crate::kinds::{DecisionKind, MessageKind};
use crate::message::MasterMessage;
use grid_base::Bytes;
use std::alloc::Global;
use wire_parts::{Cursor, WireRefused};

#[tactic(auto, unfolding(crate::specs::Reading::begin_move_at))]
fn read_begin_move(from: &mut Cursor<'_>) -> Result<Decision, WireRefused>
    ensures { Gives (λ decision. (decision, from.new)) result (begin_move_at from.old) }
{
    let source = from.byte()?;
    let target = from.byte()?;
    Ok(Decision::BeginMove {
        from: source,
        to: target,
    })
}

#[tactic(auto, unfolding(crate::specs::Reading::begin_handover_at))]
fn read_begin_handover(from: &mut Cursor<'_>) -> Result<Decision, WireRefused>
    ensures { Gives (λ decision. (decision, from.new)) result (begin_handover_at from.old) }
{
    let source = from.byte()?;
    let target = from.byte()?;
    Ok(Decision::BeginHandover {
        from: source,
        to: target,
    })
}

#[tactic(auto, unfolding(crate::specs::Reading::take_at))]
fn read_take(alloc: Global, from: &mut Cursor<'_>) -> Result<Decision, WireRefused>
    ensures { Gives (λ decision. (decision, from.new)) result (take_at from.old) }
{
    let source = from.byte()?;
    let place = from.number()?;
    let message = Bytes::copied_from(alloc, from.sized()?)?;
    Ok(Decision::Take {
        from: source,
        place,
        message,
    })
}

#[tactic(auto, unfolding(crate::specs::Reading::detect_at, crate::specs::Reading::begin_join_at))]
fn read_decision_fields(
    alloc: Global,
    kind: DecisionKind,
    from: &mut Cursor<'_>,
) -> Result<Decision, WireRefused>
    ensures { Gives (λ decision. (decision, from.new)) result (decision_fields_at kind from.old) }
{
    match kind {
        DecisionKind::Detect => Ok(Decision::Detect {
            member: from.byte()?,
        }),
        DecisionKind::BeginMove => read_begin_move(from),
        DecisionKind::BeginJoin => Ok(Decision::BeginJoin { to: from.byte()? }),
        DecisionKind::BeginHandover => read_begin_handover(from),
        DecisionKind::Advance => Ok(Decision::Advance),
        DecisionKind::Reopen => Ok(Decision::Reopen),
        DecisionKind::Take => read_take(alloc, from),
    }
}

fn read_decision_kind(from: &mut Cursor<'_>) -> Result<DecisionKind, WireRefused>
    ensures { Gives (λ kind. (kind, from.new)) result (decision_kind_at from.old) }
{
    let at = from.at();
    match DecisionKind::of_byte(from.byte()?) {
        None => Err(WireRefused::Tag { at }),
        Some(kind) => Ok(kind),
    }
}

#[tactic(auto, unfolding(crate::specs::Reading::decision_at))]
fn read_decision(alloc: Global, from: &mut Cursor<'_>) -> Result<Decision, WireRefused>
    ensures { Gives (λ decision. (decision, from.new)) result (decision_at from.old) }
{
    let kind = read_decision_kind(from)?;
    read_decision_fields(alloc, kind, from)
}

/// So many decisions, one after the other.
fn read_decisions(
    alloc: Global,
    count: u32,
    from: &mut Cursor<'_>,
) -> Result<Vec<Decision>, WireRefused>
    ensures { Gives (λ log. (log.items, from.new)) result (decisions_at [] count from.old) }
{
    let mut log = Vec::with_capacity(alloc, count as usize)?;
    for _ in 0..count {
        let decision = read_decision(alloc, from)?;
        log.push(decision)?;
    }
    Ok(log)
}

#[tactic(auto, unfolding(crate::specs::Reading::log_at))]
fn read_log(alloc: Global, from: &mut Cursor<'_>) -> Result<Vec<Decision>, WireRefused>
    ensures { Gives (λ log. (log.items, from.new)) result (log_at from.old) }
{
    let count = from.number()?;
    read_decisions(alloc, count, from)
}

#[tactic(auto, unfolding(crate::specs::Reading::store_at))]
fn read_store(alloc: Global, from: &mut Cursor<'_>) -> Result<MasterMessage, WireRefused>
    ensures { Gives (λ message. (said message, from.new)) result (store_at from.old) }
{
    let term = from.byte()?;
    let log = read_log(alloc, from)?;
    Ok(MasterMessage::Store { term, log })
}

#[tactic(auto, unfolding(crate::specs::Reading::stored_at))]
fn read_stored(from: &mut Cursor<'_>) -> Result<MasterMessage, WireRefused>
    ensures { Gives (λ message. (said message, from.new)) result (stored_at from.old) }
{
    let term = from.byte()?;
    let length = from.number()?;
    Ok(MasterMessage::Stored { term, length })
}

#[tactic(auto, unfolding(crate::specs::Reading::tell_at))]
fn read_tell(alloc: Global, from: &mut Cursor<'_>) -> Result<MasterMessage, WireRefused>
    ensures { Gives (λ message. (said message, from.new)) result (tell_at from.old) }
{
    let term = from.byte()?;
    let log = read_log(alloc, from)?;
    Ok(MasterMessage::Tell { term, log })
}

#[tactic(auto, unfolding(crate::specs::Reading::ask_at))]
fn read_message_fields(
    alloc: Global,
    kind: MessageKind,
    from: &mut Cursor<'_>,
) -> Result<MasterMessage, WireRefused>
    ensures { Gives (λ message. (said message, from.new)) result (message_fields_at kind from.old) }
{
    match kind {
        MessageKind::Store => read_store(alloc, from),
        MessageKind::Stored => read_stored(from),
        MessageKind::Ask => Ok(MasterMessage::Ask { term: from.byte()? }),
        MessageKind::Tell => read_tell(alloc, from),
    }
}

fn read_message_kind(from: &mut Cursor<'_>) -> Result<MessageKind, WireRefused>
    ensures { Gives (λ kind. (kind, from.new)) result (message_kind_at from.old) }
{
    let at = from.at();
    match MessageKind::of_byte(from.byte()?) {
        None => Err(WireRefused::Tag { at }),
        Some(kind) => Ok(kind),
    }
}

#[tactic(auto, unfolding(crate::specs::Reading::message_at))]
fn read_message(alloc: Global, from: &mut Cursor<'_>) -> Result<MasterMessage, WireRefused>
    ensures { Gives (λ message. (said message, from.new)) result (message_at from.old) }
{
    let kind = read_message_kind(from)?;
    read_message_fields(alloc, kind, from)
}

#[tactic(auto, unfolding(crate::specs::Reading::reading))]
fn read_all(alloc: Global, bytes: &[u8]) -> Result<MasterMessage, WireRefused>
    ensures { Gives said result (reading bytes.now) }
{
    let mut from = Cursor::new(bytes);
    let message = read_message(alloc, &mut from)?;
    from.end()?;
    Ok(message)
}

/// The message that the bytes spell, all of them. Costs their length.
///
/// On a master's links stand only bytes that a master wrote, and of those none is refused but for want of memory. Of other
/// bytes the first fault is named.
pub fn read_master(alloc: Global, bytes: &[u8]) -> Result<MasterMessage, WireRefused>
    // What is read is spelled so.
    ensures found { IfOk result (λ m. IsSpelled (said m) × (bytes.now ≡ spelling (said m))) }
    // What is spelled so is read, unless memory runs out.
    ensures only { (m : Message DecisionOf) → IsSpelled m → bytes.now ≡ spelling m
        → Gives said result (Ok m) }
    // Which fault is refused, and at which place.
    ensures exact { Gives said result (reading bytes.now) }
{
    read_all(alloc, bytes)
}

/// How many decisions the log of a message has, by its first bytes alone: none where it carries no log. In constant time and
/// with no memory.
pub fn log_length(bytes: &[u8]) -> u32
    ensures is { result ≡ log_length bytes.now }
    ensures spelled { (m : Message DecisionOf) → IsSpelled m → bytes.now ≡ spelling m → result ≡ length (log_of m) }
{
    match bytes {
        [kind, _, rest @ ..] if has_log(*kind) && rest.len() >= 4 => {
            u32::from_le_bytes([rest[0], rest[1], rest[2], rest[3]])
        }
        _ => 0,
    }
}

fn has_log(kind: u8) -> bool
    ensures { result ≡ has_log kind }
{
    kind == MessageKind::Store.byte() || kind == MessageKind::Tell.byte()
}
