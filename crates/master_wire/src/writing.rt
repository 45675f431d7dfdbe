ghost use Rattle.std.specs.Prelude.{◌≡◌, ◌+◌, ◌<◌, ◌≤◌, ◌^◌, ◌∷◌, [], ◌++◌, length, OnOk, IfOk};
ghost use Rattle.std.specs.List.{flat_map};
ghost use Rattle.masters_protocol.specs.Members.{Message};
ghost use Rattle.masters_protocol.specs.Members as message;
ghost use Rattle.wire_parts.specs.Parts.{number, sized};
ghost use Rattle.master_wire.specs.Kinds.{decision_byte, message_byte};
ghost use Rattle.master_wire.specs.Spelling.{decision_bytes, log_bytes, spelling, IsSpelled, IsSpelledDecision, AreSpelled};

use crate::decision::Decision;
use crate::kinds::{DecisionKind, MessageKind};
use grid_base::{Bytes, Memory};
use std::alloc::{AllocError, Global};

fn put_number(out: &mut Vec<u8>, n: u32) -> Result<(), Memory>
    ensures { OnOk result (out.new.items ≡ out.old.items ++ number n) }
{
    Ok(out.extend_from_slice(&n.to_le_bytes())?)
}

/// Longer contents than a length says no decision carries.
fn put_sized(out: &mut Vec<u8>, bytes: &[u8]) -> Result<(), Memory>
    ensures put { OnOk result (out.new.items ≡ out.old.items ++ sized bytes.now) }
    ensures fits { OnOk result (length bytes.now < 2 ^ 32) }
{
    if bytes.len() > u32::MAX as usize {
        return Err(AllocError);
    }
    put_number(out, bytes.len() as u32)?;
    Ok(out.extend_from_slice(bytes)?)
}

fn put_take(out: &mut Vec<u8>, from: u8, place: u32, message: &Bytes) -> Result<(), Memory>
    ensures put { OnOk result (out.new.items ≡ out.old.items ++ decision_bytes (Decision.Take from place message.now)) }
    ensures fits { OnOk result (IsSpelledDecision (Decision.Take from place message.now)) }
{
    out.push(DecisionKind::Take.byte())?;
    out.push(from)?;
    put_number(out, place)?;
    put_sized(out, message.as_slice())
}

fn put_decision(out: &mut Vec<u8>, decision: &Decision) -> Result<(), Memory>
    ensures put { OnOk result (out.new.items ≡ out.old.items ++ decision_bytes decision.now) }
    ensures fits { OnOk result (IsSpelledDecision decision.now) }
{
    match decision {
        Decision::Detect { member } => Ok(out.extend_from_slice(&[
            DecisionKind::Detect.byte(),
            *member,
        ])?),
        Decision::BeginMove { from, to } => Ok(out.extend_from_slice(&[
            DecisionKind::BeginMove.byte(),
            *from,
            *to,
        ])?),
        Decision::BeginJoin { to } => Ok(out.extend_from_slice(&[
            DecisionKind::BeginJoin.byte(),
            *to,
        ])?),
        Decision::BeginHandover { from, to } => Ok(out.extend_from_slice(&[
            DecisionKind::BeginHandover.byte(),
            *from,
            *to,
        ])?),
        Decision::Advance => Ok(out.push(DecisionKind::Advance.byte())?),
        Decision::Reopen => Ok(out.push(DecisionKind::Reopen.byte())?),
        Decision::Take {
            from,
            place,
            message,
        } => put_take(out, *from, *place, message),
    }
}

fn put_decisions(out: &mut Vec<u8>, log: &[Decision]) -> Result<(), Memory>
    ensures put { OnOk result (out.new.items ≡ out.old.items ++ flat_map decision_bytes log.now) }
    ensures fits { OnOk result (AreSpelled log.now) }
{
    for decision in log {
        put_decision(out, decision)?;
    }
    Ok(())
}

/// How many decisions a log has, as a message says it. Of more than 4,294,967,295 no message tells.
fn counted(length: usize) -> Result<u32, Memory>
    ensures count { IfOk result (λ count. count ≡ length) }
    ensures fits { OnOk result (length < 2 ^ 32) }
{
    if length > u32::MAX as usize {
        return Err(AllocError);
    }
    Ok(length as u32)
}

/// A message of that kind and term as it begins.
fn begun(alloc: Global, kind: MessageKind, term: u8) -> Result<Vec<u8>, Memory>
    ensures { IfOk result (λ out. out.items ≡ message_byte kind ∷ term ∷ []) }
{
    let mut out = Vec::with_capacity(alloc, 6)?;
    out.push(kind.byte())?;
    out.push(term)?;
    Ok(out)
}

fn with_log(alloc: Global, kind: MessageKind, term: u8, log: &[Decision]) -> Result<Bytes, Memory>
    ensures spelled { IfOk result (λ bytes. bytes ≡ message_byte kind ∷ term ∷ log_bytes log.now) }
    ensures fits { OnOk result (AreSpelled log.now) }
    ensures count { OnOk result (length log.now < 2 ^ 32) }
{
    let mut out = begun(alloc, kind, term)?;
    put_number(&mut out, counted(log.len())?)?;
    put_decisions(&mut out, log)?;
    Ok(Bytes::from_vec(out))
}

/// A `Store`, at the cost of its bytes. A log of more than 4,294,967,295 decisions, or one that takes a message of more
/// bytes than that, has no spelling: no message can carry it, which is answered as want of memory.
pub fn write_store(alloc: Global, term: u8, log: &[Decision]) -> Result<Bytes, Memory>
    ensures spelled { IfOk result (λ bytes. bytes ≡ spelling (message.Store term log.now)) }
    ensures fits { OnOk result (IsSpelled (message.Store term log.now)) }
{
    with_log(alloc, MessageKind::Store, term, log)
}

/// A `Store` of a log with one decision more at its end, as `write_store` writes it.
pub fn write_store_with(
    alloc: Global,
    term: u8,
    log: &[Decision],
    last: &Decision,
) -> Result<Bytes, Memory>
    requires { length log.now + 1 < 2 ^ 64 }
    ensures spelled { IfOk result (λ bytes. bytes ≡ spelling (message.Store term (log.now ++ last.now ∷ []))) }
    ensures fits { OnOk result (IsSpelled (message.Store term (log.now ++ last.now ∷ []))) }
{
    let mut out = begun(alloc, MessageKind::Store, term)?;
    put_number(&mut out, counted(log.len() + 1)?)?;
    put_decisions(&mut out, log)?;
    put_decision(&mut out, last)?;
    Ok(Bytes::from_vec(out))
}

/// A `Tell`, as `write_store` writes a `Store`.
pub fn write_tell(alloc: Global, term: u8, log: &[Decision]) -> Result<Bytes, Memory>
    ensures spelled { IfOk result (λ bytes. bytes ≡ spelling (message.Tell term log.now)) }
    ensures fits { OnOk result (IsSpelled (message.Tell term log.now)) }
{
    with_log(alloc, MessageKind::Tell, term, log)
}

/// A `Stored`.
pub fn write_stored(alloc: Global, term: u8, length: u32) -> Result<Bytes, Memory>
    ensures spelled { IfOk result (λ bytes. bytes ≡ spelling (message.Stored term length)) }
    ensures fits { OnOk result (IsSpelled (message.Stored term length)) }
{
    let mut out = begun(alloc, MessageKind::Stored, term)?;
    put_number(&mut out, length)?;
    Ok(Bytes::from_vec(out))
}

/// An `Ask`.
pub fn write_ask(alloc: Global, term: u8) -> Result<Bytes, Memory>
    ensures spelled { IfOk result (λ bytes. bytes ≡ spelling (message.Ask term)) }
    ensures fits { OnOk result (IsSpelled (message.Ask term)) }
{
    let out = begun(alloc, MessageKind::Ask, term)?;
    Ok(Bytes::from_vec(out))
}
