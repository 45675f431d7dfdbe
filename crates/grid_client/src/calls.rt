//! The calls of a client that wait for their answers, or may be tried again.

ghost use Rattle.std.specs.Prelude.{◌≡◌, ℕ, ◌+◌, ◌<◌, ◌≤◌, ◌^◌, length, vec_len, pos, IfOk, OnOk, OnErr};
ghost use Rattle.std.specs.List.{position};
ghost use Rattle.grid_client.specs.Calls.{correlation_of, number_in, is_answered_by, is_elsewhere, is_refused, answered_number, settled_at, settled_by, asked_call, again, sending_of};
ghost use Rattle.request_codecs.specs.Requests.{request_bytes};
ghost use Rattle.request_codecs.specs.Readdressing.{readdressed};
ghost use Rattle.grid_client.specs.declared.calls.Call.{Call as CallOf};

use crate::heard::Sending;
use crate::messages::Head;
use grid_base::errors::{MIGRATING, WRONG_TARGET};
use grid_base::{Bytes, GridCall, Memory, PartitionId};
use request_codecs::{kind_of, readdressed, write_request};
use std::alloc::{AllocError, Global};
use std::marker::Model;

/// The bytes of a request, which has a correlation.
#[derive(Debug, Drop)]
pub(crate) struct Written {
    bytes: Bytes,
}

impl Model for Written {
    ghost use Rattle.std.specs.Prelude.{List, ℕ, ◌≤◌, length};

    ghost Value = { List ℕ };

    ghost view = { λ w. w.bytes };

    ghost invariant = { λ w. 18 ≤ length w.bytes };
}

impl Written {
    fn asking(
        alloc: Global,
        correlation: i64,
        partition: PartitionId,
        call: &GridCall,
    ) -> Result<Self, Memory>
        ensures { IfOk result (λ written. written ≡ request_bytes correlation partition call.now) }
    {
        let bytes = write_request(alloc, correlation, partition, call)?;
        Ok(Written { bytes })
    }

    fn again(&self, alloc: Global, correlation: i64) -> Result<Self, Memory>
        ensures { IfOk result (λ written. written ≡ readdressed correlation self.now) }
    {
        let bytes = readdressed(alloc, &self.bytes, correlation)?;
        Ok(Written { bytes })
    }

    fn copied(&self, alloc: Global) -> Result<Bytes, Memory>
        ensures { IfOk result (λ bytes. bytes ≡ self.now) }
    {
        self.bytes.copied(alloc)
    }
}

/// A call that waits for its answer, or was refused by a member that doesn't lead its partition.
#[derive(Debug, Drop)]
pub(crate) struct Call {
    /// One less than its correlation.
    pub number: u64,
    pub conn: u32,
    /// The message type of the request.
    pub kind: u32,
    pub partition: PartitionId,
    pub request: Written,
    /// It doesn't wait, and may be tried again.
    pub refused: bool,
}

/// The correlation of the call of a number. So many calls that there is none are answered as want of memory.
fn correlation_of(number: u64) -> Result<i64, Memory>
    ensures correlation { IfOk result (λ correlation. correlation ≡ correlation_of number) }
    ensures below { OnOk result (number + 1 < 2 ^ 63) }
{
    if number >= i64::MAX as u64 {
        return Err(AllocError);
    }
    Ok((number + 1) as i64)
}

/// The number of a correlation, if it may be a call's.
pub(crate) fn number_in(correlation: i64) -> Option<u64>
    ensures { result ≡ number_in correlation }
{
    if correlation < 1 {
        return None;
    }
    Some((correlation - 1) as u64)
}

/// Whether an error says that another member is to be asked.
fn is_elsewhere(code: i32) -> bool
    ensures { result ≡ is_elsewhere code }
{
    code == WRONG_TARGET || code == MIGRATING
}

impl Call {
    /// A call as it is asked for on a connection.
    pub fn asking(
        alloc: Global,
        number: u64,
        conn: u32,
        partition: PartitionId,
        call: &GridCall,
    ) -> Result<Self, Memory>
        ensures call { IfOk result (λ asked. asked ≡ asked_call number conn partition call.now) }
        ensures below { OnOk result (number + 1 < 2 ^ 63) }
    {
        let correlation = correlation_of(number)?;
        Ok(Call {
            number,
            conn,
            kind: kind_of(call),
            partition,
            request: Written::asking(alloc, correlation, partition, call)?,
            refused: false,
        })
    }

    /// The same call, under another number on a connection.
    pub fn again(&self, alloc: Global, number: u64, conn: u32) -> Result<Self, Memory>
        ensures call { IfOk result (λ call. call ≡ again number conn self.now) }
        ensures below { OnOk result (number + 1 < 2 ^ 63) }
    {
        let correlation = correlation_of(number)?;
        Ok(Call {
            number,
            conn,
            kind: self.kind,
            partition: self.partition,
            request: self.request.again(alloc, correlation)?,
            refused: false,
        })
    }

    /// What is to be sent for it.
    pub fn sending(&self, alloc: Global) -> Result<Sending, Memory>
        ensures { IfOk result (λ sending. sending ≡ sending_of self.now) }
    {
        Ok(Sending {
            conn: self.conn,
            correlation: correlation_of(self.number)?,
            bytes: self.request.copied(alloc)?,
        })
    }

    /// Whether it waits on that connection, and a message of that type and number is its answer.
    fn is_answered_by(&self, conn: u32, number: u64, kind: u32) -> bool
        ensures { result ≡ is_answered_by conn number kind self.now }
    {
        !self.refused
            && self.conn == conn
            && self.number == number
            && (kind == 0 || u64::from(kind) == u64::from(self.kind) + 1)
    }

    /// Whether it was refused under that number, and may be tried again.
    fn is_refused(&self, number: u64) -> bool
        ensures { result ≡ is_refused number self.now }
    {
        self.refused && self.number == number
    }
}

/// The place of the first call that waits for that answer.
fn answered_place(calls: &[Call], conn: u32, number: u64, kind: u32) -> Option<usize>
    ensures { result ≡ position (is_answered_by conn number kind) calls.now }
{
    calls
        .iter()
        .position(|call| call.is_answered_by(conn, number, kind))
}

/// Ends the call at a place, or has it wait to be tried again, by the code of its answer.
fn settle_at(calls: &mut Vec<Call>, place: usize, code: Option<i32>)
    requires { place < vec_len calls.old }
    ensures { calls.new.items ≡ settled_at place code calls.old.items }
{
    match code {
        Some(code) if is_elsewhere(code) => {
            let call = &mut calls[place];
            call.refused = true;
        }
        _ => {
            calls.remove(place);
        }
    }
}

/// Ends the call that a message answers, or has it wait to be tried again, by the answer's code; and gives its number.
/// Costs the calls that wait.
pub(crate) fn settle(calls: &mut Vec<Call>, conn: u32, head: Head, code: Option<i32>) -> Option<u64>
    ensures number { result ≡ answered_number conn head calls.old.items }
    ensures calls { calls.new.items ≡ settled_by conn head code result calls.old.items }
{
    let Some(number) = number_in(head.correlation) else {
        return None;
    };
    match answered_place(calls.as_slice(), conn, number, head.kind) {
        Some(place) => {
            settle_at(calls, place, code);
            Some(number)
        }
        None => None,
    }
}

/// The place of the first call that was refused under that number.
pub(crate) fn refused_place(calls: &[Call], number: u64) -> Option<usize>
    ensures { result ≡ position (is_refused number) calls.now }
{
    calls.iter().position(|call| call.is_refused(number))
}
