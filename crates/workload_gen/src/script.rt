//! A script, from its first line to its last.

ghost use Rattle.std.specs.Prelude.{◌≡◌, ◌++◌, ◌∷◌, [], IfOk, OnOk};
ghost use Rattle.script_lang.specs.declared.line.Line.TheVariants as line;
ghost use Rattle.workload_gen.specs.Script.{each_below, connection_lines, call_line, step_line, crash_lines, round_lines, line_text, text_of, sample_script};

use crate::calls::{MEMBERS, client_on, conn_of, get, put};
use crate::lines::{write_arrival, write_line};
use crate::steps::{Step, Workload};
use grid_base::{GridCall, Memory, PartitionId};
use request_codecs::{write_authentication, write_request};
use std::alloc::Global;

/// With what each connection begins.
const PREFIX: &[u8] = b"CP2";

/// How many backups each partition has.
const BACKUPS: u32 = 1;

/// How many values a queue may have.
const CAPACITY: u32 = 100;

/// How many rounds a script has.
const ROUNDS: u32 = 2_000;

/// How many messages of each partition a round delivers at most.
const FLOW: u32 = 50;

/// How many are delivered at most behind the last round.
const LAST_FLOW: u32 = 1_000;

/// The round behind which a member crashes.
const CRASH_ROUND: u32 = 1_000;

/// The member that crashes.
const CRASHED: u32 = 3;

/// How many bytes a script has at most: 2,013 lines of 155 bytes, the longest.
const MOST_BYTES: usize = 2_013 * 155;

/// Appends the lines by which a client connects to a member and makes itself known.
fn write_connection(alloc: Global, conn: u32, out: &mut Vec<u8>) -> Result<(), Memory>
    ensures { OnOk result (out.new.items ≡ out.old.items ++ text_of (connection_lines conn)) }
{
    let mut first = Vec::from_slice(alloc, PREFIX)?;
    write_authentication(alloc, 0, client_on(conn), &mut first)?;
    write_line(b"open", &[conn, conn], out)?;
    write_arrival(alloc, conn, first.as_slice(), out)
}

/// Appends the lines of all clients' connections.
fn write_connections(alloc: Global, out: &mut Vec<u8>) -> Result<(), Memory>
    ensures { OnOk result (out.new.items ≡ out.old.items ++ text_of (each_below 4 connection_lines)) }
{
    for conn in 0..MEMBERS {
        write_connection(alloc, conn, out)?;
    }
    Ok(())
}

/// Appends the line at which a round's call arrives on the connection of its partition.
fn write_call(
    alloc: Global,
    round: u32,
    partition: PartitionId,
    call: &GridCall,
    out: &mut Vec<u8>,
) -> Result<(), Memory>
    ensures { OnOk result (out.new.items ≡ out.old.items ++ line_text (call_line round partition call.now)) }
{
    let request = write_request(alloc, i64::from(round), partition, call)?;
    write_arrival(alloc, conn_of(partition), request.as_slice(), out)
}

/// Appends the line of a round's step.
fn write_step(alloc: Global, round: u32, step: Step, out: &mut Vec<u8>) -> Result<(), Memory>
    ensures { OnOk result (out.new.items ≡ out.old.items ++ line_text (step_line round step)) }
{
    match step {
        Step::Put { partition } => {
            let call = put(alloc, round, partition)?;
            write_call(alloc, round, partition, &call, out)
        }
        Step::Get { partition } => {
            let call = get(alloc, partition)?;
            write_call(alloc, round, partition, &call, out)
        }
        Step::Flow => write_line(b"flow all", &[FLOW], out),
        Step::Move {
            partition,
            from,
            to,
        } => write_line(
            b"move",
            &[u32::from(partition), u32::from(from), u32::from(to)],
            out,
        ),
        Step::Advance { partition } => write_line(b"advance", &[u32::from(partition)], out),
        Step::Resend { partition, end } => {
            write_line(b"resend", &[u32::from(partition), u32::from(end)], out)
        }
    }
}

/// Appends the lines of the crash, where it is behind this round.
fn write_crash(round: u32, out: &mut Vec<u8>) -> Result<(), Memory>
    ensures { OnOk result (out.new.items ≡ out.old.items ++ text_of (crash_lines round)) }
{
    if round == CRASH_ROUND {
        write_line(b"crash", &[CRASHED], out)?;
        write_line(b"detect", &[CRASHED], out)?;
    }
    Ok(())
}

/// Appends the lines of all rounds.
fn write_rounds(alloc: Global, number: u32, out: &mut Vec<u8>) -> Result<(), Memory>
    ensures { OnOk result (out.new.items ≡ out.old.items ++ text_of (each_below 2000 (round_lines number))) }
{
    let mut workload = Workload::new(number);
    for rounds in 0..ROUNDS {
        let round = rounds + 1;
        write_step(alloc, round, workload.next_step(), out)?;
        write_crash(round, out)?;
    }
    Ok(())
}

/// The text of the script that is made from a number, and from nothing else: 2,013 lines, of about 220,000 bytes. What
/// its lines are is told in `docs/SAMPLE.md`, and what holds of them by `laws`.
///
/// Takes time in proportion to the text. Room for all of it is taken first, and nothing is copied as it grows; besides, a
/// call's request is made apart and copied once, as hexadecimal. Fails for want of memory alone.
pub fn make(alloc: Global, number: u32) -> Result<Vec<u8>, Memory>
    ensures { IfOk result (λ script. script.items ≡ sample_script number) }
{
    let mut script = Vec::with_capacity(alloc, MOST_BYTES)?;
    write_line(b"grid", &[MEMBERS, BACKUPS, CAPACITY], &mut script)?;
    write_connections(alloc, &mut script)?;
    write_rounds(alloc, number, &mut script)?;
    write_line(b"flow all", &[LAST_FLOW], &mut script)?;
    write_line(b"end", &[], &mut script)?;
    Ok(script)
}
