//! How a control script is served.
ghost use Rattle.std.specs.Prelude.{◌≡◌, ◌≤◌, ◌++◌, ◌+◌, ◌<◌, ℕ, List, [], All, IfOk, IfErr, OnOk, OnErr, IsErrOf};
ghost use Rattle.grid_edge.specs.Faults.{Rose};
ghost use Rattle.grid_edge.specs.Sink.{TakesFront};
ghost use Rattle.hand_cell.specs.Calls.{plan_of};
ghost use Rattle.live_grid.specs.Grids.{place_of};
ghost use Rattle.grid_cli.specs.Transcripts.{refused_text, limit_text};
ghost use Rattle.script_lang.specs.Limits.{most_lines};
ghost use Rattle.live_control.specs.Running.{MayServe};
ghost use Rattle.live_control.specs.Serving.{HasRunAs, HasFailed, Serves, StopsAs, WritesLast, HasServed};

use crate::lines::{Came, LineReader};
use crate::orders::{Order, read_order};
use crate::running::run_order;
use grid_base::Memory;
use grid_cli::{LimitWhat, Status, push_limit, push_refused};
use grid_edge::{Sink, Source, write_all};
use hand_cell::Runs;
use live_grid::{GridPass, LiveGrid, LiveWorld};
use script_lang::{LineRefused, LineWhy};
use std::alloc::{AllocError, Global};
use std::sync::Wait;

/// What became of a line, whose text is then to be written.
#[derive(Clone, Copy)]
enum Ran {
    /// The script goes on.
    Goes,
    /// It was the line `end`.
    Ended,
    /// It is no line of a control script, and ran in no part.
    Refused(LineWhy),
}

/// Runs the line with that number and leaves its text.
fn run_line<N, R: Wait>(
    rt: &R,
    alloc: Global,
    grid: &LiveGrid,
    members: u8,
    env: &N,
    pass: &mut GridPass,
    number: u32,
    line: &[u8],
    text: &mut Vec<u8>,
) -> Result<Ran, Memory>
where
    LiveWorld: Runs<N>,
    requires some { 1 ≤ members }
    requires most { members ≤ 8 }
    requires env { All (λ cell. ⟦<LiveWorld as Runs<N>>⟧.means env.now (plan_of cell)) (place_of grid.now).cells.items }
    requires pass { MayServe grid.now pass.old }
    requires empty { text.old.items ≡ [] }
    ensures ran { IfOk result (λ ran. HasRunAs grid.now members number line.now pass.old pass.new text.new.items ran) }
    ensures failed { OnErr result (HasFailed grid.now members line.now pass.old pass.new) }
    ensures kept { MayServe grid.now pass.new }
{
    match read_order(alloc, line, members) {
        Ok(order) => {
            run_order(rt, alloc, grid, env, pass, number, order, text)?;
            Ok(if let Order::End = order {
                Ran::Ended
            } else {
                Ran::Goes
            })
        }
        Err(LineRefused::Why(why)) => {
            push_refused(text, number, why)?;
            Ok(Ran::Refused(why))
        }
        Err(LineRefused::Memory) => Err(AllocError),
    }
}

/// Runs the line with that number and writes its text. An `Err` is the status with which the script stops there,
/// `Status::Done` at the line `end`.
fn serve_line<N, K: Sink, R: Wait>(
    rt: &R,
    alloc: Global,
    grid: &LiveGrid,
    members: u8,
    env: &N,
    pass: &mut GridPass,
    number: u32,
    line: &[u8],
    out: &mut K,
) -> Result<(), Status>
where
    LiveWorld: Runs<N>,
    requires some { 1 ≤ members }
    requires most { members ≤ 8 }
    requires env { All (λ cell. ⟦<LiveWorld as Runs<N>>⟧.means env.now (plan_of cell)) (place_of grid.now).cells.items }
    requires pass { MayServe grid.now pass.old }
    ensures goes { OnOk result (Serves grid.now members number line.now pass.old pass.new (K.taken out.old) (K.taken out.new)) }
    ensures stops { IfErr result (λ status. StopsAs grid.now members number line.now pass.old pass.new (K.taken out.old) (K.taken out.new) status) }
    ensures never_falls { K.faults out.old ≤ K.faults out.new }
    ensures cause { IsErrOf result Status.WriteFault → Rose (K.faults out.old) (K.faults out.new) }
    ensures kept { MayServe grid.now pass.new }
{
    let mut text = Vec::new(alloc);
    let Ok(ran) = run_line(rt, alloc, grid, members, env, pass, number, line, &mut text) else {
        return Err(Status::Memory);
    };
    let Ok(()) = write_all(out, text.as_slice()) else {
        return Err(Status::WriteFault);
    };
    match ran {
        Ran::Goes => Ok(()),
        Ran::Ended => Err(Status::Done),
        Ran::Refused(why) => Err(Status::ScriptRefused { line: number, why }),
    }
}

/// Ends a script of so many lines that stopped without a line `end`.
fn refuse_end<K: Sink>(alloc: Global, lines: u32, out: &mut K) -> Status
    ensures last { WritesLast (refused_text lines LineWhy.NoEnd) (Status.ScriptRefused lines LineWhy.NoEnd) (K.taken out.old) (K.taken out.new) result }
    ensures never_falls { K.faults out.old ≤ K.faults out.new }
    ensures cause { result ≡ Status.WriteFault → Rose (K.faults out.old) (K.faults out.new) }
{
    let mut text = Vec::new(alloc);
    let Ok(()) = push_refused(&mut text, lines, LineWhy::NoEnd) else {
        return Status::Memory;
    };
    let Ok(()) = write_all(out, text.as_slice()) else {
        return Status::WriteFault;
    };
    Status::ScriptRefused {
        line: lines,
        why: LineWhy::NoEnd,
    }
}

/// Ends a script that goes past a limit in the line behind so many.
fn stop_at_limit<K: Sink>(alloc: Global, lines: u32, what: LimitWhat, out: &mut K) -> Status
    requires { lines ≤ most_lines }
    ensures last { WritesLast (limit_text (lines + 1) what) (Status.Limit what) (K.taken out.old) (K.taken out.new) result }
    ensures never_falls { K.faults out.old ≤ K.faults out.new }
    ensures cause { result ≡ Status.WriteFault → Rose (K.faults out.old) (K.faults out.new) }
{
    let mut text = Vec::new(alloc);
    let Ok(()) = push_limit(&mut text, lines + 1, what) else {
        return Status::Memory;
    };
    let Ok(()) = write_all(out, text.as_slice()) else {
        return Status::WriteFault;
    };
    Status::Limit { what }
}

/// Runs a control script on a live grid of so many members: each line when its newline has come, or the script's end,
/// and the line's text is written before the next one runs. The script's lines are those of `docs/SCRIPTS.md` that an
/// operator gives, with no first line for the grid.
///
/// An event that a partition's history has no room for is told as refused, and the script goes on. Costs the script's
/// length, and for each line its event and the deliveries behind it. Takes memory for a piece of the script, a line and
/// its text, and for events.
pub fn serve_control<N, S: Source, K: Sink, R: Wait>(
    rt: &R,
    alloc: Global,
    grid: &LiveGrid,
    members: u8,
    env: &N,
    pass: &mut GridPass,
    script: &mut S,
    out: &mut K,
) -> Status
where
    LiveWorld: Runs<N>,
    requires some { 1 ≤ members }
    requires most { members ≤ 8 }
    requires env { All (λ cell. ⟦<LiveWorld as Runs<N>>⟧.means env.now (plan_of cell)) (place_of grid.now).cells.items }
    requires pass { MayServe grid.now pass.old }
    // What was run and written is what the status says, of each script that begins with what was read, or of that alone where
    // the source has ended.
    ensures served { HasServed grid.now members result (S.given script.old) (S.given script.new) (K.taken out.old) (K.taken out.new) pass.old pass.new }
    // A fault is told only where the source or the sink had one.
    ensures read_fault { result ≡ Status.ReadFault → Rose (S.faults script.old) (S.faults script.new) }
    ensures write_fault { result ≡ Status.WriteFault → Rose (K.faults out.old) (K.faults out.new) }
    ensures kept { MayServe grid.now pass.new }
{
    let Ok(mut reader) = LineReader::new(alloc) else {
        return Status::Memory;
    };
    for _ in rt.forever() {
        match reader.next(script) {
            Came::Line => {
                let number = reader.lines();
                let line = reader.line();
                match serve_line(rt, alloc, grid, members, env, pass, number, line, out) {
                    Ok(()) => {}
                    Err(status) => return status,
                }
            }
            Came::Nothing => return refuse_end(alloc, reader.lines(), out),
            Came::Limit(what) => return stop_at_limit(alloc, reader.lines(), what, out),
            Came::Fault => return Status::ReadFault,
            Came::NoMemory => return Status::Memory,
        }
    }
    unreachable!()
}
