//! An operator's control script on a live grid.

ghost use Rattle.std.specs.Prelude.{◌≡◌, ◌<◌, []};
ghost use Rattle.live_grid.specs.Plans.{settings_in};

use call_engine::{GridEnv, GridShelf};
use entry_processors::Registry;
use grid_base::Executes;
use grid_cli::{LimitWhat, Status};
use grid_edge::{MemorySink, MemorySource};
use live_control::serve_control;
use live_grid::LiveGrid;
use script_lang::LineWhy;
use std::alloc::Global;
use std::process::Abort;
use std::sync::Wait;
use std::test::Fail;

fn environment(alloc: Global) -> GridEnv
    ensures { ⟦<GridShelf as Executes<GridEnv>>⟧.plan_of result ≡ settings_in [] 2 }
{
    GridEnv {
        registry: Registry::new(Vec::new(alloc)),
        capacity: 2,
    }
}

/// The text of a control script's run on a new grid of three members with one backup, read by pieces of so many bytes.
fn served<R: Abort + Wait>(
    rt: &R,
    alloc: Global,
    script: &[u8],
    piece: usize,
    status: Status,
) -> Result<Vec<u8>, Fail>
    requires { 0 < piece }
{
    let env = environment(alloc);
    let (grid, mut pass) = LiveGrid::new(alloc, 3, 1, &env, &[], 2)?;
    let mut source = MemorySource::in_pieces(script.to_vec(alloc)?, Vec::new(alloc), piece);
    let mut sink = MemorySink::new(Vec::new(alloc));
    let ended = serve_control(rt, alloc, &grid, 3, &env, &mut pass, &mut source, &mut sink);
    assert_eq!(rt; ended, status);
    Ok(sink.bytes().to_vec(alloc)?)
}

#[test]
fn a_member_crashes_and_is_detected(rt: HostRuntime) -> Result<(), Fail> {
    let script = b"crash 2\ndetect 2\nadvance 5\nend\n".as_slice();
    let text = served(&rt, rt.alloc(), script, 1, Status::Done)?;
    assert_eq!(rt;
        text.as_slice(),
        b"1 ok\n2 ok\n3 nothing\n4 ok\n".as_slice()
    );
    Ok(())
}

#[test]
fn a_partition_is_handed_over(rt: HostRuntime) -> Result<(), Fail> {
    let script =
        b"# hand 5 over\nhandover 5 2 0\nadvance 5\nresend 5 3\njoin 5 1\ndetect 1\nreopen 5\nend".as_slice();
    let text = served(&rt, rt.alloc(), script, 100, Status::Done)?;
    let told =
        b"1 ok\n2 ok\n3 freezing\n4 ok\n5 refused notidle\n6 nothing\n7 refused notlost\n8 ok\n";
    assert_eq!(rt; text.as_slice(), told.as_slice());
    Ok(())
}

fn refused<R: Abort + Wait>(
    rt: &R,
    alloc: Global,
    script: &[u8],
    line: u32,
    why: LineWhy,
    told: &[u8],
) -> Result<(), Fail> {
    let text = served(rt, alloc, script, 7, Status::ScriptRefused { line, why })?;
    assert_eq!(rt; text.as_slice(), told);
    Ok(())
}

#[test]
fn other_lines_are_refused(rt: HostRuntime) -> Result<(), Fail> {
    let alloc = rt.alloc();
    refused(
        &rt,
        alloc,
        b"open x\n",
        1,
        LineWhy::Word,
        b"refused 1 word\n",
    )?;
    refused(
        &rt,
        alloc,
        b"open 1 2\n",
        1,
        LineWhy::Word,
        b"refused 1 word\n",
    )?;
    refused(
        &rt,
        alloc,
        b"#\ngrid 3 1 2\n",
        2,
        LineWhy::NoGrid,
        b"1 ok\nrefused 2 nogrid\n",
    )?;
    refused(
        &rt,
        alloc,
        b"crash 3",
        1,
        LineWhy::Number,
        b"refused 1 number\n",
    )?;
    refused(
        &rt,
        alloc,
        b"crash",
        1,
        LineWhy::Count,
        b"refused 1 count\n",
    )?;
    refused(&rt, alloc, b"\n", 1, LineWhy::Word, b"refused 1 word\n")?;
    refused(&rt, alloc, b"", 0, LineWhy::NoEnd, b"refused 0 noend\n")?;
    refused(
        &rt,
        alloc,
        b"advance 5",
        1,
        LineWhy::NoEnd,
        b"1 nothing\nrefused 1 noend\n",
    )
}

#[test]
fn a_line_may_be_too_long(rt: HostRuntime) -> Result<(), Fail> {
    let alloc = rt.alloc();
    let mut script = vec![in alloc; b'#'; 65_536]?;
    script.push(b'\n')?;
    let status = Status::ScriptRefused {
        line: 1,
        why: LineWhy::NoEnd,
    };
    let text = served(&rt, alloc, script.as_slice(), 65_536, status)?;
    assert_eq!(rt; text.as_slice(), b"1 ok\nrefused 1 noend\n".as_slice());
    let script = vec![in alloc; b'#'; 65_537]?;
    let status = Status::Limit {
        what: LimitWhat::Line,
    };
    let text = served(&rt, alloc, script.as_slice(), 1_000, status)?;
    assert_eq!(rt; text.as_slice(), b"limit 1 line\n".as_slice());
    Ok(())
}
