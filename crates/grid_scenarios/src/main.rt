//! Runs each script of `data/` in memory and compares what it prints with the transcript beside it.
#![tactic(auto)]

ghost use Rattle.std.specs.Prelude.{◌<◌};

mod codec;
mod long_scripts;
mod masters_limits;
mod scenarios;
mod tables;

use codec::count_messages;
use entry_processors::{Add, AddUpTo, Append, Clear, Processor, SetIfGreater};
use grid_cli::{Status, replay_command};
use grid_edge::{MemorySink, MemorySource};
use long_scripts::{LONG_SCRIPTS, LongScript};
use masters_limits::{MASTERS_SCRIPTS, MastersScript};
use scenarios::{SUBJECTS, Subject};
use std::alloc::Global;
use std::process::ExitCode;
use std::{env, fs, io};
use tables::{Place, Row};
use transcript_checks::{
    SMALL_READ, SMALL_WRITE, first_difference, text_of_reads, text_of_writes, told_difference,
};

/// Words that are no command.
const OTHER_WORDS: [&[&str]; 6] = [
    &[],
    &["replay", "x"],
    &["Replay"],
    &["replay "],
    &["serve"],
    &["sample", "0"],
];

/// The scenario that is run with other words.
const SHORT_SCENARIO: &str = "sessions/put_then_get";

/// The scenarios that are run with calls that fail, and with memory for all.
const FAULTY_SCENARIOS: [&str; 3] = [
    SHORT_SCENARIO,
    "crashes_in_a_held_put/example",
    "moves/a_move_with_a_held_put",
];

/// The exit status of a script with a line that is refused.
const REFUSED: u8 = 2;

/// More than the calls of the source, and of the sink, of each of these.
const CALLS: usize = 128;

/// The limit of the processor that adds up to a limit.
const MOST_COUNTED: i64 = 1000;

/// How a script is given, and its transcript taken.
#[derive(Clone, Copy, Debug, PartialEq, Eq)]
enum Pieces {
    /// A few bytes a call.
    Small,
    /// As many as are asked for.
    Whole,
}

impl Pieces {
    /// The most bytes that a call of the source gives.
    fn most_read(self) -> usize
        ensures { 0 < result }
    {
        match self {
            Pieces::Small => SMALL_READ,
            Pieces::Whole => usize::MAX,
        }
    }

    /// The most bytes that a call of the sink takes.
    fn most_written(self) -> usize
        ensures { 0 < result }
    {
        match self {
            Pieces::Small => SMALL_WRITE,
            Pieces::Whole => usize::MAX,
        }
    }
}

/// Which calls of the source and of the sink fail.
#[derive(Debug, Drop)]
struct Fails {
    reads: Vec<u64>,
    writes: Vec<u64>,
}

impl Fails {
    fn none(alloc: Global) -> Fails {
        Fails {
            reads: Vec::new(alloc),
            writes: Vec::new(alloc),
        }
    }
}

/// The words as a command takes them.
fn owned(alloc: Global, words: &[&str]) -> io::Result<Vec<String>> {
    let mut all = Vec::new(alloc);
    for word in words {
        all.push(String::from_str(alloc, word)?)?;
    }
    Ok(all)
}

/// Carries out a command with these words on a script in memory, where these calls fail. The grid has the processors of
/// the program `grid`, by the same numbers.
fn carried_out(
    alloc: Global,
    words: &[&str],
    script: Vec<u8>,
    fails: Fails,
    pieces: Pieces,
) -> io::Result<(Status, Vec<u8>)> {
    let words = owned(alloc, words)?;
    let mut processors: Vec<Box<dyn Processor>> = Vec::with_capacity(alloc, 5)?;
    processors.push(Box::new(alloc, Add)?)?;
    processors.push(Box::new(alloc, AddUpTo(MOST_COUNTED))?)?;
    processors.push(Box::new(alloc, Append)?)?;
    processors.push(Box::new(alloc, SetIfGreater)?)?;
    processors.push(Box::new(alloc, Clear)?)?;
    let mut script = MemorySource::in_pieces(script, fails.reads, pieces.most_read());
    let mut out = MemorySink::in_pieces(fails.writes, pieces.most_written());
    let status = replay_command(alloc, words.as_slice(), processors, &mut script, &mut out);
    Ok((status, out.into_bytes()))
}

/// Carries out `replay` on a script in memory, where these calls fail.
fn replayed(
    alloc: Global,
    script: Vec<u8>,
    fails: Fails,
    pieces: Pieces,
) -> io::Result<(Status, Vec<u8>)> {
    carried_out(alloc, &["replay"], script, fails, pieces)
}

fn read_data(rt: &HostRuntime, name: &str, kind: &str) -> io::Result<Vec<u8>> {
    let path = format!(in rt.alloc(); "{name}.{kind}")?;
    fs::read(rt, path.as_str())
}

fn read_text(rt: &HostRuntime, name: &str, kind: &str) -> io::Result<String> {
    let path = format!(in rt.alloc(); "{name}.{kind}")?;
    fs::read_to_string(rt, path.as_str())
}

/// A script by its name, and what it has to print and to end with.
#[derive(Clone, Copy, Debug)]
struct Scenario<'a> {
    name: &'a str,
    script: &'a [u8],
    transcript: &'a [u8],
    /// The exit status.
    code: u8,
}

/// Does the script, in such pieces, print its transcript and end with its exit status? Where it doesn't, says so.
fn is_as_wanted(rt: &HostRuntime, scenario: Scenario<'_>, pieces: Pieces) -> io::Result<bool> {
    let alloc = rt.alloc();
    let name = scenario.name;
    let script = scenario.script.to_vec(alloc)?;
    let (status, text) = replayed(alloc, script, Fails::none(alloc), pieces)?;
    if let Some(difference) = first_difference(text.as_slice(), scenario.transcript) {
        let told = told_difference(alloc, name, scenario.script, difference)?;
        println!(rt; "{told}")?;
        return Ok(false);
    }
    if status.code() != scenario.code {
        println!(rt; "{name} ends with {}", status.code())?;
        return Ok(false);
    }
    Ok(true)
}

/// Runs a scenario in small pieces and in whole ones, and tells how it came out.
fn holds(rt: &HostRuntime, name: &str, code: u8) -> io::Result<bool> {
    let script = read_data(rt, name, "script")?;
    let transcript = read_data(rt, name, "transcript")?;
    let scenario = Scenario {
        name,
        script: script.as_slice(),
        transcript: transcript.as_slice(),
        code,
    };
    if !is_as_wanted(rt, scenario, Pieces::Small)? {
        return Ok(false);
    }
    if !is_as_wanted(rt, scenario, Pieces::Whole)? {
        return Ok(false);
    }
    println!(rt; "{name} ok")?;
    Ok(true)
}

/// Prints whether the check of this name held.
fn tell(rt: &HostRuntime, name: &str, held: bool) -> io::Result<bool> {
    println!(rt; "{name} {}", if held { "ok" } else { "differs" })?;
    Ok(held)
}

/// Prints whether a check of a scenario held.
fn tell_of(rt: &HostRuntime, name: &str, check: &str, held: bool) -> io::Result<bool> {
    let name = format!(in rt.alloc(); "{name} {check}")?;
    tell(rt, name.as_str(), held)
}

/// Which calls are made to fail.
#[derive(Clone, Copy, Debug, PartialEq, Eq)]
enum Failing {
    Reads,
    Writes,
}

impl Failing {
    /// The status with which a run ends at such a call.
    fn status(self) -> Status {
        match self {
            Failing::Reads => Status::ReadFault,
            Failing::Writes => Status::WriteFault,
        }
    }

    /// The call with this number fails, and no other.
    fn at(self, alloc: Global, call: usize) -> io::Result<Fails> {
        let one = vec![in alloc; call as u64]?;
        let none = Vec::new(alloc);
        Ok(match self {
            Failing::Reads => Fails {
                reads: one,
                writes: none,
            },
            Failing::Writes => Fails {
                reads: none,
                writes: one,
            },
        })
    }

    /// What is written before that call, where a script and its transcript go in small pieces.
    fn written_before<'a>(self, call: usize, script: &str, transcript: &'a str) -> &'a [u8] {
        match self {
            Failing::Reads => text_of_reads(script, transcript, call),
            Failing::Writes => text_of_writes(transcript, call),
        }
    }
}

/// Let each source call, or each sink call, of the scenario fail in turn, up to the last: does each run end with that fault,
/// with exactly what is written before that call? And does the run behind these, in which none fails, print the whole
/// transcript?
fn each_call_fails(rt: &HostRuntime, name: &str, failing: Failing) -> io::Result<bool> {
    let alloc = rt.alloc();
    let script = read_text(rt, name, "script")?;
    let transcript = read_text(rt, name, "transcript")?;
    let (script, transcript) = (script.as_str(), transcript.as_str());
    let mut held = true;
    for call in 0..CALLS {
        let bytes = script.as_bytes().to_vec(alloc)?;
        let (status, text) = replayed(alloc, bytes, failing.at(alloc, call)?, Pieces::Small)?;
        if status != failing.status() {
            let whole = status == Status::Done && text.as_slice() == transcript.as_bytes();
            return Ok(held && whole && 0 < call);
        }
        held &= text.as_slice() == failing.written_before(call, script, transcript);
    }
    Ok(false)
}

/// With memory for all, does the scenario end as done?
fn memory_suffices(rt: &HostRuntime, name: &str) -> io::Result<bool> {
    let alloc = rt.alloc();
    let script = read_data(rt, name, "script")?;
    let (status, _) = replayed(alloc, script, Fails::none(alloc), Pieces::Small)?;
    Ok(status == Status::Done)
}

/// Prints how many messages the bytes of a file complete, which come in pieces of that size.
fn tell_messages(rt: &HostRuntime, path: &str, size: &str) -> io::Result<ExitCode> {
    let Ok(size) = size.parse::<usize>() else {
        return Ok(ExitCode::from(1));
    };
    let stream = fs::read(rt, path)?;
    let count = count_messages(rt.alloc(), stream.as_slice(), size)?;
    println!(rt; "{count} messages")?;
    Ok(ExitCode::from(0))
}

/// The words after the program's name: none, or a file of a connection's bytes and the size of the pieces in which
/// they come.
fn main(rt: HostRuntime) -> io::Result<ExitCode> {
    let mut words = Vec::new(rt.alloc());
    for word in env::args(&rt)?.skip(1) {
        words.push(word)?;
    }
    match words.as_slice() {
        [path, size] => tell_messages(&rt, path.as_str(), size.as_str()),
        _ => run_scenarios(&rt),
    }
}

/// Runs all scenarios, and tells how each came out.
fn run_scenarios(rt: &HostRuntime) -> io::Result<ExitCode> {
    let mut held = true;
    for subject in SUBJECTS {
        held &= all_hold(rt, subject)?;
    }
    held &= lines_are_refused(rt, "first_lines", Place::First)?;
    held &= lines_are_refused(rt, "later_lines", Place::Second)?;
    for script in LONG_SCRIPTS {
        held &= long_script_holds(rt, script)?;
    }
    for script in MASTERS_SCRIPTS {
        held &= masters_script_holds(rt, script)?;
    }
    let refused = other_words_are_no_command(rt, SHORT_SCENARIO)?;
    held &= tell(rt, "other_words", refused)?;
    for name in FAULTY_SCENARIOS {
        held &= faults_and_memory(rt, name)?;
    }
    Ok(ExitCode::from(if held { 0 } else { 1 }))
}

/// Runs the scenarios of a subject, and tells how each came out.
fn all_hold(rt: &HostRuntime, subject: Subject) -> io::Result<bool> {
    let folder = subject.folder;
    let mut held = true;
    for (name, code) in subject.scenarios {
        let name = format!(in rt.alloc(); "{folder}/{name}")?;
        held &= holds(rt, name.as_str(), *code)?;
    }
    Ok(held)
}

/// Is the row's line refused in that place, for its cause?
fn is_refused(rt: &HostRuntime, name: &str, row: Row<'_>, place: Place) -> io::Result<bool> {
    let alloc = rt.alloc();
    let script = row.script(alloc, place)?;
    let transcript = row.transcript(alloc, place)?;
    let name = format!(in alloc; "{name} '{}'", row.line)?;
    let scenario = Scenario {
        name: name.as_str(),
        script: script.as_bytes(),
        transcript: transcript.as_bytes(),
        code: REFUSED,
    };
    is_as_wanted(rt, scenario, Pieces::Small)
}

/// Is each line of the table refused in that place, for its cause? Prints how it came out.
fn lines_are_refused(rt: &HostRuntime, name: &str, place: Place) -> io::Result<bool> {
    let table = fs::read_to_string(rt, format!(in rt.alloc(); "{name}.refused")?.as_str())?;
    let mut held = true;
    let mut rows = 0u64;
    for text in table.as_str().trim_end_matches('\n').split('\n') {
        held &= is_refused(rt, name, Row::read(text), place)?;
        rows = rows.saturating_add(1);
    }
    println!(rt; "{name} {rows} {}", if held { "ok" } else { "differ" })?;
    Ok(held)
}

/// Runs a script that is made up, and tells how it came out.
fn long_script_holds(rt: &HostRuntime, script: LongScript) -> io::Result<bool> {
    let alloc = rt.alloc();
    let text = script.script(alloc)?;
    let transcript = script.transcript(alloc)?;
    made_up_holds(rt, script.name, text, transcript, script.code)
}

/// Runs a script with masters that is made up, and tells how it came out.
fn masters_script_holds(rt: &HostRuntime, script: MastersScript) -> io::Result<bool> {
    let alloc = rt.alloc();
    let text = script.script(alloc)?;
    let transcript = script.transcript(alloc)?;
    made_up_holds(rt, script.name, text, transcript, script.code)
}

/// Runs the script of this name, which has to print this transcript and to end with this exit status, and tells how it came out.
fn made_up_holds(
    rt: &HostRuntime,
    name: &str,
    script: Vec<u8>,
    transcript: Vec<u8>,
    code: u8,
) -> io::Result<bool> {
    let scenario = Scenario {
        name,
        script: script.as_slice(),
        transcript: transcript.as_slice(),
        code,
    };
    let held = is_as_wanted(rt, scenario, Pieces::Whole)?;
    tell(rt, name, held)
}

/// With words that are no command, does a run of the scenario end as such, and print nothing?
fn other_words_are_no_command(rt: &HostRuntime, name: &str) -> io::Result<bool> {
    let alloc = rt.alloc();
    let mut held = true;
    for words in OTHER_WORDS {
        let script = read_data(rt, name, "script")?;
        let (status, text) = carried_out(alloc, words, script, Fails::none(alloc), Pieces::Whole)?;
        held &= status == Status::Usage && text.is_empty();
    }
    Ok(held)
}

/// Lets each call of a scenario's source and sink fail, and tells how that came out, and whether memory sufficed.
fn faults_and_memory(rt: &HostRuntime, name: &str) -> io::Result<bool> {
    let mut held = true;
    let told = each_call_fails(rt, name, Failing::Reads)?;
    held &= tell_of(rt, name, "each_source_call_fails", told)?;
    let told = each_call_fails(rt, name, Failing::Writes)?;
    held &= tell_of(rt, name, "each_sink_call_fails", told)?;
    let done = memory_suffices(rt, name)?;
    held &= tell_of(rt, name, "ample_memory", done)?;
    Ok(held)
}
