//! The program: `grid replay` runs a script and prints its transcript, `grid compose` writes a script of words, `grid explain`
//! tells a script's run in words and `grid draw` draws it, `grid sample` runs a script that is made from a number, and `grid
//! serve` serves clients.
#![tactic(auto)]

ghost use Rattle.std.specs.Prelude.{◌≡◌, map, IfOk};
ghost use Rattle.entry_processors.specs.Forms.{form_of};

mod progress;
mod telling_doors;

use crate::progress::Progress;
use crate::telling_doors::TellingDoors;
use compose_lines::compose_command;
use entry_processors::{Add, AddUpTo, Append, Clear, Form, Processor, SetIfGreater};
use explain_run::explain_command;
use grid_base::Memory;
use grid_cli::Status;
use grid_edge::{Clock, Doors, StdClock, StdSink, StdSource};
use grid_sample::Watch;
use grid_server::grid_top;
use run_chart::draw_command;
use serve_options::{OptionsRefused, help_of_serve, read_options, why_refused};
use std::alloc::Global;
use std::io::ErrorKind;
use std::process::ExitCode;
use std::sync::Wait;
use std::thread::Threads;
use std::{env, io};
use tcp_edge::TcpDoors;

/// The words that are commands.
const USAGE: &str = "\
usage: grid replay < SCRIPT             runs a script and prints its transcript
       grid compose < WORDS             writes the script that words stand for
       grid explain < SCRIPT            runs a script and tells in words what happens
       grid draw < SCRIPT > PICTURE     runs a script and draws what happens, as SVG
       grid sample NUMBER               runs a large script that is made from the number, and counts calls
       grid serve [OPTIONS] < CONTROL   serves clients; grid serve --help has the options
       grid --help                      prints this
       grid --version                   prints the version";

const VERSION: &str = "grid 0.1.0";

/// The limit of the processor that adds up to a limit.
const MOST_COUNTED: i64 = 1000;

/// What the words after the program's name ask for.
#[derive(Clone, Copy, Debug)]
enum Request {
    Help,
    /// The options of a server.
    ServeHelp,
    Version,
    /// Words to be composed.
    Compose,
    /// A command that runs with the grid's processors.
    Run(Run),
}

/// A command that runs with the grid's processors.
#[derive(Clone, Copy, Debug)]
enum Run {
    Explain,
    Draw,
    /// Another command, or words that are none.
    Top,
}

fn is_serve(words: &[String]) -> bool {
    match words {
        [word, ..] => word.as_str() == "serve",
        [] => false,
    }
}

/// Whether these are words of a server that ask for help before anything in them is wrong.
fn ask_for_help(alloc: Global, words: &[String]) -> bool {
    is_serve(words) && read_options(alloc, words) == Err(OptionsRefused::Help)
}

impl Request {
    fn of(alloc: Global, words: &[String]) -> Request {
        if ask_for_help(alloc, words) {
            return Request::ServeHelp;
        }
        let (command, word) = match words {
            [word] => ("", word.as_str()),
            [command, word] => (command.as_str(), word.as_str()),
            _ => return Request::Run(Run::Top),
        };
        match (command, word) {
            ("" | "replay" | "compose" | "explain" | "draw" | "sample", "--help" | "-h") => {
                Request::Help
            }
            ("" | "replay" | "compose" | "explain" | "draw" | "sample" | "serve", "--version") =>
                Request::Version,
            ("", "compose") => Request::Compose,
            ("", "explain") => Request::Run(Run::Explain),
            ("", "draw") => Request::Run(Run::Draw),
            _ => Request::Run(Run::Top),
        }
    }
}

/// The words after the program's name. Their reading fails for want of memory, or where one isn't text.
fn words(rt: &HostRuntime) -> io::Result<Vec<String>> {
    let mut words = Vec::new(rt.alloc());
    for word in env::args(rt)?.skip(1) {
        words.push(word)?;
    }
    Ok(words)
}

/// Appends a processor, and its form to the forms.
fn enrol(
    processors: &mut Vec<Box<dyn Processor>>,
    forms: &mut Vec<Form>,
    processor: Box<dyn Processor>,
    its: Form,
) -> Result<(), Memory>
    requires forms { map form processors.old.items ≡ map form_of forms.old.items }
    requires its { form processor ≡ form_of its }
    ensures { IfOk result (λ _. map form processors.new.items ≡ map form_of forms.new.items) }
{
    processors.push(processor)?;
    forms.push(its)?;
    Ok(())
}

/// Carries out a command with the grid's processors, whose numbers go from 1; another one by these words.
fn carry_out<R, C, D, W>(
    rt: &R,
    alloc: Global,
    run: Run,
    words: &[String],
    script: &mut StdSource,
    out: &mut StdSink,
    clock: &mut C,
    doors: &mut D,
    watch: &W,
) -> Result<Status, Memory>
where
    R: Threads + Wait + Sync,
    C: Clock + Send,
    D: Doors<From: Drop, To: Drop, Waker: Drop>,
    W: Watch,
{
    let mut list: Vec<Box<dyn Processor>> = Vec::new(alloc);
    let mut forms = Vec::new(alloc);
    enrol(&mut list, &mut forms, Box::new(alloc, Add)?, Form::Add)?;
    enrol(
        &mut list,
        &mut forms,
        Box::new(alloc, AddUpTo(MOST_COUNTED))?,
        Form::AddUpTo(MOST_COUNTED),
    )?;
    enrol(
        &mut list,
        &mut forms,
        Box::new(alloc, Append)?,
        Form::Append,
    )?;
    enrol(
        &mut list,
        &mut forms,
        Box::new(alloc, SetIfGreater)?,
        Form::SetIfGreater,
    )?;
    enrol(&mut list, &mut forms, Box::new(alloc, Clear)?, Form::Clear)?;
    let forms = forms.as_slice();
    Ok(match run {
        Run::Explain => explain_command(alloc, list, script, out),
        Run::Draw => draw_command(alloc, list, script, out),
        Run::Top => {
            let ended = grid_top(
                rt, alloc, words, list, forms, script, out, clock, doors, watch,
            );
            ended.status
        }
    })
}

/// Prints a text and a newline to standard output.
fn print(rt: &HostRuntime, text: &str) -> Status {
    match rt.println(text) {
        Ok(()) => Status::Done,
        Err(_) => Status::WriteFault,
    }
}

/// Prints the options of a server.
fn print_options(rt: &HostRuntime) -> Status {
    match help_of_serve(rt.alloc()) {
        Ok(help) => print(rt, help.as_str().trim_end()),
        Err(_) => Status::Memory,
    }
}

/// What standard error is told: the cause of a status that no transcript tells.
fn cause(status: Status) -> Option<&'static str> {
    match status {
        Status::Usage => Some(USAGE),
        Status::ReadFault => Some("grid: standard input can't be read"),
        Status::WriteFault => Some("grid: standard output can't be written"),
        Status::DoorFault => Some("grid: the doors failed"),
        Status::Memory => Some("grid: out of memory"),
        Status::Done | Status::ScriptRefused { .. } | Status::Limit { .. } => None,
    }
}

/// Whether these are words of a command that starts threads.
fn starts_threads(words: &[String]) -> bool {
    match words {
        [word, ..] => word.as_str() == "serve" || word.as_str() == "sample",
        [] => false,
    }
}

/// What standard error is told where a command that starts threads ended for want of memory, which a thread takes too.
const WANT_OF_THREADS: &str = "grid: out of memory or of threads";

/// Tells standard error why the program ended so. Where it takes nothing, the exit status alone tells it.
fn tell_cause(rt: &HostRuntime, words: &[String], status: Status) {
    if status == Status::Usage
        && is_serve(words)
        && let Ok(Some(why)) = why_refused(rt.alloc(), words)
    {
        let _ = rt.eprintln(why.as_str().trim_end());
    } else if status == Status::Memory && starts_threads(words) {
        let _ = rt.eprintln(WANT_OF_THREADS);
    } else if let Some(cause) = cause(status) {
        let _ = rt.eprintln(cause);
    }
}

/// What a program comes to whose words can't be read.
fn unread(error: &io::Error) -> Status {
    match error.kind() {
        ErrorKind::OutOfMemory => Status::Memory,
        _ => Status::Usage,
    }
}

fn main(rt: HostRuntime) -> ExitCode {
    let alloc = rt.alloc();
    let (words, request) = match words(&rt) {
        Ok(words) => {
            let request = Request::of(alloc, words.as_slice());
            (words, Ok(request))
        }
        Err(error) => (Vec::new(alloc), Err(unread(&error))),
    };
    let words = words.as_slice();
    let (mut script, mut out) = (StdSource::new(rt.stdin()), StdSink::new(rt.stdout()));
    let mut clock = StdClock::new(&rt);
    let mut doors = TellingDoors::new(TcpDoors::new(&rt), &rt);
    let progress = Progress::new(rt.stderr());
    let status = match request {
        Ok(Request::Help) => print(&rt, USAGE),
        Ok(Request::ServeHelp) => print_options(&rt),
        Ok(Request::Version) => print(&rt, VERSION),
        Ok(Request::Compose) => compose_command(alloc, &mut script, &mut out),
        Ok(Request::Run(run)) => carry_out(
            &rt,
            alloc,
            run,
            words,
            &mut script,
            &mut out,
            &mut clock,
            &mut doors,
            &progress,
        )
        .unwrap_or(Status::Memory),
        Err(status) => status,
    };
    tell_cause(&rt, words, status);
    ExitCode::from(status.code())
}
