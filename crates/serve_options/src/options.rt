ghost use Rattle.std.specs.Prelude.{◌≡◌, ◌↔◌, [], None, IfOk, IfErr};
ghost use Rattle.serve_options.specs.Options.{AreInRange, AreOptions, IsRefusedFor, faults};

use crate::command::serve_command;
use crate::refusal::OptionsRefused;
use clap::error::ErrorKind;
use grid_base::Memory;
use std::alloc::{AllocError, Global};

/// How a server is set up.
#[derive(Clone, Copy, Debug, PartialEq, Eq)]
pub struct ServeOptions {
    /// How many members the grid has, from 1 to 8.
    pub members: u8,
    /// How many backups a partition has at most, from 0 to 6.
    pub backups: u8,
    /// How many values a queue may have, from 0 to 2,147,483,647.
    pub capacity: u32,
    /// The port of member 0, from 1 to 65,528; member m listens at this port plus m.
    pub port: u16,
    /// The server goes on once its control script has ended.
    pub stays: bool,
}

/// Reads the options behind the first word, which stands for the command and is passed over. An error comes of the
/// first fault that `clap` finds in the words, or of want of memory. Costs the words.
pub fn read_options(alloc: Global, words: &[String]) -> Result<ServeOptions, OptionsRefused>
    ensures options { IfOk result (AreOptions words.now) }
    ensures ranges { IfOk result AreInRange }
    ensures taken { IfOk result (λ _. faults words.now ≡ []) }
    ensures refused { IfErr result (IsRefusedFor (faults words.now)) }
{
    let matches = serve_command(alloc)?.try_get_matches_from(words)?;
    Ok(ServeOptions {
        members: matches.get_one("members").unwrap(),
        backups: matches.get_one("backups").unwrap(),
        capacity: matches.get_one("capacity").unwrap(),
        port: matches.get_one("port").unwrap(),
        stays: matches.get_one("stay") == Some(true),
    })
}

/// What a person is told of words that aren't options: what is wrong with them, or the help that they ask for. Nothing
/// of words that are. Costs the words and the text.
pub fn why_refused(alloc: Global, words: &[String]) -> Result<Option<String>, Memory>
    ensures { IfOk result (λ text. (text ≡ None) ↔ (faults words.now ≡ [])) }
{
    let Err(error) = serve_command(alloc)?.try_get_matches_from(words) else {
        return Ok(None);
    };
    if error.kind() == ErrorKind::OutOfMemory {
        return Err(AllocError);
    }
    Ok(Some(format!(in alloc; "{error}")?))
}
