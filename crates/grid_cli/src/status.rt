ghost use Rattle.std.specs.Prelude.{◌≡◌};
ghost use Rattle.grid_cli.specs.Statuses.{exit_status};

use script_lang::LineWhy;

/// Which limit a script went past.
#[derive(Clone, Copy, Debug, PartialEq, Eq)]
pub enum LimitWhat {
    /// The script's bytes.
    Bytes,
    /// Its lines.
    Lines,
    /// The bytes of a line.
    Line,
    /// The messages in flight on a link of a partition.
    InFlight,
}

/// How a command ended.
#[derive(Clone, Copy, Debug, PartialEq, Eq)]
pub enum Status {
    /// The script was read to its line `end`.
    Done,
    /// The words are no command. Nothing was read or written.
    Usage,
    /// That line is the first that doesn't run, or the script stopped at it without a line `end`.
    ScriptRefused { line: u32, why: LineWhy },
    ReadFault,
    WriteFault,
    Limit { what: LimitWhat },
    /// The doors of a server failed. A replay has none.
    DoorFault,
    /// Want of memory.
    Memory,
}

impl Status {
    /// The exit status of the program.
    pub fn code(self) -> u8
        ensures { result ≡ exit_status self }
    {
        match self {
            Status::Done => 0,
            Status::Usage => 1,
            Status::ScriptRefused { .. } => 2,
            Status::ReadFault => 3,
            Status::WriteFault => 4,
            Status::Limit { .. } => 5,
            Status::DoorFault => 6,
            Status::Memory => 7,
        }
    }
}
