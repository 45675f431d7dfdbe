ghost use Rattle.std.specs.Prelude.{◌≡◌, IfOk};
ghost use Rattle.grid_edge.specs.Faults.{Rose};

use grid_base::Memory;
use grid_edge::Source;
use script_lang::MOST_BYTES;
use std::alloc::Global;

/// How many bytes are asked for at a time.
const PIECE: usize = 65_536;

/// What stands behind the bytes of a script that were read.
#[derive(Clone, Copy, Debug, PartialEq, Eq)]
pub enum ScriptEnd {
    /// Nothing.
    Whole,
    /// A byte past the limit of bytes.
    TooLong,
    /// The source had a fault.
    Fault,
}

/// The bytes of a script, up to the limit.
#[derive(Drop)]
pub struct Script {
    pub text: Vec<u8>,
    pub end: ScriptEnd,
}

/// Adds bytes of a script, up to the limit. Tells whether all had room.
fn add(text: &mut Vec<u8>, piece: &[u8]) -> Result<bool, Memory> {
    let room = MOST_BYTES.saturating_sub(text.len());
    let taken = piece.get(..room).unwrap_or(piece);
    text.extend_from_slice(taken)?;
    Ok(piece.len() <= room)
}

/// Reads a script through a buffer.
fn read_pieces<S: Source>(
    alloc: Global,
    buffer: &mut [u8],
    source: &mut S,
) -> Result<Script, Memory>
    ensures { IfOk result (λ script. script.end ≡ ScriptEnd.Fault → Rose (S.faults source.old) (S.faults source.new)) }
{
    let mut text = Vec::new(alloc);
    'pieces: for _ in 0..u64::MAX {
        let Ok(count) = source.read(buffer) else {
            return Ok(Script {
                text,
                end: ScriptEnd::Fault,
            });
        };
        if count == 0 {
            break;
        }
        if !add(&mut text, &buffer[..count])? {
            return Ok(Script {
                text,
                end: ScriptEnd::TooLong,
            });
        }
    }
    Ok(Script {
        text,
        end: ScriptEnd::Whole,
    })
}

/// Reads a script to its end, the limit, or a fault of the source. Costs its length.
pub fn read_script<S: Source>(alloc: Global, source: &mut S) -> Result<Script, Memory>
    // A fault is told only where the source had one.
    ensures { IfOk result (λ script. script.end ≡ ScriptEnd.Fault → Rose (S.faults source.old) (S.faults source.new)) }
{
    let mut buffer = vec![in alloc; 0u8; PIECE]?;
    read_pieces(alloc, buffer.as_mut_slice(), source)
}
