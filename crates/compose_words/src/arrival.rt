//! What is said, as a line of a script.
ghost use Rattle.std.specs.Prelude.{◌≡◌, ◌≢◌, ◌↔◌, ◌++◌, ◌∷◌, [], ◌<◌, ◌≤◌, OnOk, IsErrOf, length};
ghost use Rattle.hex.specs.Hex.{encode_lower};
ghost use Rattle.script_lang.specs.Words.{newline};
ghost use Rattle.script_lang.specs.Spelling.{spelled};
ghost use Rattle.script_lang.specs.declared.line.Line.TheVariants.{Arrive};
ghost use Rattle.compose_words.specs.Sayings.{bytes_of, IsPlaced, IsNamed, IsKeyed};
ghost use Rattle.compose_words.specs.Sessions.{Say};
ghost use Rattle.compose_words.specs.Lines.{arrival_line, opening, FitsLine};

use crate::message::say;
use crate::refusal::SayRefused;
use crate::saying::Saying;
use grid_base::Memory;
use itoa::Buffer;
use script_lang::MOST_LINE_BYTES;
use std::alloc::Global;

/// What a connection to a member begins with.
const PREFIX: &[u8] = b"CP2";

/// Appends bytes as hexadecimal digits.
fn write_hex(alloc: Global, bytes: &[u8], out: &mut Vec<u8>) -> Result<(), Memory>
    ensures { OnOk result (out.new.items ≡ out.old.items ++ encode_lower bytes.now) }
{
    let digits = hex::encode(alloc, bytes)?;
    Ok(out.extend_from_slice(digits.as_bytes())?)
}

/// Appends the line at which bytes arrive on a connection, with its newline. `Long` where it is longer than one may be.
/// After an `Err` it may stand in part.
pub fn write_arrival(
    alloc: Global,
    conn: u32,
    bytes: &[u8],
    out: &mut Vec<u8>,
) -> Result<(), SayRefused>
    ensures line { OnOk result (out.new.items ≡ out.old.items ++ arrival_line conn bytes.now) }
    ensures short { OnOk result (length (spelled (Arrive conn bytes.now)) ≤ MOST_LINE_BYTES) }
    ensures long { IsErrOf result SayRefused.Long → MOST_LINE_BYTES < length (spelled (Arrive conn bytes.now)) }
    ensures named { result ≢ Err SayRefused.Name }
    ensures keyed { result ≢ Err SayRefused.Key }
{
    let before = out.len();
    out.extend_from_slice(b"bytes ")?;
    out.extend_from_slice(Buffer::new().format(conn).as_bytes())?;
    out.extend_from_slice(b" ")?;
    write_hex(alloc, bytes, out)?;
    if out.len().saturating_sub(before) > MOST_LINE_BYTES {
        return Err(SayRefused::Long);
    }
    out.extend_from_slice(b"\n")?;
    Ok(())
}

/// The bytes that stand before a message: the prefix, where it is the first of its connection.
fn opening(begun: bool) -> &'static [u8]
    ensures { result.now ≡ opening begun }
{
    if begun { &[] } else { PREFIX }
}

/// Appends the line of a script at which this is said on a connection, which begins with the prefix where nothing was
/// said there before. Copies each name, key and value.
///
/// `Name`, `Key` and `Long` as `say` has them; `Long` also where the line is longer than one may be, its newline not
/// counted. After an `Err` the line may stand in part.
pub fn write_say_line(
    alloc: Global,
    conn: u32,
    begun: bool,
    correlation: i64,
    saying: &Saying,
    out: &mut Vec<u8>,
) -> Result<(), SayRefused>
    requires { IsPlaced saying.now }
    ensures line { OnOk result (out.new.items ≡ out.old.items ++ arrival_line conn (opening begun ++ bytes_of correlation saying.now)) }
    // Wherever the message's bytes come on a connection, its session makes of them exactly the item that this says.
    ensures heard { OnOk result (Say correlation saying.now (bytes_of correlation saying.now)) }
    ensures fits { OnOk result (FitsLine conn begun correlation saying.now) }
    ensures long { IsErrOf result SayRefused.Long → ¬ (FitsLine conn begun correlation saying.now) }
    ensures name { IsErrOf result SayRefused.Name ↔ ¬ (IsNamed saying.now) }
    ensures key { IsErrOf result SayRefused.Key ↔ (IsNamed saying.now × ¬ (IsKeyed saying.now)) }
{
    let message = say(alloc, correlation, saying)?;
    let mut bytes = Vec::from_slice(alloc, opening(begun))?;
    bytes.extend_from_slice(message.as_slice())?;
    write_arrival(alloc, conn, bytes.as_slice(), out)
}
