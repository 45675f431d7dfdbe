//! Lines of a script as bytes.

ghost use Rattle.std.specs.Prelude.{◌≡◌, ◌++◌, ◌∷◌, [], map, decimal, OnOk};
ghost use Rattle.std.specs.List.{join_with_byte, flat_map};
ghost use Rattle.script_lang.specs.Words.{space, newline};
ghost use Rattle.script_lang.specs.declared.line.Line.TheVariants as line;
ghost use Rattle.workload_gen.specs.Script.{line_text};

use grid_base::Memory;
use itoa::Buffer;
use std::alloc::Global;

/// Appends numbers in decimal digits, each with a space before it.
fn write_numbers(numbers: &[u32], out: &mut Vec<u8>) -> Result<(), Memory>
    ensures { OnOk result (out.new.items ≡ out.old.items ++ flat_map (λ number. space ∷ decimal number) numbers.now) }
{
    let mut buffer = Buffer::new();
    for number in numbers {
        out.push(b' ')?;
        out.extend_from_slice(buffer.format(*number).as_bytes())?;
    }
    Ok(())
}

/// Appends a line of a keyword and numbers.
pub(crate) fn write_line(keyword: &[u8], numbers: &[u32], out: &mut Vec<u8>) -> Result<(), Memory>
    ensures { OnOk result (out.new.items ≡ out.old.items
        ++ (join_with_byte space (keyword.now ∷ map decimal numbers.now) ++ newline ∷ [])) }
{
    out.extend_from_slice(keyword)?;
    write_numbers(numbers, out)?;
    out.push(b'\n')?;
    Ok(())
}

/// Appends the line at which bytes arrive on a connection, in time and memory of their length.
pub(crate) fn write_arrival(
    alloc: Global,
    conn: u32,
    bytes: &[u8],
    out: &mut Vec<u8>,
) -> Result<(), Memory>
    ensures { OnOk result (out.new.items ≡ out.old.items ++ line_text (line.Arrive conn bytes.now)) }
{
    let digits = hex::encode(alloc, bytes)?;
    out.extend_from_slice(b"bytes")?;
    write_numbers(&[conn], out)?;
    out.push(b' ')?;
    out.extend_from_slice(digits.as_bytes())?;
    out.push(b'\n')?;
    Ok(())
}
