//! Texts as they stand in SVG.
ghost use Rattle.std.specs.Prelude.{◌≡◌, ◌++◌, OnOk, string_bytes};
ghost use Rattle.std.specs.List.{flat_map};
ghost use Rattle.std.specs.Str.{chars};
ghost use Rattle.svg_picture.specs.Markup.{can_stand, escaped_char};

use std::alloc::AllocError;

/// Whether XML lets a character stand in a text, and it is no control character.
fn can_stand(c: char) -> bool
    ensures { result ≡ can_stand c }
{
    let code = u32::from(c);
    code == 10 || code >= 32 && code != 127 && code != 0xfffe && code != 0xffff
}

/// Appends a character so that it stands for itself; one that can't stand in a text as U+FFFD.
fn push_char(out: &mut String, c: char) -> Result<(), AllocError>
    ensures { OnOk result (string_bytes out.new ≡ string_bytes out.old ++ escaped_char c) }
{
    if c == '&' {
        out.push_str("&amp;")
    } else if c == '<' {
        out.push_str("&lt;")
    } else if c == '>' {
        out.push_str("&gt;")
    } else if can_stand(c) {
        out.push(c)
    } else {
        out.push('\u{fffd}')
    }
}

/// Appends a text so that it stands for itself.
pub(crate) fn push_escaped(out: &mut String, text: &str) -> Result<(), AllocError>
    ensures { OnOk result (string_bytes out.new ≡ string_bytes out.old ++ flat_map escaped_char (chars text.now)) }
{
    for c in text.chars() {
        push_char(out, c)?;
    }
    Ok(())
}
