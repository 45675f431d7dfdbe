//! What holds of every line. Nothing runs here.
ghost use Rattle.std.specs.Prelude.{◌≡◌};
ghost use Rattle.script_lang.specs.Limits.{most_bytes, most_lines, most_line_bytes};
ghost use Rattle.script_lang.specs.Spelling as spelling;

use crate::limits::{MOST_BYTES, MOST_LINE_BYTES, MOST_LINES};

/// Each line that keeps to its ranges is read from its spelling, and behind the first line whatever begins with `#`
/// is a comment.
pub fn lines_are_read_as_spelled()
    ensures lines { spelling.lines_are_read_as_spelled }
    ensures comments { spelling.comments_say_nothing }
{}

/// The limits are those of the definitions.
pub fn limits_are_as_defined()
    ensures bytes { MOST_BYTES ≡ most_bytes }
    ensures lines { MOST_LINES ≡ most_lines }
    ensures line_bytes { MOST_LINE_BYTES ≡ most_line_bytes }
{}
