ghost use Rattle.std.specs.Prelude.{◌≡◌, ◌↔◌, ◌<◌, ◌∷◌, length, IsNone, IfSome};
ghost use Rattle.std.specs.Option.{option_map};
ghost use Rattle.script_lang.specs.Words.{pieces_at, newline};
ghost use Rattle.transcript_checks.specs.Differences.{first_difference, differs_as, rest_lines, nth_line};

use memchr::memchr;
use std::alloc::Global;
use std::io;

/// A line that was printed in place of the one that is wanted.
#[derive(Clone, Copy, Debug, PartialEq, Eq)]
pub struct Difference<'a> {
    /// From 1.
    pub number: usize,
    /// Nothing where the text has ended.
    pub printed: &'a [u8],
    /// Nothing where the text has ended.
    pub wanted: &'a [u8],
}

/// The first line of a text, and what follows its newline, if it has one.
fn first_line(text: &[u8]) -> (&[u8], Option<&[u8]>)
    ensures lines { pieces_at newline text.now ≡ result.0.now ∷ rest_lines result.1 }
    ensures shorter { IfSome result.1 (λ rest. length rest.now < length text.now) }
{
    match memchr(b'\n', text) {
        None => (text, None),
        Some(at) => (&text[..at], Some(&text[at + 1..])),
    }
}

/// The first line in which a printed text differs from the wanted one, if they aren't the same.
pub fn first_difference<'a>(printed: &'a [u8], wanted: &'a [u8]) -> Option<Difference<'a>>
    ensures exact { option_map differs_as result ≡ first_difference printed.now wanted.now }
    ensures same { IsNone result ↔ (printed.now ≡ wanted.now) }
{
    compare_lines(printed, wanted)
}

/// Goes through both texts line by line, up to the first difference.
fn compare_lines<'a>(printed: &'a [u8], wanted: &'a [u8]) -> Option<Difference<'a>>
    ensures { option_map differs_as result ≡ first_difference printed.now wanted.now }
{
    let mut left = printed;
    let mut wanted_left = wanted;
    let mut number = 1;
    'lines: loop {
        let (line, rest) = first_line(left);
        let (wanted_line, wanted_rest) = first_line(wanted_left);
        if line != wanted_line {
            return Some(Difference {
                number,
                printed: line,
                wanted: wanted_line,
            });
        }
        number += 1;
        match (rest, wanted_rest) {
            (Some(rest), Some(wanted_rest)) => {
                left = rest;
                wanted_left = wanted_rest;
            }
            (Some(rest), None) => {
                return Some(Difference {
                    number,
                    printed: first_line(rest).0,
                    wanted: &[],
                });
            }
            (None, Some(wanted_rest)) => {
                return Some(Difference {
                    number,
                    printed: &[],
                    wanted: first_line(wanted_rest).0,
                });
            }
            (None, None) => return None,
        }
    }
}

/// The most bytes that are told of a line of a script.
const MOST_TOLD: usize = 100;

fn as_text(line: &[u8]) -> &str {
    str::from_utf8(line).unwrap_or("(no UTF-8)")
}

/// A line's front, as it is told.
fn told_front(line: &[u8]) -> &str {
    as_text(line.get(..MOST_TOLD).unwrap_or(line))
}

/// The line of a text with so many lines before it; nothing where the text has no more. Linear in the text before it.
fn nth_line(text: &[u8], before: usize) -> &[u8]
    ensures exact { result.now ≡ nth_line before (pieces_at newline text.now) }
{
    let mut left = text;
    let mut before_left = before;
    'lines: while 0 < before_left {
        match first_line(left).1 {
            None => return &[],
            Some(rest) => {
                left = rest;
                before_left -= 1;
            }
        }
    }
    first_line(left).0
}

/// The script's line of which a line of a transcript is: the number that it begins with, or the word behind `refused` and
/// `limit`.
fn script_line_of(told: &[u8]) -> Option<usize> {
    let (word, rest) = as_text(told).split_once(' ')?;
    if word == "refused" || word == "limit" {
        rest.split_once(' ')?.0.parse().ok()
    } else {
        word.parse().ok()
    }
}

/// The line of the script with so many before it, in its own words, below the comment above it, if there is one.
fn of_the_script(alloc: Global, script: &[u8], before: usize) -> io::Result<String> {
    let words = told_front(nth_line(script, before));
    let number = before.saturating_add(1);
    let above = match before.checked_sub(1) {
        None => &[],
        Some(above) => nth_line(script, above),
    };
    if above.starts_with(b"#") {
        let comment = as_text(above);
        Ok(format!(in alloc; "\n    {comment}\n    line {number} of the script: {words}")?)
    } else {
        Ok(format!(in alloc; "\n    line {number} of the script: {words}")?)
    }
}

/// What is told of a scenario whose transcript differs: the first line in which it does, and the script's line of it.
pub fn told_difference(
    alloc: Global,
    name: &str,
    script: &[u8],
    difference: Difference<'_>,
) -> io::Result<String> {
    let printed = as_text(difference.printed);
    let wanted = as_text(difference.wanted);
    let number = difference.number;
    let line = match script_line_of(difference.wanted) {
        None => script_line_of(difference.printed),
        Some(line) => Some(line),
    };
    let words = match line {
        None => String::new(alloc),
        Some(line) => of_the_script(alloc, script, line.saturating_sub(1))?,
    };
    Ok(format!(in alloc;
        "{name} differs in line {number}: '{printed}' in place of '{wanted}'{words}"
    )?)
}

#[cfg(test)]
mod tests {
    use super::*;
    use std::test::Fail;

    const SCRIPT: &[u8] = b"grid 1 0 10\n# connection 0 is opened\nopen 0 0\nend\n";

    const WANTED: &[u8] = b"1 ok\n2 ok\n3 ok\n4 ok\n";

    fn told(alloc: Global, printed: &[u8]) -> io::Result<String> {
        match first_difference(printed, WANTED) {
            None => String::from_str(alloc, "the same").map_err(io::Error::from),
            Some(difference) => told_difference(alloc, "put_then_get", SCRIPT, difference),
        }
    }

    #[test]
    fn the_same_text_has_no_difference(rt: HostRuntime) -> Result<(), Fail> {
        assert_eq!(rt; told(rt.alloc(), WANTED)?.as_str(), "the same");
        Ok(())
    }

    #[test]
    fn a_wrong_line_is_told_with_its_comment(rt: HostRuntime) -> Result<(), Fail> {
        assert_eq!(rt;
            told(rt.alloc(), b"1 ok\n2 ok\n3 nothing\n4 ok\n")?.as_str(),
            "put_then_get differs in line 3: '3 nothing' in place of '3 ok'\n    # connection 0 is opened\n    line 3 of the script: open 0 0"
        );
        Ok(())
    }

    #[test]
    fn a_line_too_few_is_told(rt: HostRuntime) -> Result<(), Fail> {
        assert_eq!(rt;
            told(rt.alloc(), b"1 ok\n2 ok\n3 ok\n")?.as_str(),
            "put_then_get differs in line 4: '' in place of '4 ok'\n    line 4 of the script: end"
        );
        Ok(())
    }

    #[test]
    fn a_line_too_many_is_told(rt: HostRuntime) -> Result<(), Fail> {
        assert_eq!(rt;
            told(rt.alloc(), b"1 ok\n2 ok\n3 ok\n4 ok\n5 ok\n")?.as_str(),
            "put_then_get differs in line 5: '5 ok' in place of ''\n    line 5 of the script: "
        );
        Ok(())
    }

    #[test]
    fn a_refusal_is_of_its_line(rt: HostRuntime) {
        assert_eq!(rt; script_line_of(b"refused 12 word"), Some(12));
        assert_eq!(rt; script_line_of(b"limit 3 line"), Some(3));
        assert_eq!(rt; script_line_of(b"7 to 0 00"), Some(7));
        assert_eq!(rt; script_line_of(b""), None);
    }
}
