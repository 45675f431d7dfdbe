//! Fronts of a transcript: what is written of it before a call of the source or of the sink fails.

/// The most bytes that a call of the source gives in small pieces.
pub const SMALL_READ: usize = 64;

/// The most bytes that a call of the sink takes in small pieces.
pub const SMALL_WRITE: usize = 16;

/// The line of the script that a line of its transcript is of, by which that begins.
fn number_of(printed: &str) -> u64 {
    match printed.split_once(' ') {
        Some((number, _)) => number.parse().unwrap_or(u64::MAX),
        None => u64::MAX,
    }
}

/// How many bytes a line of a text has, with its newline.
fn bytes_of(line: &str) -> usize {
    line.len().saturating_add(1)
}

/// Where the text of that many lines of a script ends in its transcript.
fn end_of_lines(transcript: &str, lines: u64) -> usize {
    let mut end = 0usize;
    for printed in transcript.split('\n') {
        if number_of(printed) > lines {
            break;
        }
        end = end.saturating_add(bytes_of(printed));
    }
    end
}

/// The line of the script in whose text this place of the transcript stands.
fn line_at(transcript: &str, place: usize) -> u64 {
    let mut end = 0usize;
    for printed in transcript.split('\n') {
        end = end.saturating_add(bytes_of(printed));
        if place < end {
            return number_of(printed);
        }
    }
    u64::MAX
}

/// The front of a text that ends there, or the whole text.
fn front(text: &str, end: usize) -> &[u8] {
    text.as_bytes().get(..end).unwrap_or(text.as_bytes())
}

/// What is written once that many calls gave a script's bytes in small pieces: the text of the lines that are whole in
/// them.
pub fn text_of_reads<'a>(script: &str, transcript: &'a str, calls: usize) -> &'a [u8] {
    let read = front(script, calls.saturating_mul(SMALL_READ));
    let mut lines = 0u64;
    for byte in read {
        if *byte == b'\n' {
            lines = lines.saturating_add(1);
        }
    }
    front(transcript, end_of_lines(transcript, lines))
}

/// What that many calls have taken of a transcript in small pieces, of which none goes past the text of a line of the
/// script.
pub fn text_of_writes(transcript: &str, calls: usize) -> &[u8] {
    let mut end = 0usize;
    for _ in 0..calls {
        let line_end = end_of_lines(transcript, line_at(transcript, end));
        end = line_end.min(end.saturating_add(SMALL_WRITE));
    }
    front(transcript, end)
}

#[cfg(test)]
mod tests {
    use super::*;

    const SCRIPT: &str =
        "grid 1 0 10\nopen 0 0\n# a comment as long as a piece of what is read, and more\nend\n";

    const TRANSCRIPT: &str = "1 ok\n2 ok\n3 ok\n4 ok\n4 entry 5 0 0 1\n";

    #[test]
    fn whole_lines_of_what_is_read_are_written(rt: HostRuntime) {
        assert_eq!(rt; text_of_reads(SCRIPT, TRANSCRIPT, 0), b"".as_slice());
        assert_eq!(rt;
            text_of_reads(SCRIPT, TRANSCRIPT, 1),
            b"1 ok\n2 ok\n".as_slice()
        );
        assert_eq!(rt; text_of_reads(SCRIPT, TRANSCRIPT, 2), TRANSCRIPT.as_bytes());
    }

    #[test]
    fn a_write_takes_of_one_line(rt: HostRuntime) {
        assert_eq!(rt; text_of_writes(TRANSCRIPT, 0), b"".as_slice());
        assert_eq!(rt; text_of_writes(TRANSCRIPT, 2), b"1 ok\n2 ok\n".as_slice());
        assert_eq!(rt;
            text_of_writes(TRANSCRIPT, 4),
            b"1 ok\n2 ok\n3 ok\n4 ok\n4 entry 5 0".as_slice()
        );
        assert_eq!(rt; text_of_writes(TRANSCRIPT, 5), TRANSCRIPT.as_bytes());
    }
}
