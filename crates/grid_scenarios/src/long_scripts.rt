//! Scripts at the limits of a script's bytes and lines. They are made here, since their files would be large.

use grid_base::Memory;
use std::alloc::Global;
use std::io;

/// Each script's first line.
const FIRST_LINE: &[u8] = b"grid 1 0 10\n";

/// So many comments, each of so many bytes without its newline.
#[derive(Clone, Copy, Debug)]
struct Comments {
    lines: u32,
    bytes: usize,
}

/// A script: the first line, comments, and what stands behind them.
#[derive(Clone, Copy, Debug)]
pub(crate) struct LongScript {
    pub(crate) name: &'static str,
    comments: &'static [Comments],
    rest: &'static str,
    /// How many lines print `ok` and no more.
    printed: u32,
    /// What is printed behind them.
    closing: &'static str,
    /// The exit status.
    pub(crate) code: u8,
}

/// Comments that leave room for three bytes in a script of 16,777,216.
const ALL_BUT_3_BYTES: &[Comments] = &[
    Comments {
        lines: 255,
        bytes: 65_536,
    },
    Comments {
        lines: 1,
        bytes: 65_265,
    },
];

/// Each limit, and the script that just reaches it.
pub(crate) const LONG_SCRIPTS: [LongScript; 6] = [
    LongScript {
        name: "most_bytes",
        comments: ALL_BUT_3_BYTES,
        rest: "end",
        printed: 258,
        closing: "",
        code: 0,
    },
    // The newline that would let the end run is past the limit.
    LongScript {
        name: "limit_bytes",
        comments: ALL_BUT_3_BYTES,
        rest: "end\n",
        printed: 257,
        closing: "limit 258 bytes\n",
        code: 5,
    },
    LongScript {
        name: "most_lines",
        comments: &[Comments {
            lines: 199_998,
            bytes: 1,
        }],
        rest: "end\n",
        printed: 200_000,
        closing: "",
        code: 0,
    },
    LongScript {
        name: "limit_lines",
        comments: &[Comments {
            lines: 199_999,
            bytes: 1,
        }],
        rest: "end\n",
        printed: 200_000,
        closing: "limit 200001 lines\n",
        code: 5,
    },
    // One byte is past the script's bytes and the first of a line too many.
    LongScript {
        name: "limit_bytes_before_lines",
        comments: &[
            Comments {
                lines: 22_712,
                bytes: 82,
            },
            Comments {
                lines: 177_287,
                bytes: 83,
            },
        ],
        rest: "end\n",
        printed: 200_000,
        closing: "limit 200001 bytes\n",
        code: 5,
    },
    // One byte is past the script's bytes and past its line's.
    LongScript {
        name: "limit_bytes_before_line",
        comments: &[
            Comments {
                lines: 254,
                bytes: 65_536,
            },
            Comments {
                lines: 1,
                bytes: 65_269,
            },
            Comments {
                lines: 1,
                bytes: 65_537,
            },
        ],
        rest: "",
        printed: 256,
        closing: "limit 257 bytes\n",
        code: 5,
    },
];

/// A comment of so many bytes, and its newline.
fn comment(alloc: Global, bytes: usize) -> Result<Vec<u8>, Memory> {
    let mut comment = Vec::new(alloc);
    for _ in 0..bytes {
        comment.push(b'#')?;
    }
    comment.push(b'\n')?;
    Ok(comment)
}

impl Comments {
    fn append(self, alloc: Global, script: &mut Vec<u8>) -> Result<(), Memory> {
        let comment = comment(alloc, self.bytes)?;
        for _ in 0..self.lines {
            script.extend_from_slice(comment.as_slice())?;
        }
        Ok(())
    }
}

impl LongScript {
    pub(crate) fn script(self, alloc: Global) -> Result<Vec<u8>, Memory> {
        let mut script = Vec::from_slice(alloc, FIRST_LINE)?;
        for comments in self.comments {
            comments.append(alloc, &mut script)?;
        }
        script.extend_from_slice(self.rest.as_bytes())?;
        Ok(script)
    }

    pub(crate) fn transcript(self, alloc: Global) -> io::Result<Vec<u8>> {
        let mut text = Vec::new(alloc);
        for number in 0..self.printed {
            let line = format!(in alloc; "{} ok\n", number.saturating_add(1))?;
            text.extend_from_slice(line.as_bytes())?;
        }
        text.extend_from_slice(self.closing.as_bytes())?;
        Ok(text)
    }
}
