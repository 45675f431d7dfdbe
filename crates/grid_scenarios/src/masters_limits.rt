//! Scripts with masters at the limits of a log's decisions and of the messages on a link. They are made here, since their files
//! would be large.

use grid_base::Memory;
use std::alloc::Global;
use std::io;

/// What each of the repeated lines prints.
#[derive(Clone, Copy, Debug, PartialEq, Eq)]
enum Prints {
    /// Its proposal, whose decision is published at once, and that nothing comes of it.
    Decisions,
    /// `ok` and no more.
    Ok,
}

/// A script: the lines at its beginning, one line many times, and what stands behind it.
#[derive(Clone, Copy, Debug)]
pub(crate) struct MastersScript {
    pub(crate) name: &'static str,
    beginning: &'static str,
    /// What its beginning prints, and how many lines it has.
    begun: &'static str,
    lines: u32,
    repeated: &'static str,
    times: u32,
    prints: Prints,
    rest: &'static str,
    closing: &'static str,
    /// The exit status.
    pub(crate) code: u8,
}

/// Each limit, and the script that reaches it.
pub(crate) const MASTERS_SCRIPTS: [MastersScript; 2] = [
    // A log has 10,000 decisions. Another partition has a log of its own.
    MastersScript {
        name: "masters_full",
        beginning: "grid 1 0 10\nmasters\n",
        begun: "1 ok\n2 ok\n",
        lines: 2,
        repeated: "advance 5\n",
        times: 10_000,
        prints: Prints::Decisions,
        rest: "advance 5\njoin 5 0\nreopen 5\nadvance 6\nend\n",
        closing: "10003 refused full\n10004 refused full\n10005 refused full\n10006 proposed 1\n10006 published 6 1\n10006 nothing\n10007 ok\n",
        code: 0,
    },
    // A link between masters has 65,400 messages. One is lost and one comes anew; a line that looks at another partition, loses
    // what isn't there or sends once more below the limit goes on; the first that may send at the limit doesn't.
    MastersScript {
        name: "masters_inflight",
        beginning: "grid 2 0 10\nmasters\nhandover 5 1 0\n",
        begun: "1 ok\n2 ok\n3 proposed 1\n",
        lines: 3,
        repeated: "mresend 5 0\n",
        times: 65_399,
        prints: Prints::Ok,
        rest: "mlose 5 0 1 0\nmresend 5 0\nhandover 6 0 1\nmflow 6 9\nmlose 5 0 1 7\nmresend 5 0\nlinks 5\nmdeliver 5 0 1 0\nend\n",
        closing: "65403 ok\n65404 ok\n65405 proposed 1\n65406 flow 2\n65406 published 6 1\n65406 refused notthere\n65407 ok\n65408 ok\n65409 links 0\nlimit 65410 inflight\n",
        code: 5,
    },
];

impl MastersScript {
    pub(crate) fn script(self, alloc: Global) -> Result<Vec<u8>, Memory> {
        let mut script = Vec::from_slice(alloc, self.beginning.as_bytes())?;
        for _ in 0..self.times {
            script.extend_from_slice(self.repeated.as_bytes())?;
        }
        script.extend_from_slice(self.rest.as_bytes())?;
        Ok(script)
    }

    pub(crate) fn transcript(self, alloc: Global) -> io::Result<Vec<u8>> {
        let mut text = Vec::from_slice(alloc, self.begun.as_bytes())?;
        for number in 0..self.times {
            let line = self.repeated_line(alloc, number.saturating_add(1))?;
            text.extend_from_slice(line.as_bytes())?;
        }
        text.extend_from_slice(self.closing.as_bytes())?;
        Ok(text)
    }

    /// What the repeated line prints for this time, counted from 1.
    fn repeated_line(self, alloc: Global, time: u32) -> io::Result<String> {
        let line = self.lines.saturating_add(time);
        Ok(match self.prints {
            Prints::Decisions => {
                format!(in alloc;
                    "{line} proposed {time}\n{line} published 5 {time}\n{line} nothing\n"
                )?
            }
            Prints::Ok => format!(in alloc; "{line} ok\n")?,
        })
    }
}
