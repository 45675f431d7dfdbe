//! What happened, as the lines of an explanation.

use crate::happening::{Flight, Happening, PlanStep};
use client_words::{Form, Spoken};
use grid_base::{MemberId, Memory, PartitionId};
use run_words::took_words;

/// Where the happenings of a line are told.
#[derive(Clone, Copy)]
pub struct Place {
    /// The line's number, from 1.
    pub line: u32,
    /// How many members the grid has.
    pub members: u8,
    /// The partition that the line names; those of others are told.
    pub partition: Option<PartitionId>,
}

/// Appends a count and the word for what is counted.
fn push_count(out: &mut String, count: u64, word: &str) -> Result<(), Memory> {
    let end = if count == 1 { "" } else { "s" };
    write!(out, "{count} {word}{end}")
}

/// Appends a client's message, behind the word that says how its words are to be read.
fn push_spoken(out: &mut String, conn: u32, saying: &Spoken) -> Result<(), Memory> {
    let form = match saying.form {
        Form::Said => "say",
        Form::Heard => "heard",
        Form::Bytes => "bytes",
    };
    write!(out, "{form} {conn} ")?;
    out.push_str(saying.words.as_str())
}

/// Appends what a connection is told.
fn push_told(out: &mut String, conn: u32, words: &str) -> Result<(), Memory> {
    write!(out, "-> {conn} ")?;
    out.push_str(words)
}

/// Appends a step of a plan without its partition, and what became of it.
fn push_step(out: &mut String, step: PlanStep, end: &str) -> Result<(), Memory> {
    let word = if step.handover { "handover" } else { "move" };
    let PlanStep { from, to, .. } = step;
    write!(out, "{word} from {from} to {to}, {end}")
}

/// Appends a step of a plan that was run, without its partition.
fn push_stepped(out: &mut String, step: PlanStep, moving: bool, events: u32) -> Result<(), Memory> {
    let end = if moving {
        "under way after "
    } else {
        "done after "
    };
    push_step(out, step, end)?;
    push_count(out, u64::from(events), "event")
}

/// Appends what happened to a member, or in a partition by the table service; or what else a line came to.
fn push_table(out: &mut String, happening: &Happening) -> Result<(), Memory> {
    match happening {
        Happening::Clock { member, moment } => {
            write!(out, "the clock of member {member} stands at {moment}")
        }
        Happening::Crashed { member } => write!(out, "member {member} crashes"),
        Happening::Detected { member } => {
            write!(
                out,
                "the table service knows that member {member} has crashed"
            )
        }
        Happening::Row {
            partition,
            version,
            words,
            ..
        } => {
            write!(out, "row {version} of partition {partition}: ")?;
            out.push_str(words.as_str())
        }
        Happening::Freezing { partition } => {
            write!(out, "the source of partition {partition} is told to freeze")
        }
        Happening::Begun { partition } => {
            write!(out, "the handover of partition {partition} has begun")
        }
        happening => push_masters(out, happening),
    }
}

/// Appends what masters do, or what they published; or what else a line came to.
fn push_masters(out: &mut String, happening: &Happening) -> Result<(), Memory> {
    match happening {
        Happening::Masters { words } => out.push_str(words.as_str()),
        Happening::Published {
            partition,
            number,
            words,
        } => {
            write!(
                out,
                "decision {number} of partition {partition} is published: "
            )?;
            out.push_str(words.as_str())
        }
        happening => push_plan(out, happening),
    }
}

/// Appends what a plan says, or one of its steps; or what else a line came to.
fn push_plan(out: &mut String, happening: &Happening) -> Result<(), Memory> {
    match happening {
        Happening::Planned { steps, most } => {
            let run = (*steps).min(*most);
            out.push_str("plan of ")?;
            push_count(out, u64::from(*steps), "step")?;
            write!(out, ", of which {run} are run")
        }
        Happening::Stepped {
            step,
            moving,
            events,
        } => {
            let partition = step.partition;
            write!(out, "partition {partition}: ")?;
            push_stepped(out, *step, *moving, *events)
        }
        Happening::NotRun { step } => {
            let partition = step.partition;
            write!(out, "partition {partition}: ")?;
            push_step(out, *step, "not run")
        }
        Happening::Refused { why } => {
            out.push_str("refused: ")?;
            out.push_str(why)
        }
        happening => push_kept(out, happening),
    }
}

/// Appends what a member has, or what was called; or what else a line says.
fn push_kept(out: &mut String, happening: &Happening) -> Result<(), Memory> {
    match happening {
        Happening::Contents {
            partition,
            member,
            version,
            count,
        } => {
            write!(
                out,
                "member {member} has partition {partition} as {version}.{count}"
            )
        }
        Happening::Kept { words } => out.push_str(words.as_str()),
        Happening::History { words } => out.push_str(words.as_str()),
        happening => push_other(out, happening),
    }
}

/// Appends the grid that was made, or what else a line says.
fn push_other(out: &mut String, happening: &Happening) -> Result<(), Memory> {
    match happening {
        Happening::Made {
            members,
            backups,
            capacity,
        } => {
            out.push_str("grid of ")?;
            push_count(out, u64::from(*members), "member")?;
            out.push_str(" with ")?;
            push_count(out, u64::from(*backups), "backup")?;
            write!(out, " and queues of {capacity}")
        }
        Happening::Nothing { why } => {
            out.push_str("nothing: ")?;
            out.push_str(why)
        }
        Happening::Comment { text } => {
            out.push_str("#")?;
            out.push_str(text.as_str())
        }
        Happening::Ended => out.push_str("end"),
        _ => Ok(()),
    }
}

/// Appends that a member holds an answer.
fn push_held(out: &mut String, member: MemberId) -> Result<(), Memory> {
    write!(out, "held by member {member} for its backups")
}

/// Appends what clients said and were told; or what else happened.
fn push_client(out: &mut String, happening: &Happening) -> Result<(), Memory> {
    match happening {
        Happening::Heard { conn, saying, .. } => push_spoken(out, *conn, saying),
        Happening::Reached { member, .. } => push_held(out, *member),
        Happening::Answered { conn, words, .. } => push_told(out, *conn, words.as_str()),
        Happening::Event { conn, words } => push_told(out, *conn, words.as_str()),
        happening => push_waiter(out, happening),
    }
}

/// Appends what became of a call that waits; or what else happened.
fn push_waiter(out: &mut String, happening: &Happening) -> Result<(), Memory> {
    match happening {
        Happening::Waits { member, .. } => write!(out, "waits at member {member}"),
        Happening::Held {
            conn,
            number,
            member,
        } => {
            write!(out, "message {number} of connection {conn} ")?;
            push_held(out, *member)
        }
        Happening::Left { conn, number } => write!(
            out,
            "message {number} of connection {conn} leaves without an answer"
        ),
        happening => push_connection(out, happening),
    }
}

/// Appends what became of a connection; or what else happened.
fn push_connection(out: &mut String, happening: &Happening) -> Result<(), Memory> {
    match happening {
        Happening::Opened { conn, member } => {
            write!(out, "connection {conn} is open to member {member}")
        }
        Happening::Pieces { conn, count } => {
            push_count(out, *count as u64, "byte")?;
            write!(out, " on connection {conn}, and no message is whole yet")
        }
        Happening::Closed { conn, at, words } => {
            write!(out, "connection {conn} closes at byte {at}: {words}")
        }
        Happening::Near { conn, words } => {
            write!(out, "near {conn} ")?;
            out.push_str(words.as_str())
        }
        happening => push_table(out, happening),
    }
}

impl Place {
    /// Appends an end of a link.
    fn push_end(self, out: &mut String, end: u8) -> Result<(), Memory> {
        if end >= self.members {
            out.push_str("table")
        } else {
            write!(out, "{end}")
        }
    }

    /// Appends the ends of a link.
    fn push_link(self, out: &mut String, from: u8, to: u8) -> Result<(), Memory> {
        self.push_end(out, from)?;
        out.push_str(" to ")?;
        self.push_end(out, to)
    }

    /// Appends the partition in which something happened, where the line doesn't name it.
    fn push_partition(self, out: &mut String, partition: PartitionId) -> Result<(), Memory> {
        if self.partition == Some(partition) {
            return Ok(());
        }
        write!(out, " in partition {partition}")
    }

    /// Appends a message on its way, and what becomes of it.
    fn push_flight(self, out: &mut String, flight: &Flight, words: &str) -> Result<(), Memory> {
        self.push_link(out, flight.from, flight.to)?;
        out.push_str(" ")?;
        out.push_str(flight.letter.title.as_str())?;
        if !words.is_empty() {
            out.push_str(" ")?;
            out.push_str(words)?;
        }
        self.push_partition(out, flight.partition)?;
        if flight.letter.detail.is_empty() {
            return Ok(());
        }
        out.push_str(": ")?;
        out.push_str(flight.letter.detail.as_str())
    }

    /// Appends what happened: what became of a message between members, or something else.
    fn push_words(self, out: &mut String, happening: &Happening) -> Result<(), Memory> {
        match happening {
            Happening::Sent(flight) => self.push_flight(out, flight, "sent"),
            Happening::Delivered(flight, took) => self.push_flight(out, flight, took_words(*took)),
            Happening::Lost(flight) => self.push_flight(out, flight, "lost"),
            Happening::Repeated(flight) => self.push_flight(out, flight, "in flight once more"),
            Happening::At { flight, place } => {
                write!(out, "at place {place}: ")?;
                self.push_flight(out, flight, "")
            }
            happening => self.push_messages(out, happening),
        }
    }

    /// Appends what happened to several messages between members; or what else happened.
    fn push_messages(self, out: &mut String, happening: &Happening) -> Result<(), Memory> {
        match happening {
            Happening::SentMore {
                partition,
                from,
                to,
                count,
            } => {
                self.push_link(out, *from, *to)?;
                write!(out, ": {count} more sent")?;
                self.push_partition(out, *partition)
            }
            Happening::Resent { end } => {
                self.push_end(out, *end)?;
                out.push_str(" sends again what may have been lost")
            }
            Happening::Flowed { count } => {
                push_count(out, u64::from(*count), "message")?;
                out.push_str(" delivered")
            }
            Happening::InFlight { partition, count } => {
                write!(out, "{count} in flight in partition {partition}")
            }
            happening => push_client(out, happening),
        }
    }

    /// Appends what happened in a partition, which it doesn't name.
    pub(crate) fn push_in(
        self,
        out: &mut String,
        partition: PartitionId,
        happening: &Happening,
    ) -> Result<(), Memory> {
        let there = Place {
            partition: Some(partition),
            ..self
        };
        match happening {
            Happening::Row { version, words, .. } => {
                write!(out, "row {version}: ")?;
                out.push_str(words.as_str())
            }
            Happening::Published { number, words, .. } => {
                write!(out, "decision {number} is published: ")?;
                out.push_str(words.as_str())
            }
            Happening::Stepped {
                step,
                moving,
                events,
            } => push_stepped(out, *step, *moving, *events),
            Happening::NotRun { step } => push_step(out, *step, "not run"),
            happening => there.push_words(out, happening),
        }
    }

    /// Appends a line of what happened, if there is more to tell than what was told before.
    pub(crate) fn push(self, out: &mut String, happening: &Happening) -> Result<(), Memory> {
        if let Happening::Reached { held: false, .. } = happening {
            return Ok(());
        }
        let line = self.line;
        write!(out, "{line} ")?;
        self.push_words(out, happening)?;
        out.push_str("\n")
    }
}
