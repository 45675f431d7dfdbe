use crate::decision::Decision;

/// What masters and members say to one another of one partition.
#[derive(Debug, Drop)]
pub enum MasterMessage {
    /// The serving master of that term has this log, which is to be stored.
    Store { term: u8, log: Vec<Decision> },
    /// The sender has so many decisions, in answer to a `Store` of that term.
    Stored { term: u8, length: u32 },
    /// The gathering master of that term asks for the taker's log.
    Ask { term: u8 },
    /// The sender's log, in answer to an `Ask` of that term.
    Tell { term: u8, log: Vec<Decision> },
}
