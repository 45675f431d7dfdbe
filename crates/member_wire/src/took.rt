ghost use Rattle.std.specs.Prelude.{◌≡◌};
ghost use Rattle.member_wire.specs.TookWords.{word_of};

use std::fmt;

/// How a message was taken, in one word.
#[derive(Clone, Copy, Debug, PartialEq, Eq)]
pub enum Took {
    /// A newer row was adopted.
    Adopted,
    /// Contents were installed whole.
    Synced,
    /// An effect was applied.
    Applied,
    /// The contents go on in the row's version as they are.
    Bridged,
    /// An acknowledgement was kept.
    Acked,
    /// The primary froze.
    Frozen,
    /// The joiner became eligible.
    Joined,
    /// The move's source is drained.
    Drained,
    /// The taker has it already, and acknowledges what it has.
    Already,
    /// What comes before it is missing.
    Gap,
    /// It is not for the taker as it stands.
    Other,
    /// It is of an earlier version, or was taken before.
    Stale,
    /// The taker has crashed.
    Dropped,
}

impl Took {
    /// The word that a transcript has for it.
    pub fn word(self) -> &'static str
        ensures { result.now ≡ word_of self }
    {
        match self {
            Took::Adopted => "adopted",
            Took::Synced => "synced",
            Took::Applied => "applied",
            Took::Bridged => "bridged",
            Took::Acked => "acked",
            Took::Frozen => "frozen",
            Took::Joined => "joined",
            Took::Drained => "drained",
            Took::Already => "already",
            Took::Gap => "gap",
            Took::Other => "other",
            Took::Stale => "stale",
            Took::Dropped => "dropped",
        }
    }
}

impl fmt::Display for Took {
    ghost use Rattle.std.specs.Prelude.{Some};
    ghost use Rattle.member_wire.specs.TookWords.{word_of};

    ghost output = { λ took. Some (word_of took) };

    fn fmt<W: fmt::Write>(&self, f: &mut fmt::Formatter<W>) -> fmt::Result {
        f.write_str(self.word())
    }
}
