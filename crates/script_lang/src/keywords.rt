ghost use Rattle.std.specs.Prelude.{◌≡◌};
ghost use Rattle.script_lang.specs.Lines.{keyword_of, fields_of, is_misplaced as is_out_of_place};

use crate::fields::Field;

/// The word with which a line begins.
#[derive(Clone, Copy, Debug, PartialEq, Eq)]
pub(crate) enum Keyword {
    Grid,
    Open,
    Bytes,
    Clock,
    Deliver,
    Lose,
    Repeat,
    Flow,
    Resend,
    Crash,
    Detect,
    Move,
    Join,
    Handover,
    Advance,
    Reopen,
    Rebalance,
    Dump,
    Links,
    Trail,
    Near,
    NearGet,
    NearFeed,
    Masters,
    Told,
    MasterDeliver,
    MasterLose,
    MasterResend,
    MasterFlow,
    End,
}

/// How each line begins.
const KEYWORDS: [(&str, Keyword); 30] = [
    ("grid", Keyword::Grid),
    ("open", Keyword::Open),
    ("bytes", Keyword::Bytes),
    ("clock", Keyword::Clock),
    ("deliver", Keyword::Deliver),
    ("lose", Keyword::Lose),
    ("repeat", Keyword::Repeat),
    ("flow", Keyword::Flow),
    ("resend", Keyword::Resend),
    ("crash", Keyword::Crash),
    ("detect", Keyword::Detect),
    ("move", Keyword::Move),
    ("join", Keyword::Join),
    ("handover", Keyword::Handover),
    ("advance", Keyword::Advance),
    ("reopen", Keyword::Reopen),
    ("rebalance", Keyword::Rebalance),
    ("dump", Keyword::Dump),
    ("links", Keyword::Links),
    ("trail", Keyword::Trail),
    ("near", Keyword::Near),
    ("nearget", Keyword::NearGet),
    ("nearfeed", Keyword::NearFeed),
    ("masters", Keyword::Masters),
    ("told", Keyword::Told),
    ("mdeliver", Keyword::MasterDeliver),
    ("mlose", Keyword::MasterLose),
    ("mresend", Keyword::MasterResend),
    ("mflow", Keyword::MasterFlow),
    ("end", Keyword::End),
];

impl Keyword {
    /// The keyword that a word is, if it is one.
    pub(crate) fn of_word(word: &[u8]) -> Option<Keyword>
        ensures { result ≡ keyword_of word.now }
    {
        KEYWORDS
            .iter()
            .find(|(name, _)| name.as_bytes() == word)
            .map(|(_, keyword)| *keyword)
    }

    /// What the words behind it say.
    pub(crate) fn fields(self) -> &'static [Field]
        ensures { result.now ≡ fields_of self }
    {
        match self {
            Keyword::Grid => &[Field::Members, Field::Backups, Field::Capacity],
            Keyword::Open => &[Field::Connection, Field::Member],
            Keyword::Bytes | Keyword::NearGet => &[Field::Connection, Field::Hex],
            Keyword::Clock => &[Field::Member, Field::Moment],
            Keyword::Deliver
            | Keyword::Lose
            | Keyword::Repeat
            | Keyword::MasterDeliver
            | Keyword::MasterLose => {
                &[
                    Field::Partition,
                    Field::LinkEnd,
                    Field::LinkEnd,
                    Field::Place,
                ]
            }
            Keyword::Flow => &[Field::PartitionOrAll, Field::Deliveries],
            Keyword::Resend => &[Field::Partition, Field::LinkEnd],
            Keyword::Crash | Keyword::Detect => &[Field::Member],
            Keyword::Move | Keyword::Handover => &[Field::Partition, Field::Member, Field::Member],
            Keyword::Join | Keyword::Dump | Keyword::MasterResend => {
                &[Field::Partition, Field::Member]
            }
            Keyword::Advance | Keyword::Reopen | Keyword::Links | Keyword::Trail => {
                &[Field::Partition]
            }
            Keyword::Rebalance => &[Field::Steps],
            Keyword::Near => &[Field::Connection, Field::Hex, Field::Entries],
            Keyword::NearFeed => &[Field::Connection, Field::Amount],
            Keyword::Told => &[Field::Member, Field::Member],
            Keyword::MasterFlow => &[Field::Partition, Field::Deliveries],
            Keyword::Masters | Keyword::End => &[],
        }
    }

    /// Whether it can't stand where it stands: the grid's line is the first one, and no other is.
    pub(crate) fn is_misplaced(self, first: bool) -> bool
        ensures { result ≡ is_out_of_place first self }
    {
        first != (self == Keyword::Grid)
    }
}
