//! The words of a transcript in whole words.
ghost use Rattle.std.specs.Prelude.{◌≡◌, ◌≢◌, IfSome, IsNone};
ghost use Rattle.member_wire.specs.TookWords.{word_of};
ghost use Rattle.member_wire.specs.declared.took.Took.{Took as TookOf};

use member_wire::Took;

/// Each way in which a message is taken.
const WAYS: [Took; 13] = [
    Took::Adopted,
    Took::Synced,
    Took::Applied,
    Took::Bridged,
    Took::Acked,
    Took::Frozen,
    Took::Joined,
    Took::Drained,
    Took::Already,
    Took::Gap,
    Took::Other,
    Took::Stale,
    Took::Dropped,
];

/// The way in which a message was taken that has this word in a transcript.
pub fn took_of(word: &str) -> Option<Took>
    ensures found { IfSome result (λ took. word_of took ≡ word.now) }
    ensures none { IsNone result → (took : TookOf) → word_of took ≢ word.now }
{
    WAYS.iter().copied().find(|took| took.word() == word)
}

/// How a message was taken.
pub fn took_words(took: Took) -> &'static str {
    match took {
        Took::Adopted => "adopted",
        Took::Synced => "installed",
        Took::Applied => "applied",
        Took::Bridged => "bridged",
        Took::Acked => "counted",
        Took::Frozen => "taken: frozen",
        Took::Joined => "taken: the joiner may lead",
        Took::Drained => "taken: the source is drained",
        Took::Already => "known already",
        Took::Gap => "not taken: one before it is missing",
        Took::Other => "not taken: it isn't for the taker",
        Took::Stale => "not taken: it is of an earlier version",
        Took::Dropped => "dropped: the taker has crashed",
    }
}

/// What the bytes of a connection show that closes it, by the word that a transcript has for it.
pub fn fault_words(word: &str) -> &'static str {
    match word {
        "prefix" => "the bytes don't begin with CP2",
        "tooshort" => "a frame is shorter than its header",
        "toolong" => "a frame is too long",
        "badfragment" => "a fragment's header can't stand there",
        "openfragments" => "too many chains of fragments are open",
        "manyframes" => "a message has too many frames",
        "longmessage" => "a message is too long",
        "shortstart" => "a message's first frame is too short",
        "spent" => "no further message is counted",
        _ => "for a cause that has no words",
    }
}

/// Why a move, a join, a handover, a reopening or a plan was refused, by the word that a transcript has for it.
pub fn refused_words(word: &str) -> &'static str {
    match word {
        "lost" => "the partition is lost",
        "notidle" => "a move is under way",
        "notthere" => "the source isn't in the row as it would have to be",
        "alreadythere" => "the target is in the row",
        "notlive" => "the target is known to have crashed",
        "noteligible" => "the target may not lead",
        "notlost" => "the partition isn't lost",
        "nomember" => "every member is known to have crashed",
        _ => "for a cause that has no words",
    }
}
