ghost use Rattle.std.specs.Prelude.{◌≡◌, ◌≤◌, false, [], ◌∷◌, Ok, Err, length, IfOk, IsErrOf};
ghost use Rattle.script_lang.specs.Lines.{line_of, IsWithin, fields_of, values_of, line_of_fields, line_of_words, line_with as line_of_values, is_comment as begins_comment};
ghost use Rattle.script_lang.specs.Readings.{Reads, Fit};
ghost use Rattle.script_lang.specs.declared.reading.Value.TheVariants as Values;

use crate::fields::Field;
use crate::keywords::Keyword;
use crate::line::Line;
use crate::refusal::{LineRefused, LineWhy};
use crate::words::Words;
use arrayvec::ArrayVec;
use grid_base::{Bytes, MemberId, PartitionId};
use std::alloc::Global;

/// What a word behind the first says.
#[derive(Debug, Default, Drop)]
pub(crate) enum Value {
    Number(u64),
    /// The word `all`. It also stands in the places of `Values` that no word has.
    #[default]
    All,
    Bytes(Bytes),
}

/// The most words that a line has behind the first.
const MOST_FIELDS: usize = 4;

/// The values of a line's words, which take no memory beside their bytes.
type Values = ArrayVec<Value, MOST_FIELDS>;

/// A line that begins with `#` is a comment, except as the first line.
fn is_comment(text: &[u8], first: bool) -> bool
    ensures { result ≡ begins_comment first text.now }
{
    !first && matches!(text, [b'#', ..])
}

/// The values of the words from left to right.
fn read_values(
    alloc: Global,
    fields: &[Field],
    words: Words<'_>,
    members: u8,
) -> Result<Values, LineRefused>
    requires { length fields.now ≤ MOST_FIELDS }
    ensures { Reads (λ values. values.items) result (values_of members fields.now words.entry) }
{
    let mut values = ArrayVec::new();
    for (field, word) in fields.iter().zip(words) {
        values.push(field.read(alloc, word, members)?);
    }
    Ok(values)
}

/// The line that a keyword alone is.
fn line_with_none(keyword: Keyword) -> Result<Line, LineWhy>
    requires { Fit 255 (fields_of keyword) [] }
    ensures { result ≡ line_of_values keyword [] }
{
    match keyword {
        Keyword::Masters => Ok(Line::Masters),
        Keyword::End => Ok(Line::End),
        _ => Err(LineWhy::Count),
    }
}

/// The line that a keyword and a number are.
fn line_with_one(keyword: Keyword, number: u64) -> Result<Line, LineWhy>
    requires { Fit 255 (fields_of keyword) (Values.Number number ∷ []) }
    ensures { result ≡ line_of_values keyword (Values.Number number ∷ []) }
{
    match (keyword, number) {
        (Keyword::Crash, member) => Ok(Line::Crash {
            member: member as MemberId,
        }),
        (Keyword::Detect, member) => Ok(Line::Detect {
            member: member as MemberId,
        }),
        (Keyword::Advance, partition) => Ok(Line::Advance {
            partition: partition as PartitionId,
        }),
        (Keyword::Reopen, partition) => Ok(Line::Reopen {
            partition: partition as PartitionId,
        }),
        (Keyword::Rebalance, most) => Ok(Line::Rebalance { most: most as u32 }),
        (Keyword::Links, partition) => Ok(Line::Links {
            partition: partition as PartitionId,
        }),
        (Keyword::Trail, partition) => Ok(Line::Trail {
            partition: partition as PartitionId,
        }),
        _ => Err(LineWhy::Count),
    }
}

/// The line that a keyword and two numbers are.
fn line_with_two(keyword: Keyword, first: u64, second: u64) -> Result<Line, LineWhy>
    requires { Fit 255 (fields_of keyword) (Values.Number first ∷ Values.Number second ∷ []) }
    ensures { result ≡ line_of_values keyword (Values.Number first ∷ Values.Number second ∷ []) }
{
    match (keyword, first, second) {
        (Keyword::Open, conn, member) => Ok(Line::OpenConn {
            conn: conn as u32,
            member: member as MemberId,
        }),
        (Keyword::Clock, member, moment) => Ok(Line::Clock {
            member: member as MemberId,
            moment,
        }),
        (Keyword::Flow, partition, most) => Ok(Line::Flow {
            partition: partition as PartitionId,
            most: most as u32,
        }),
        (Keyword::Resend, partition, end) => Ok(Line::Resend {
            partition: partition as PartitionId,
            end: end as u8,
        }),
        (Keyword::Join, partition, to) => Ok(Line::Join {
            partition: partition as PartitionId,
            to: to as MemberId,
        }),
        (Keyword::Dump, partition, member) => Ok(Line::Dump {
            partition: partition as PartitionId,
            member: member as MemberId,
        }),
        (Keyword::NearFeed, conn, most) => Ok(Line::NearFeed {
            conn: conn as u32,
            most: most as u32,
        }),
        (Keyword::Told, member, crashed) => Ok(Line::Told {
            member: member as MemberId,
            crashed: crashed as MemberId,
        }),
        (Keyword::MasterResend, partition, member) => Ok(Line::MasterResend {
            partition: partition as PartitionId,
            member: member as MemberId,
        }),
        (Keyword::MasterFlow, partition, most) => Ok(Line::MasterFlow {
            partition: partition as PartitionId,
            most: most as u32,
        }),
        _ => Err(LineWhy::Count),
    }
}

/// The line that a keyword and three numbers are.
fn line_with_three(keyword: Keyword, first: u64, second: u64, third: u64) -> Result<Line, LineWhy>
    requires { Fit 255 (fields_of keyword) (Values.Number first ∷ Values.Number second ∷ Values.Number third ∷ []) }
    ensures { result ≡ line_of_values keyword (Values.Number first ∷ Values.Number second ∷ Values.Number third ∷ []) }
{
    match (keyword, first, second, third) {
        (Keyword::Grid, members, backups, capacity) => Ok(Line::Grid {
            members: members as u8,
            backups: backups as u8,
            capacity: capacity as u32,
        }),
        (Keyword::Move, partition, from, to) => Ok(Line::Move {
            partition: partition as PartitionId,
            from: from as MemberId,
            to: to as MemberId,
        }),
        (Keyword::Handover, partition, from, to) => Ok(Line::Handover {
            partition: partition as PartitionId,
            from: from as MemberId,
            to: to as MemberId,
        }),
        _ => Err(LineWhy::Count),
    }
}

/// The line that a keyword, a partition, the ends of a link and a place on it are.
fn line_of_link(
    keyword: Keyword,
    partition: u64,
    from: u64,
    to: u64,
    place: u64,
) -> Result<Line, LineWhy>
    requires { Fit 255 (fields_of keyword) (Values.Number partition ∷ Values.Number from ∷ Values.Number to ∷ Values.Number place ∷ []) }
    ensures { result ≡ line_of_values keyword (Values.Number partition ∷ Values.Number from ∷ Values.Number to ∷ Values.Number place ∷ []) }
{
    let partition = partition as PartitionId;
    let (from, to) = (from as u8, to as u8);
    let place = place as usize;
    match keyword {
        Keyword::Deliver => Ok(Line::Deliver {
            partition,
            from,
            to,
            place,
        }),
        Keyword::Lose => Ok(Line::Lose {
            partition,
            from,
            to,
            place,
        }),
        Keyword::Repeat => Ok(Line::Repeat {
            partition,
            from,
            to,
            place,
        }),
        Keyword::MasterDeliver => Ok(Line::MasterDeliver {
            partition,
            from,
            to,
            place,
        }),
        Keyword::MasterLose => Ok(Line::MasterLose {
            partition,
            from,
            to,
            place,
        }),
        _ => Err(LineWhy::Count),
    }
}

/// The line that a keyword, a connection and bytes are.
fn line_with_bytes(keyword: Keyword, conn: u64, bytes: Bytes) -> Result<Line, LineWhy>
    requires { Fit 255 (fields_of keyword) (Values.Number conn ∷ Values.Bytes bytes ∷ []) }
    ensures { result ≡ line_of_values keyword (Values.Number conn ∷ Values.Bytes bytes ∷ []) }
{
    let conn = conn as u32;
    match keyword {
        Keyword::Bytes => Ok(Line::Arrive { conn, bytes }),
        Keyword::NearGet => Ok(Line::NearGet { conn, key: bytes }),
        _ => Err(LineWhy::Count),
    }
}

/// The line that a keyword and its values are. Values that no line of the keyword has, which no words give, are refused as
/// too few or too many.
fn line_with(keyword: Keyword, values: Values) -> Result<Line, LineWhy>
    requires { Fit 255 (fields_of keyword) values.items }
    ensures { result ≡ line_of_values keyword values.items }
{
    let mut values = values.into_iter();
    match (values.next(), values.next(), values.next(), values.next()) {
        (None, ..) => line_with_none(keyword),
        (Some(Value::Number(one)), None, ..) => line_with_one(keyword, one),
        (Some(Value::Number(one)), Some(Value::Number(two)), None, _) => {
            line_with_two(keyword, one, two)
        }
        (Some(Value::Number(one)), Some(Value::Number(two)), Some(Value::Number(three)), None) => {
            line_with_three(keyword, one, two, three)
        }
        (
            Some(Value::Number(one)),
            Some(Value::Number(two)),
            Some(Value::Number(three)),
            Some(Value::Number(four)),
        ) => line_of_link(keyword, one, two, three, four),
        // Only `flow` goes through all.
        (Some(Value::All), Some(Value::Number(most)), ..) => {
            Ok(Line::FlowAll { most: most as u32 })
        }
        (Some(Value::Number(conn)), Some(Value::Bytes(bytes)), None, _) => {
            line_with_bytes(keyword, conn, bytes)
        }
        // Only `near` has a number behind bytes.
        (
            Some(Value::Number(conn)),
            Some(Value::Bytes(name)),
            Some(Value::Number(capacity)),
            None,
        ) => Ok(Line::Near {
            conn: conn as u32,
            name,
            capacity: capacity as u32,
        }),
        _ => Err(LineWhy::Count),
    }
}

/// The line that begins with a keyword and goes on with these words.
fn read_fields(
    alloc: Global,
    keyword: Keyword,
    words: Words<'_>,
    members: u8,
) -> Result<Line, LineRefused>
    ensures { Reads (λ line. line) result (line_of_fields members keyword words.entry) }
{
    let fields = keyword.fields();
    if words.left() != fields.len() {
        return Err(LineRefused::Why(LineWhy::Count));
    }
    let values = read_values(alloc, fields, words, members)?;
    line_with(keyword, values).map_err(LineRefused::Why)
}

/// The line that these words are.
fn read_words(
    alloc: Global,
    mut words: Words<'_>,
    first: bool,
    members: u8,
) -> Result<Line, LineRefused>
    ensures { Reads (λ line. line) result (line_of_words first members words.entry) }
{
    let Some(keyword) = words.next().and_then(Keyword::of_word) else {
        return Err(LineRefused::Why(LineWhy::Word));
    };
    if keyword.is_misplaced(first) {
        return Err(LineRefused::Why(LineWhy::NoGrid));
    }
    read_fields(alloc, keyword, words, members)
}

/// The line that a text is, without its newline, in a grid of `members` members; the first line of a script makes
/// the grid, and `members` doesn't count there. Costs the text's length.
pub fn read_line(alloc: Global, text: &[u8], first: bool, members: u8) -> Result<Line, LineRefused>
    requires { first ≡ false → (1 ≤ members) × (members ≤ 8) }
    ensures line { IfOk result (λ line. line_of first members text.now ≡ Ok line) }
    ensures within { IfOk result (λ line. IsWithin members (length text.now) line) }
    ensures why { (why : LineWhy) → IsErrOf result (LineRefused.Why why) → line_of first members text.now ≡ Err why }
{
    if is_comment(text, first) {
        return Ok(Line::Comment);
    }
    read_words(alloc, Words::of(text), first, members)
}
