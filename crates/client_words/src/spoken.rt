//! A client's message, told in the words of a `say` line where they give its bytes again.
ghost use Rattle.std.specs.Prelude.{◌≡◌, ◌≢◌, pos, All, IfSome, IfOk, OnErr};
ghost use Rattle.std.specs.Int.{w64, int_wrapping_add};
ghost use Rattle.frame_codec.specs.Laws.{IsWithinLimits};
ghost use Rattle.compose_words.specs.Sayings.{bytes_of, IsPlaced};
ghost use Rattle.client_words.specs.Tellings.{IsSaidBy, CanBeSaid};

use crate::data::{partition_of_key, push_hex};
use crate::reading::read_saying;
use crate::sayings::push_saying;
use crate::spelling::spelled;
use compose_words::{MapWait, SayRefused, Saying, say};
use fixed_fields::int64_at;
use grid_base::{Bytes, Memory, PartitionId};
use message_frames::Message;
use queue_codecs::stated_partition;
use std::alloc::{AllocError, Global};

/// Where the first payload of a message has the correlation.
const CORRELATION: usize = 4;

/// How many bytes a message may have for one `bytes` line to bring it, with the connection's prefix: a line has 65,536
/// characters, and each byte two digits.
const MOST_SAID: usize = 32_760;

/// How many bytes its words may have for one `say` line, with its connection and a correlation.
const MOST_WORDS: usize = 65_500;

/// How a client's message is told.
#[derive(Clone, Copy, Debug, PartialEq, Eq)]
pub enum Form {
    /// A `say` line of its words gives the message's bytes.
    Said,
    /// It says this in another form, as in fragments or with bytes behind its fields, or is longer than a line may say.
    Heard,
    /// It is told as its bytes.
    Bytes,
}

/// A client's message in words.
#[derive(Debug, Drop)]
pub struct Spoken {
    pub form: Form,
    pub words: String,
    /// By which its answers name it.
    pub correlation: i64,
    /// The partition that it states, where it is a call.
    pub partition: Option<PartitionId>,
    /// Whether it is a call that may wait.
    pub waits: bool,
}

/// The bytes that a `say` line gives for a saying, if it gives any and they aren't too long for a line.
fn bytes_said(alloc: Global, correlation: i64, saying: &Saying) -> Result<Option<Bytes>, Memory>
    ensures { IfOk result (λ said. IfSome said (λ bytes. IsPlaced saying.now × (bytes ≡ bytes_of correlation saying.now))) }
{
    if !saying.is_placed() {
        return Ok(None);
    }
    match say(alloc, correlation, saying) {
        Ok(bytes) if bytes.len() > MOST_SAID => Ok(None),
        Ok(bytes) => Ok(Some(bytes)),
        Err(SayRefused::Memory) => Err(AllocError),
        Err(_) => Ok(None),
    }
}

/// Whether it is a call that may wait.
fn may_wait(saying: &Saying) -> bool {
    matches!(
        saying,
        Saying::WaitOnMap { .. } | Saying::WaitOnQueue { .. }
    )
}

/// The partition of a call, as it states it.
fn partition_called(message: &Message, saying: &Saying) -> Option<PartitionId> {
    match saying {
        Saying::OnMap(_)
        | Saying::OnQueue { .. }
        | Saying::WaitOnMap { .. }
        | Saying::WaitOnQueue { .. } => stated_partition(message),
        _ => None,
    }
}

/// Whether a call on an entry states its key's partition; what is no such call is at home anywhere.
fn is_at_home(message: &Message, saying: &Saying) -> bool {
    let key = match saying {
        Saying::OnMap(call) => call.key(),
        Saying::WaitOnMap {
            wait: MapWait::Lock { key, .. } | MapWait::Put { key, .. },
            ..
        } => key,
        _ => return true,
    };
    partition_of_key(key.as_slice()) == stated_partition(message)
}

/// The correlation of a message; 0 where it has none.
fn correlation_of(message: &Message) -> i64 {
    match message.frames.as_slice().first() {
        Some(first) => int64_at(first, CORRELATION).unwrap_or(0),
        None => 0,
    }
}

/// How a message is told that says this.
fn form_of(
    alloc: Global,
    message: &Message,
    saying: &Saying,
    correlation: i64,
) -> Result<Form, Memory>
    ensures { IfOk result (λ form. form ≡ Form.Said → All IsWithinLimits message.now.frames
        → IsSaidBy correlation saying.now message.now.frames) }
{
    let said = bytes_said(alloc, correlation, saying)?;
    let spelled = spelled(alloc, message.frames.as_slice())?;
    Ok(match said {
        Some(said) if said.as_slice() == spelled.as_slice() => Form::Said,
        _ if is_at_home(message, saying) => Form::Heard,
        _ => Form::Bytes,
    })
}

/// A message that is told as its bytes.
fn as_bytes(alloc: Global, message: &Message, correlation: i64) -> Result<Spoken, Memory>
    ensures { IfOk result (λ spoken. spoken.form ≡ Form.Bytes) }
{
    let bytes = spelled(alloc, message.frames.as_slice())?;
    let mut words = String::new(alloc);
    push_hex(alloc, &mut words, bytes.as_slice())?;
    Ok(Spoken {
        form: Form::Bytes,
        words,
        correlation,
        partition: None,
        waits: false,
    })
}

/// The form of a message whose words are so long: what is said fits a line.
fn form_within(form: Form, length: usize) -> Form
    ensures { result ≡ Form.Said → form ≡ Form.Said }
{
    if form == Form::Said && length > MOST_WORDS {
        Form::Heard
    } else {
        form
    }
}

/// A message that says this, in words or as its bytes.
fn told_as(
    alloc: Global,
    message: &Message,
    saying: &Saying,
    correlation: i64,
) -> Result<Spoken, Memory>
    ensures { IfOk result (λ spoken. spoken.form ≡ Form.Said → CanBeSaid spoken.correlation message.now.frames) }
{
    let form = form_of(alloc, message, saying, correlation)?;
    if form == Form::Bytes {
        return as_bytes(alloc, message, correlation);
    }
    let mut words = String::new(alloc);
    push_saying(alloc, &mut words, saying)?;
    Ok(Spoken {
        form: form_within(form, words.len()),
        words,
        correlation,
        partition: partition_called(message, saying),
        waits: may_wait(saying),
    })
}

/// A message in words, but for its correlation.
fn read_words(alloc: Global, message: &Message) -> Result<Spoken, Memory>
    ensures { IfOk result (λ spoken. spoken.form ≡ Form.Said → CanBeSaid spoken.correlation message.now.frames) }
{
    let correlation = correlation_of(message);
    match read_saying(alloc, message)? {
        Some(saying) => told_as(alloc, message, &saying, correlation),
        None => as_bytes(alloc, message, correlation),
    }
}

/// Appends a correlation, where the words don't give it by themselves.
fn push_correlation(
    out: &mut String,
    form: Form,
    correlation: i64,
    next: i64,
) -> Result<(), Memory> {
    if form == Form::Bytes || correlation == next {
        return Ok(());
    }
    write!(out, " as {correlation}")
}

/// A client's message in words, and whether it counts among the correlations that go up by themselves: `next` is the one
/// that a `say` line gives by itself there, and then the one behind the message's.
pub fn read_spoken(alloc: Global, message: &Message, next: &mut i64) -> Result<Spoken, Memory>
    ensures said { IfOk result (λ spoken. spoken.form ≡ Form.Said → CanBeSaid spoken.correlation message.now.frames) }
    ensures counted { IfOk result (λ spoken. spoken.form ≡ Form.Said → next.new ≡ int_wrapping_add w64 spoken.correlation (pos 1)) }
    ensures uncounted { IfOk result (λ spoken. spoken.form ≢ Form.Said → next.new ≡ next.old) }
    ensures err { OnErr result (next.new ≡ next.old) }
{
    let mut spoken = read_words(alloc, message)?;
    push_correlation(&mut spoken.words, spoken.form, spoken.correlation, *next)?;
    if spoken.form == Form::Said {
        *next = spoken.correlation.wrapping_add(1);
    }
    Ok(spoken)
}
