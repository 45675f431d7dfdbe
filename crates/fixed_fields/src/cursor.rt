ghost use Rattle.std.specs.Prelude.{◌≡◌, List, drop, Ok, Err, IfOk, IfErr, OnOk, OnErr, option_copied};
ghost use Rattle.std.specs.Str.{IsUtf8, is_utf8};
ghost use Rattle.frame_codec.specs.declared.frames.Frame.{Frame as FrameOf};
ghost use Rattle.fixed_fields.specs.Frames.{next_nullable, next_data, next_text, next_structure};
ghost use Rattle.fixed_fields.specs.Structures.{BeginsWithStructure};

use crate::refusal::FieldRefused;
use crate::structures::{after_structure, has_flag, is_plain};
use frame_codec::Frame;
use frame_codec::flags::NULL;
use grid_base::Bytes;
use simdutf8::basic::from_utf8;
use std::marker::Model;

/// The next frames of a message, read one after another. What a call refuses stays next.
#[derive(Debug, Drop)]
pub struct Cursor<'a> {
    frames: &'a [Frame],
}

impl<'a> Model for Cursor<'a> {
    ghost Value = { List FrameOf };

    ghost view = { λ c. c.frames.now };
}

/// What the first of these frames holds, and the frames behind it.
fn next_nullable(frames: &[Frame]) -> Result<(Option<&Bytes>, &[Frame]), FieldRefused>
    ensures content { IfOk result (λ next. next_nullable frames.now ≡ Ok (option_copied next.0)) }
    ensures refused { IfErr result (λ why. next_nullable frames.now ≡ Err why) }
    ensures rest { IfOk result (λ next. next.1.now ≡ drop 1 frames.now) }
{
    match frames.split_first() {
        Some((frame, rest)) if is_plain(frame) => {
            let content = if has_flag(NULL, frame) {
                None
            } else {
                Some(&frame.payload)
            };
            Ok((content, rest))
        }
        _ => Err(FieldRefused::NoFrame),
    }
}

fn next_data(frames: &[Frame]) -> Result<(&Bytes, &[Frame]), FieldRefused>
    ensures bytes { IfOk result (λ next. next_data frames.now ≡ Ok next.0.now) }
    ensures refused { IfErr result (λ why. next_data frames.now ≡ Err why) }
    ensures rest { IfOk result (λ next. next.1.now ≡ drop 1 frames.now) }
{
    let (content, rest) = next_nullable(frames)?;
    match content {
        Some(bytes) => Ok((bytes, rest)),
        None => Err(FieldRefused::NoFrame),
    }
}

fn is_text(bytes: &[u8]) -> bool
    ensures { result ≡ is_utf8 bytes.now }
{
    from_utf8(bytes).is_ok()
}

impl<'a> Cursor<'a> {
    /// A cursor that stands before the first of these frames.
    pub fn new(frames: &'a [Frame]) -> Self
        ensures { result ≡ frames.now }
    {
        Cursor { frames }
    }

    /// Passes a frame of data, and gives its bytes. `NoFrame` where the next frame is null, begins or
    /// ends a structure, or isn't there. Takes no memory.
    pub fn data(&mut self) -> Result<&'a Bytes, FieldRefused>
        ensures read { IfOk result (λ bytes. next_data self.old ≡ Ok bytes.now) }
        ensures refused { IfErr result (λ why. next_data self.old ≡ Err why) }
        ensures passed { OnOk result (self.new ≡ drop 1 self.old) }
        ensures stays { OnErr result (self.new ≡ self.old) }
    {
        let (bytes, rest) = next_data(self.frames)?;
        self.frames = rest;
        Ok(bytes)
    }

    /// Passes a text, and gives its bytes. `NoFrame` as `data`, and `NotUtf8` where the bytes aren't
    /// UTF-8. Takes no memory, and time in proportion to the bytes.
    pub fn text(&mut self) -> Result<&'a Bytes, FieldRefused>
        ensures read { IfOk result (λ bytes. next_text self.old ≡ Ok bytes.now) }
        ensures refused { IfErr result (λ why. next_text self.old ≡ Err why) }
        ensures passed { OnOk result (self.new ≡ drop 1 self.old) }
        ensures stays { OnErr result (self.new ≡ self.old) }
        ensures utf8 { IfOk result (λ bytes. IsUtf8 bytes.now) }
        ensures not_utf8 { result ≡ Err FieldRefused.NotUtf8
            → IfOk (next_data self.old) (λ bytes. ¬ (IsUtf8 bytes)) }
    {
        let (bytes, rest) = next_data(self.frames)?;
        if !is_text(bytes.as_slice()) {
            return Err(FieldRefused::NotUtf8);
        }
        self.frames = rest;
        Ok(bytes)
    }

    /// Passes a frame of data or a null, and gives the bytes, or `None` for a null. `NoFrame` where the
    /// next frame begins or ends a structure, or isn't there. Takes no memory.
    pub fn nullable(&mut self) -> Result<Option<&'a Bytes>, FieldRefused>
        ensures read { IfOk result (λ bytes. next_nullable self.old ≡ Ok (option_copied bytes)) }
        ensures refused { IfErr result (λ why. next_nullable self.old ≡ Err why) }
        ensures passed { OnOk result (self.new ≡ drop 1 self.old) }
        ensures stays { OnErr result (self.new ≡ self.old) }
    {
        let (content, rest) = next_nullable(self.frames)?;
        self.frames = rest;
        Ok(content)
    }

    /// Passes a structure: a begin frame, its matching end frame, and all between them. `NoFrame` where
    /// no structure begins with the next frame, or the one that does isn't closed. Takes no memory, and
    /// as many steps as it passes frames, or as there are where it is refused.
    pub fn skip_structure(&mut self) -> Result<(), FieldRefused>
        ensures passed { OnOk result (next_structure self.old ≡ Ok self.new) }
        ensures refused { IfErr result (λ why. next_structure self.old ≡ Err why) }
        ensures stays { OnErr result (self.new ≡ self.old) }

        // It is the one structure of the grammar that was passed, and where there is one it is passed.
        ensures structure { OnOk result (BeginsWithStructure self.old self.new) }
        ensures only { OnOk result ((rest : List FrameOf)
            → BeginsWithStructure self.old rest → rest ≡ self.new) }
        ensures none { OnErr result ((rest : List FrameOf) → ¬ BeginsWithStructure self.old rest) }
    {
        match after_structure(self.frames) {
            Some(rest) => {
                self.frames = rest;
                Ok(())
            }
            None => Err(FieldRefused::NoFrame),
        }
    }
}
