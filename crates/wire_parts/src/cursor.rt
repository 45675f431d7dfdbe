ghost use Rattle.std.specs.Prelude.{◌≡◌, ◌≢◌, ℕ, List, Err, OnErr};
ghost use Rattle.std.specs.Borrow.{Bor};
ghost use Rattle.std.specs.Int.{w32, w64, w128};
ghost use Rattle.wire_parts.specs.Places.{start};
ghost use Rattle.wire_parts.specs.Parts.{Gives, byte_at, number_at, sized_at, mark_at, end_at};

use crate::refusal::WireRefused;
use std::marker::Model;

/// A place in bytes that are read from left to right.
///
/// A refused read leaves the cursor where it stood. No read takes memory, and each costs constant time.
#[derive(Drop)]
pub struct Cursor<'a> {
    at: usize,
    rest: &'a [u8],
}

impl<'a> Model for Cursor<'a> {
    ghost use Rattle.std.specs.Prelude.{◌+◌, ◌<◌, ◌^◌, length};
    ghost use Rattle.wire_parts.specs.Places.{Place};

    ghost Value = { Place };

    ghost view = { λ c. record { at = c.at; rest = c.rest.now } };

    ghost invariant = { λ c. c.at + length c.rest.now < 2 ^ 64 };
}

impl<'a> Cursor<'a> {
    /// Before the first byte.
    pub fn new(bytes: &'a [u8]) -> Self
        ensures { result ≡ start bytes.now }
    {
        Cursor { at: 0, rest: bytes }
    }

    /// How many bytes came before.
    pub fn at(&self) -> usize
        ensures { result ≡ self.now.at }
    {
        self.at
    }

    /// A byte.
    pub fn byte(&mut self) -> Result<u8, WireRefused>
        ensures read { Gives (λ byte. (byte, self.new)) result (byte_at self.old) }
        ensures err { OnErr result (self.new ≡ self.old) }
        ensures never_memory { result ≢ Err WireRefused.Memory }
    {
        match self.rest {
            [] => Err(WireRefused::Short { at: self.at }),
            [byte, rest @ ..] => {
                self.at += 1;
                self.rest = rest;
                Ok(*byte)
            }
        }
    }

    /// A number of four bytes, the low byte first.
    pub fn number(&mut self) -> Result<u32, WireRefused>
        ensures read { Gives (λ n. (n, self.new)) result (number_at w32 self.old) }
        ensures err { OnErr result (self.new ≡ self.old) }
        ensures never_memory { result ≢ Err WireRefused.Memory }
    {
        if self.rest.len() < 4 {
            return Err(WireRefused::Short { at: self.at });
        }
        let (number, rest) = self.rest.split_at(4);
        self.at += 4;
        self.rest = rest;
        Ok(u32::from_le_bytes([number[0], number[1], number[2], number[3]]))
    }

    /// A number of eight bytes, the low byte first.
    pub fn long(&mut self) -> Result<u64, WireRefused>
        ensures read { Gives (λ n. (n, self.new)) result (number_at w64 self.old) }
        ensures err { OnErr result (self.new ≡ self.old) }
        ensures never_memory { result ≢ Err WireRefused.Memory }
    {
        if self.rest.len() < 8 {
            return Err(WireRefused::Short { at: self.at });
        }
        let (number, rest) = self.rest.split_at(8);
        self.at += 8;
        self.rest = rest;
        Ok(u64::from_le_bytes([
            number[0], number[1], number[2], number[3], number[4], number[5], number[6], number[7],
        ]))
    }

    /// A number of sixteen bytes, the low byte first.
    pub fn wide(&mut self) -> Result<u128, WireRefused>
        ensures read { Gives (λ n. (n, self.new)) result (number_at w128 self.old) }
        ensures err { OnErr result (self.new ≡ self.old) }
        ensures never_memory { result ≢ Err WireRefused.Memory }
    {
        if self.rest.len() < 16 {
            return Err(WireRefused::Short { at: self.at });
        }
        let (number, rest) = self.rest.split_at(16);
        self.at += 16;
        self.rest = rest;
        Ok(u128::from_le_bytes([
            number[0], number[1], number[2], number[3], number[4], number[5], number[6], number[7],
            number[8], number[9], number[10], number[11], number[12], number[13], number[14],
            number[15],
        ]))
    }

    /// Bytes behind their length, which is a number. Where they end early, the fault is at the length.
    #[tactic(auto, unfolding(crate::specs::Parts::sized_at))]
    pub fn sized(&mut self) -> Result<&'a [u8], WireRefused>
        ensures read { Gives (λ (bytes : Bor (List ℕ)). (bytes.now, self.new))
            result (sized_at self.old) }
        ensures err { OnErr result (self.new ≡ self.old) }
        ensures never_memory { result ≢ Err WireRefused.Memory }
    {
        let at = self.at;
        let start = self.rest;
        let length = self.number()? as usize;
        if self.rest.len() < length {
            self.at = at;
            self.rest = start;
            return Err(WireRefused::Short { at });
        }
        let (bytes, rest) = self.rest.split_at(length);
        self.at += length;
        self.rest = rest;
        Ok(bytes)
    }

    /// A byte that is 1 for true and 0 for false.
    #[tactic(auto, unfolding(crate::specs::Parts::mark_at))]
    pub fn mark(&mut self) -> Result<bool, WireRefused>
        ensures read { Gives (λ is. (is, self.new)) result (mark_at self.old) }
        ensures err { OnErr result (self.new ≡ self.old) }
        ensures never_memory { result ≢ Err WireRefused.Memory }
    {
        match self.rest {
            [] => Err(WireRefused::Short { at: self.at }),
            [byte, rest @ ..] => {
                let is = match *byte {
                    0 => false,
                    1 => true,
                    _ => return Err(WireRefused::Tag { at: self.at }),
                };
                self.at += 1;
                self.rest = rest;
                Ok(is)
            }
        }
    }

    /// The end: no byte may follow.
    pub fn end(&self) -> Result<(), WireRefused>
        ensures end { Gives (λ _. self.now) result (end_at self.now) }
        ensures never_memory { result ≢ Err WireRefused.Memory }
    {
        if self.rest.is_empty() {
            Ok(())
        } else {
            Err(WireRefused::Rest { at: self.at })
        }
    }
}
