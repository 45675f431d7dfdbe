//! The words of a line, each one space from the next.
ghost use Rattle.std.specs.Prelude.{◌≡◌, ◌∷◌, length};
ghost use Rattle.std.specs.Iterator.{YieldsFirstRef, item_count};
ghost use Rattle.script_lang.specs.Words.{words_of};
ghost use Rattle.script_lang.specs.Splitting.{words_from};

use memchr::{memchr, memchr_iter};
use std::marker::Model;

/// The words that are left of a line, seen as the list of them.
#[derive(Drop)]
pub(crate) struct Words<'a> {
    /// The text from the next word on, where a word is left.
    rest: Option<&'a [u8]>,
}

impl<'a> Model for Words<'a> {
    ghost use Rattle.std.specs.Prelude.{ℕ, List};
    ghost use Rattle.script_lang.specs.Splitting.{words_from};

    ghost Value = { List (List ℕ) };

    ghost view = { λ words. words_from words.rest };
}

/// The first word of a text, and what follows its space, if it has one.
fn first_word(text: &[u8]) -> (&[u8], Option<&[u8]>)
    ensures { words_of text.now ≡ result.0.now ∷ words_from result.1 }
{
    match memchr(b' ', text) {
        None => (text, None),
        Some(at) => (&text[..at], Some(&text[at + 1..])),
    }
}

/// How many words a text has.
fn number_of_words(text: &[u8]) -> usize
    ensures { result ≡ length (words_of text.now) }
{
    memchr_iter(b' ', text).count() + 1
}

impl<'a> Words<'a> {
    pub(crate) fn of(line: &'a [u8]) -> Self
        ensures { result ≡ words_of line.now }
    {
        Words { rest: Some(line) }
    }

    /// How many words are left. Costs the length of what is left.
    pub(crate) fn left(&self) -> usize
        ensures { result ≡ length self.now }
    {
        self.rest.map_or(0, number_of_words)
    }
}

impl<'a> Iterator for Words<'a> {
    type Item = &'a [u8];

    ghost next_gives = { YieldsFirstRef (λ words. words) };

    ghost remaining = { item_count (λ words. words) };

    fn next(&mut self) -> Option<&'a [u8]> {
        let (word, rest) = first_word(self.rest?);
        self.rest = rest;
        Some(word)
    }
}
