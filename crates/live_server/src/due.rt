//! Which connections have turns in a round.

use crate::connections::ROOM;
use std::mem;

/// How many keys a word has.
const WORD: usize = 64;

/// How many words have the keys of all connections.
const WORDS: usize = ROOM / WORD;

/// The keys of connections that are due, a bit for each. What is proved of a server doesn't hang on it: a connection that
/// isn't due has its turns later.
#[derive(Drop)]
pub(crate) struct Due {
    words: [u64; WORDS],
    /// No word before this one has a key.
    first: usize,
}

impl Due {
    /// None is due.
    pub fn none() -> Due {
        Due {
            words: [0; WORDS],
            first: WORDS,
        }
    }

    /// Each connection is due.
    pub fn all() -> Due {
        Due {
            words: [u64::MAX; WORDS],
            first: 0,
        }
    }

    /// Has the connection of this key due. One that isn't below `ROOM` is of no connection.
    pub fn add(&mut self, key: usize) {
        let at = key / WORD;
        if let Some(word) = self.words.get_mut(at) {
            *word |= 1 << (key % WORD);
            self.first = self.first.min(at);
        }
    }

    /// Whether none is due.
    pub fn is_empty(&self) -> bool {
        self.words.iter().all(|&word| word == 0)
    }

    /// Takes all keys.
    pub fn take(&mut self) -> Due {
        mem::replace(self, Due::none())
    }

    /// Takes the lowest key. Costs a look at each word since the one of the last key.
    pub fn take_next(&mut self) -> Option<usize> {
        for at in self.first..WORDS {
            self.first = at;
            let word = self.words[at];
            if word != 0 {
                self.words[at] = word & (word - 1);
                return Some(at * WORD + word.trailing_zeros() as usize);
            }
        }
        self.first = WORDS;
        None
    }
}
