ghost use Rattle.std.specs.Prelude.{◌≡◌, [], ◌∷◌, ◌++◌, filter, length, IfOk, OnOk};

use crate::cursor::Words;
use gp_base::Row;
use std::alloc::{AllocError, Global};
use std::marker::Model;

/// The bytes between the spaces of a line: at least one, and none of them a space.
#[derive(Drop)]
pub struct Word {
    bytes: Row<u8>,
}

impl Model for Word {
    ghost use Rattle.std.specs.Prelude.{List, ℕ};

    ghost Value = { List ℕ };

    ghost view = { λ w. w.bytes };
}

impl Word {
    fn copied(alloc: Global, bytes: &[u8]) -> Result<Word, AllocError>
        ensures { IfOk result (λ word. word ≡ bytes.now) }
    {
        let bytes = Vec::from_slice(alloc, bytes)?;
        Ok(Word {
            bytes: Row::from_vec(bytes),
        })
    }

    /// The bytes of the word.
    pub fn as_bytes(&self) -> &[u8]
        ensures { result.now ≡ self.now }
    {
        self.bytes.as_slice()
    }
}

/// A line that holds words, with its number in the text, from 1.
#[derive(Drop)]
pub struct Line {
    pub number: u32,
    pub words: Row<Word>,
}

/// The words that are left of a line, in order.
pub(crate) fn collect_words(alloc: Global, rest: Words) -> Result<Row<Word>, AllocError>
    ensures { IfOk result (λ words. words ≡ rest.entry) }
{
    let mut rest = rest;
    let mut words = Row::new(alloc);
    while let Some(word) = rest.next() {
        words.push(Word::copied(alloc, word)?)?;
    }
    Ok(words)
}
