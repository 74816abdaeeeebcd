ghost use Rattle.std.specs.Prelude.{◌≡◌, ◌++◌, ℕ, List, OnOk};

use gp_clause::Lit;
use gp_text::print_u64;
use gp_window::{EventId, put_event_id};
use std::alloc::AllocError;

/// What is told as one word.
pub trait Spelled {
    ghost word: { Self → List ℕ };

    /// Puts the word at the end of a text.
    fn put(&self, text: &mut Vec<u8>) -> Result<(), AllocError>
        ensures { OnOk result (text.new.items ≡ text.old.items ++ word self.now) };
}

impl Spelled for u32 {
    ghost use Rattle.std.specs.Prelude.{decimal};

    ghost word = { decimal };

    fn put(&self, text: &mut Vec<u8>) -> Result<(), AllocError> {
        print_u64(text, u64::from(*self))
    }
}

impl Spelled for u64 {
    ghost use Rattle.std.specs.Prelude.{decimal};

    ghost word = { decimal };

    fn put(&self, text: &mut Vec<u8>) -> Result<(), AllocError> {
        print_u64(text, *self)
    }
}

impl Spelled for &[u8] {
    ghost word = { λ bytes. bytes.now };

    fn put(&self, text: &mut Vec<u8>) -> Result<(), AllocError> {
        text.extend_from_slice(*self)
    }
}

impl Spelled for EventId {
    ghost use Rattle.gp_window.specs.EventIds.{event_id_text};

    ghost word = { event_id_text };

    fn put(&self, text: &mut Vec<u8>) -> Result<(), AllocError> {
        put_event_id(text, *self)
    }
}

impl Spelled for Lit {
    ghost use Rattle.gp_writer.specs.Spelled.{lit_word};

    ghost word = { lit_word };

    fn put(&self, text: &mut Vec<u8>) -> Result<(), AllocError> {
        if !self.positive {
            text.push(b'-')?;
        }
        print_u64(text, u64::from(self.variable) + 1)
    }
}
