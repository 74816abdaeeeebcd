ghost use Rattle.gp_outside.specs.MemorySinks.{after_call, after_put, allowance, put_answer};
ghost use Rattle.std.specs.Prelude.{[], ◌≡◌, ◌≢◌, ◌≤◌, take};

use crate::sinks::{PutFault, Sink};
use std::alloc::Global;
use std::marker::Model;

/// Bytes in memory, for tests. Calls are numbered from 1, and those that the script names fail.
#[derive(Drop)]
pub struct MemorySink {
    written: Vec<u8>,
    failing: Vec<(u64, u64)>,
    calls: u64,
    faults: u64,
}

impl Model for MemorySink {
    ghost use Rattle.gp_outside.specs.MemorySinks.{SinkState};

    ghost Value = { SinkState };

    ghost view = { λ s. record {
      written = s.written.items;
      failing = s.failing.items;
      calls = s.calls;
      faults = s.faults;
    } };
}

impl MemorySink {
    /// A sink with nothing written. A pair in `failing` is the number of a call that fails, and how
    /// many bytes of its piece that call may write; of several for one call the first counts.
    pub fn new(alloc: Global, failing: Vec<(u64, u64)>) -> MemorySink
        ensures { result ≡ record { written = []; failing = failing.items; calls = 0; faults = 0 } }
    {
        MemorySink {
            written: Vec::new(alloc),
            failing,
            calls: 0,
            faults: 0,
        }
    }

    /// The bytes written.
    pub fn bytes(&self) -> &[u8]
        ensures { result.now ≡ self.now.written }
    {
        self.written.as_slice()
    }
}

// How many bytes the call may write, where it is one that fails.
fn allowance_of(failing: &[(u64, u64)], call: u64) -> Option<u64>
    ensures { result ≡ allowance failing.now call }
{
    for (number, bytes) in failing {
        if *number == call {
            return Some(*bytes);
        }
    }
    None
}

// At most so many bytes of the piece, from its beginning.
fn prefix_of(piece: &[u8], bytes: u64) -> &[u8]
    ensures { result.now ≡ take bytes piece.now }
{
    if bytes < piece.len() as u64 {
        &piece[..bytes as usize]
    } else {
        piece
    }
}

impl Sink for MemorySink {
    ghost use Rattle.std.specs.Prelude.{Some};

    ghost written = { λ sink. Some sink.written };

    ghost faults = { λ sink. sink.faults };

    /// Exact but for want of memory: which call fails, what each call writes, and how the counts
    /// change.
    fn put(&mut self, piece: &[u8]) -> Result<(), PutFault>
        ensures later { self.old.faults ≤ self.new.faults }
        ensures answer { result ≢ Err PutFault.Memory → result ≡ put_answer self.old }
        ensures after { result ≢ Err PutFault.Memory → self.new ≡ after_put self.old piece.now }
        ensures memory { result ≡ Err PutFault.Memory → self.new ≡ after_call self.old }
    {
        self.calls = self.calls.saturating_add(1);
        match allowance_of(self.failing.as_slice(), self.calls) {
            None => {
                self.written.extend_from_slice(piece)?;
                Ok(())
            }
            Some(bytes) => {
                self.written.extend_from_slice(prefix_of(piece, bytes))?;
                self.faults = self.faults.saturating_add(1);
                Err(PutFault::Failed)
            }
        }
    }
}
