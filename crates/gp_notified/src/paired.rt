ghost use Rattle.std.specs.Prelude.{◌≡◌, ◌++◌, IfOk, OnOk};
ghost use Rattle.gp_text.specs.Spelling.{spelling};
ghost use Rattle.gp_notified.specs.Shown.{events_of, pairs_lines};

use gp_base::Row;
use gp_notify::Pair;
use gp_report::Shows;
use gp_window::{EventId, Schedule};
use gp_writer::{put_line, put_list};
use std::alloc::{AllocError, Global};

/// A schedule that shows an instance, and the signal of each of its wakes.
#[derive(Drop)]
pub struct Paired {
    pub schedule: Schedule,
    pub pairs: Row<Pair>,
}

impl Shows for Paired {
    ghost use Rattle.gp_notified.specs.Shown.{paired_lines};

    ghost lines = { paired_lines };

    fn put(&self, text: &mut Vec<u8>) -> Result<(), AllocError> {
        self.schedule.put(text)?;
        put_pairs(text, self.pairs.as_slice())
    }
}

#[tactic(auto, using(gp_writer::specs::LinesLaws::lines_put))]
fn put_pairs(text: &mut Vec<u8>, pairs: &[Pair]) -> Result<(), AllocError>
    ensures { OnOk result (text.new.items ≡ text.old.items ++ spelling (pairs_lines pairs.now)) }
{
    let events = events_of(*text.allocator(), pairs)?;
    put_line(text, b"pairs", &[pairs.len() as u64])?;
    put_list(text, events.as_slice())
}

fn events_of(alloc: Global, pairs: &[Pair]) -> Result<Vec<EventId>, AllocError>
    ensures { IfOk result (λ events. events.items ≡ events_of pairs.now) }
{
    let mut events = Vec::new(alloc);
    for pair in pairs {
        events.push(pair.wake)?;
        events.push(pair.signal)?;
    }
    Ok(events)
}
