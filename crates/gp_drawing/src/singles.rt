ghost use Rattle.std.specs.Prelude.{◌≡◌, OnOk, option_copied};
ghost use Rattle.gp_base.specs.Table.{value_at, with_entry};
ghost use Rattle.gp_drawing.specs.Arrows.{row_telling};
ghost use Rattle.gp_drawing.specs.Singles.{TellsSingles, key_cmp, with_part};

use gp_base::Table;
use gp_story::Part;
use gp_window::EventId;
use std::alloc::AllocError;

/// The row of the last of the parts so far that tells each event alone, by the event's thread and index.
pub type Singles = Table<(u32, u32), u32>;

/// The row of an event among those of the parts so far.
pub fn row_telling(before: &[Part], singles: &Singles, event: EventId) -> Option<u32>
    requires { TellsSingles before.now singles.now }
    ensures { result ≡ row_telling event 0 before.now }
{
    singles.get(&(event.thread, event.index)).copied()
}

/// Keeps the row of one part more.
pub fn keep_part(singles: &mut Singles, row: u32, part: &Part) -> Result<(), AllocError>
    ensures { OnOk result (singles.new ≡ with_part singles.old row part.now) }
{
    match part {
        Part::Single(line) => keep_event(singles, row, line.event),
        Part::Run(_) => Ok(()),
    }
}

fn keep_event(singles: &mut Singles, row: u32, event: EventId) -> Result<(), AllocError>
    ensures { OnOk result (singles.new ≡ with_entry key_cmp singles.old (event.thread, event.index) row) }
{
    singles.put((event.thread, event.index), row)
}
