ghost use Rattle.std.specs.Prelude.{◌≡◌, ◌≢◌, ◌<◌, ◌^◌, ◌++◌, Err, IfOk, OnOk};
ghost use Rattle.gp_window.specs.Events.{size_of};
ghost use Rattle.gp_bridge_rows.specs.Ends.{ask_of, end_in, ends_of, listed};

use gp_base::Row;
use gp_instance::{Instance, InstancesFault};
use gp_report::MOST_ENTRIES;
use gp_window::{EventId, Window, windows_are_formed};
use std::alloc::{AllocError, Global};

/// The ends of the threads of a window, of which a recording has at most 64; a window of one never has too many.
pub fn ends_listed(
    alloc: Global,
    window: &Window,
    number: u32,
) -> Result<Row<Instance>, InstancesFault>
    ensures { result ≢ Err InstancesFault.Memory → result ≡ listed (ends_of window.now number) }
{
    let ends = ends_of(alloc, window, number)?;
    if ends.len() > MOST_ENTRIES {
        return Err(InstancesFault::TooMany);
    }
    Ok(ends)
}

fn ends_of(alloc: Global, window: &Window, number: u32) -> Result<Row<Instance>, AllocError>
    ensures { IfOk result (λ ends. ends ≡ ends_of window.now number) }
{
    windows_are_formed();
    let threads = window.segments().len() as u32;
    let mut ends = Row::new(alloc);
    for thread in 1..threads + 1 {
        push_end(alloc, &mut ends, window, number, thread)?;
    }
    Ok(ends)
}

fn push_end(
    alloc: Global,
    ends: &mut Row<Instance>,
    window: &Window,
    number: u32,
    thread: u32,
) -> Result<(), AllocError>
    requires { size_of window.now thread < 2 ^ 32 }
    ensures { OnOk result (ends.new ≡ ends.old ++ end_in window.now number thread) }
{
    let size = window.segment(thread).len();
    if size == 0 {
        return Ok(());
    }
    let last = EventId {
        thread,
        index: size as u32 - 1,
    };
    ends.push(ask_of(alloc, number, last)?)
}

fn ask_of(alloc: Global, number: u32, id: EventId) -> Result<Instance, AllocError>
    ensures { IfOk result (λ ask. ask ≡ ask_of number id) }
{
    let mut events = Row::new(alloc);
    events.push(id)?;
    Ok(Instance {
        property: number,
        events,
    })
}
