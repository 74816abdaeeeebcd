ghost use Rattle.std.specs.Prelude.{◌≡◌, ◌≢◌, ◌<◌, ◌≤◌, ◌-◌, ◌^◌, length, Ok, Err, IfErr, IfOk, OnOk};
ghost use Rattle.gp_base.specs.Results.{with_prefix};
ghost use Rattle.gp_replay.specs.Schedule.{event_ids_of, events_of, schedule_of, schedule_of_text};

use gp_base::Row;
use gp_text::{Line, TextFault, Word, between, end_line, number_after, read_lines};
use gp_window::{EventId, Schedule, event_id_of};
use std::alloc::{AllocError, Global};
use thiserror::Error;

/// A schedule, and the number of the window that it is for.
#[derive(Drop)]
pub struct WindowSchedule {
    pub window: u32,
    pub schedule: Schedule,
}

/// Why a text is no schedule.
#[derive(Clone, Copy, Debug, PartialEq, Eq, Error)]
pub enum ScheduleFault {
    /// The text has no lines.
    #[error("{0}")]
    Text(TextFault),
    /// The first line, by its number, that is not of the form that is due there; the number of the
    /// line at which the text ends, where there is no line `window K`.
    #[error("line {0} is not a line of a schedule")]
    BadLine(u32),
    #[error("out of memory")]
    Memory,
}

impl From<AllocError> for ScheduleFault {
    ghost use Rattle.std.specs.Prelude.{◌≡◌};
    ghost use Rattle.gp_replay.specs.declared.schedule.ScheduleFault.TheVariants.{Memory};

    ghost from_gives = { λ _ e. e ≡ Memory };

    fn from(_error: AllocError) -> ScheduleFault {
        ScheduleFault::Memory
    }
}

impl From<TextFault> for ScheduleFault {
    ghost use Rattle.std.specs.Prelude.{◌≡◌};
    ghost use Rattle.gp_replay.specs.Faults.{schedule_from_text};

    ghost from_gives = { λ f e. e ≡ schedule_from_text f };

    fn from(fault: TextFault) -> ScheduleFault {
        match fault {
            TextFault::Memory => ScheduleFault::Memory,
            _ => ScheduleFault::Text(fault),
        }
    }
}

/// Reads a schedule for one of so many windows: a line `window K`, then lines of words `T.X`.
pub fn read_schedule(
    alloc: Global,
    epochs: u32,
    bytes: &[u8],
) -> Result<WindowSchedule, ScheduleFault>
    requires { length bytes.now < 2 ^ 32 - 1 }
    ensures due { result ≢ Err ScheduleFault.Memory → result ≡ schedule_of_text epochs bytes.now }
    ensures window { IfOk result (λ read. (1 ≤ read.window) × (read.window ≤ epochs)) }
{
    let lines = read_lines(alloc, bytes)?;
    schedule_of(alloc, epochs, end_line(bytes), lines.as_slice())
}

fn schedule_of(
    alloc: Global,
    epochs: u32,
    end: u32,
    lines: &[Line],
) -> Result<WindowSchedule, ScheduleFault>
    ensures due { result ≢ Err ScheduleFault.Memory → result ≡ schedule_of epochs end lines.now }
    ensures window { IfOk result (λ read. (1 ≤ read.window) × (read.window ≤ epochs)) }
{
    let (first, rest) = lines.split_first().ok_or(ScheduleFault::BadLine(end))?;
    let window = between(1, epochs, number_after(b"window", first.words.as_slice()));
    let window = window.ok_or(ScheduleFault::BadLine(first.number))?;
    let events = events_of(alloc, rest)?;
    Ok(WindowSchedule {
        window,
        schedule: Schedule { events },
    })
}

fn events_of(alloc: Global, lines: &[Line]) -> Result<Row<EventId>, ScheduleFault>
    ensures { result ≢ Err ScheduleFault.Memory → result ≡ events_of lines.now }
{
    let mut events = Row::new(alloc);
    for line in lines {
        add_events(&mut events, line.number, line.words.as_slice())?;
    }
    Ok(events)
}

fn add_events(events: &mut Row<EventId>, number: u32, words: &[Word]) -> Result<(), ScheduleFault>
    ensures ok { OnOk result (with_prefix events.old (event_ids_of number words.now) ≡ Ok events.new) }
    ensures bad { IfErr result (λ fault. fault ≢ ScheduleFault.Memory
        → event_ids_of number words.now ≡ Err fault) }
{
    for word in words {
        let id = event_id_of(word.as_bytes()).ok_or(ScheduleFault::BadLine(number))?;
        events.push(id)?;
    }
    Ok(())
}
