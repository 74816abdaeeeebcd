ghost use Rattle.std.specs.Prelude.{◌≡◌, ◌+◌, [], ◌∷◌, IfOk};
ghost use Rattle.gp_report.specs.Entries.{entries_among, entries_of};
ghost use Rattle.gp_report.specs.Tally.{tally_of, with_entries};

use crate::record::{AnswerOf, EntryOf, PropertyRecordOf, WindowRecordOf};
use std::alloc::AllocError;

// How many entries are found, impossible and undecided.
#[derive(Clone, Copy)]
pub(crate) struct Tally {
    pub(crate) found: u64,
    pub(crate) impossible: u64,
    pub(crate) undecided: u64,
}

// Counts the entries of all windows. Entries past 2^64 - 1 of a kind would not fit into memory.
pub(crate) fn tally_of<S>(windows: &[WindowRecordOf<S>]) -> Result<Tally, AllocError>
    ensures { IfOk result (λ tally. tally ≡ tally_of (entries_of windows.now)) }
{
    let mut tally = Tally {
        found: 0,
        impossible: 0,
        undecided: 0,
    };
    for window in windows {
        tally = with_properties(tally, window.body.properties())?;
    }
    Ok(tally)
}

fn with_properties<S>(tally: Tally, properties: &[PropertyRecordOf<S>]) -> Result<Tally, AllocError>
    ensures { IfOk result (λ new. new ≡ with_entries tally (entries_among properties.now)) }
{
    let mut tally = tally;
    for property in properties {
        tally = with_entries(tally, property.body.entries())?;
    }
    Ok(tally)
}

fn with_entries<S>(tally: Tally, entries: &[EntryOf<S>]) -> Result<Tally, AllocError>
    ensures { IfOk result (λ new. new ≡ with_entries tally entries.now) }
{
    let mut tally = tally;
    for entry in entries {
        tally = with_entry(tally, entry)?;
    }
    Ok(tally)
}

fn with_entry<S>(tally: Tally, entry: &EntryOf<S>) -> Result<Tally, AllocError>
    ensures { IfOk result (λ new. new ≡ with_entries tally (entry.now ∷ [])) }
{
    match &entry.answer {
        AnswerOf::Found(_) => Ok(Tally {
            found: more(tally.found)?,
            ..tally
        }),
        AnswerOf::Impossible(_) => Ok(Tally {
            impossible: more(tally.impossible)?,
            ..tally
        }),
        AnswerOf::Undecided { .. } => Ok(Tally {
            undecided: more(tally.undecided)?,
            ..tally
        }),
    }
}

fn more(count: u64) -> Result<u64, AllocError>
    ensures { IfOk result (λ next. next ≡ count + 1) }
{
    count.checked_add(1).ok_or(AllocError)
}
