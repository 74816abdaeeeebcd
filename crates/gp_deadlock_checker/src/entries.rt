ghost use Rattle.std.specs.Prelude.{◌≡◌, ◌≤◌, true, IfOk, length};
ghost use Rattle.gp_stuck.specs.Cycle.{is_cycle};
ghost use Rattle.gp_deadlock_checker.specs.Finds.{AreCycles, FindsEntries, FindsEntry};

use crate::answer::check_answer;
use gp_checker::{Checker, Failure, Reason, are_same};
use gp_instance::Instance;
use gp_report::Entry;
use std::alloc::{AllocError, Global};

// The first entry that fails, of as many as there are cycles.
pub(crate) fn check_entries(
    alloc: Global,
    checker: &mut Checker<'_>,
    cycles: &[Instance],
    entries: &[Entry],
) -> Result<Option<Failure>, AllocError>
    requires cycles { AreCycles checker.old.window cycles.now }
    requires few { length cycles.now ≤ 10000 }
    requires count { length entries.now ≡ length cycles.now }
    ensures found { IfOk result (FindsEntries checker.old cycles.now entries.now) }
    ensures same { checker.new ≡ checker.old }
{
    for (place, entry) in entries.iter().enumerate() {
        if let Some(failure) = check_entry(alloc, checker, &cycles[place], entry)? {
            return Ok(Some(Failure {
                instance: place as u32,
                ..failure
            }));
        }
    }
    Ok(None)
}

// How the entry of a cycle fails: it has other events, or its answer fails.
fn check_entry(
    alloc: Global,
    checker: &mut Checker<'_>,
    cycle: &Instance,
    entry: &Entry,
) -> Result<Option<Failure>, AllocError>
    requires { is_cycle checker.old.window cycle.now.events ≡ true }
    ensures found { IfOk result (FindsEntry checker.old cycle.now entry.now) }
    ensures same { checker.new ≡ checker.old }
{
    if !are_same(entry.events.as_slice(), cycle.events.as_slice()) {
        return Ok(Some(Failure::of(Reason::WrongEvents, 0)));
    }
    check_answer(alloc, checker, cycle, &entry.answer)
}
