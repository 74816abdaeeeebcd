ghost use Rattle.std.specs.Prelude.{◌≡◌, IfOk, length};
ghost use Rattle.gp_constraint.specs.Families.{clauses_in, family_clauses};
ghost use Rattle.gp_constraint.specs.Limited.{IsAdded};

use crate::encoded::Encoded;
use crate::extending::points_of;
use crate::fault::Full;
use crate::held_locks::held_locks;
use crate::joins::joins;
use crate::limited::LimitedClauses;
use crate::points::Points;
use crate::program_order::program_order;
use crate::reads::{choices, reads, start_choices};
use crate::sections::sections;
use crate::starts::starts;
use gp_window::Window;
use std::alloc::{AllocError, Global};

/// What a clause of a window is about.
#[derive(Clone, Copy)]
pub enum BaseFamily {
    /// A thread does its events in order: none is executed unless the one before it is.
    ProgramOrder,
    /// A thread begins only after its start.
    Start,
    /// A join waits for the end of its thread.
    Join,
    /// A read sees its value: from one of the writes of this value, or from the beginning of the window.
    Read,
    /// A write that a read sees is executed before it, and no write of another value stands between them.
    Choice,
    /// No write of another value comes before a read that sees the value with which the window begins.
    StartChoice,
    /// Of two sections of one lock, not both of readers, one ends before the other begins.
    Section,
    /// Who holds a lock when the window begins gives it back before another thread takes it.
    HeldLock,
}

/// How many clauses of a family a window has. They are made once more, in the time of their making; those of a window that
/// is encoded are not too many, so that nothing but memory may be wanting.
pub fn family_size(
    alloc: Global,
    encoded: &Encoded,
    family: BaseFamily,
) -> Result<usize, AllocError>
    ensures { IfOk result (λ size. size ≡ length (family_clauses encoded.now family)) }
{
    let points = points_of(alloc, encoded)?;
    let clauses = clauses_in(alloc, encoded.window(), &points, family);
    drop(points);
    match clauses {
        Ok(clauses) => {
            let size = clauses.clauses().len();
            drop(clauses);
            Ok(size)
        }
        Err(_) => Err(AllocError),
    }
}

/// The clauses of a family.
fn clauses_in(
    alloc: Global,
    window: &Window,
    points: &Points,
    family: BaseFamily,
) -> Result<LimitedClauses, Full>
    ensures { IfOk result (λ limited. limited.clauses ≡ clauses_in window.now points.now family) }
{
    let mut clauses = LimitedClauses::new(alloc);
    match add_family(alloc, &mut clauses, window, points, family) {
        Ok(()) => Ok(clauses),
        Err(full) => {
            drop(clauses);
            Err(full)
        }
    }
}

fn add_family(
    alloc: Global,
    clauses: &mut LimitedClauses,
    window: &Window,
    points: &Points,
    family: BaseFamily,
) -> Result<(), Full>
    ensures { IsAdded result clauses.old clauses.new (clauses_in window.now points.now family) }
{
    match family {
        BaseFamily::ProgramOrder => program_order(clauses, points.as_slice()),
        BaseFamily::Start => starts(clauses, window, points),
        BaseFamily::Join => joins(alloc, clauses, window, points),
        BaseFamily::Read => reads(alloc, clauses, window, points),
        BaseFamily::Choice => choices(alloc, clauses, points),
        BaseFamily::StartChoice => start_choices(clauses, window, points),
        BaseFamily::Section => sections(alloc, clauses, points),
        BaseFamily::HeldLock => held_locks(clauses, window, points),
    }
}
