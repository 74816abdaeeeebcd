ghost use Rattle.std.specs.Prelude.{◌≡◌, ◌==◌, ◌&&◌, ◌||◌, ◌∷◌, ◌++◌, ℕ, [], not, nat_lt, true, false};
ghost use Rattle.std.specs.List.{list_all, list_any};
ghost use Rattle.gp_constraint.specs.Tables.{entry_at};
ghost use Rattle.gp_constraint.specs.Sections.{exclude};
ghost use Rattle.gp_stuck.specs.Closing.{IsFirst, is_clear, may_be_second, may_close, one_closes, some_clear, two_close};
ghost use Rattle.gp_stuck.specs.Links.{AreLinked};
ghost use Rattle.gp_stuck.specs.Search.{completions, takers_of};

use crate::closing::keeps_out;
use crate::event::{exclude, use_at};
use crate::first::First;
use crate::link::{Link, Others};
use crate::waiting::Waiting;
use gp_text::Name;
use gp_trace::{LockMode, LockUse};
use gp_window::EventId;

/// Whether cycles may begin with the first event.
pub fn may_begin(waiting: &Waiting, first: &First, links: &[Link]) -> bool
    requires first { IsFirst waiting.now first.now }
    requires linked { first.now.narrows ≡ true → AreLinked waiting.now (takers_of waiting.now) links.now }
    ensures { result ≡ false → completions waiting.now (takers_of waiting.now) first.now.holding.id [] first.now.holding.id 3 ≡ [] }
{
    if !first.narrows {
        return true;
    }
    let Some(lock_use) = use_at(waiting.window(), first.holding.id) else {
        return true;
    };
    match lock_use {
        LockUse::Take(mode, lock) => has_second(first, mode, &lock, links),
        LockUse::GiveBack(..) => true,
    }
}

fn has_second(first: &First, mode: LockMode, lock: &Name, links: &[Link]) -> bool
    ensures { result ≡ list_any (may_be_second first.now mode lock.now) links.now }
{
    links
        .iter()
        .any(|link| may_be_second(first, mode, lock, link))
}

fn may_be_second(first: &First, mode: LockMode, lock: &Name, link: &Link) -> bool
    ensures { result ≡ may_be_second first.now mode lock.now link.now }
{
    first.holding.id.thread < link.thread
        && link.held == *lock
        && exclude(link.mode, mode)
        && may_close(first, &[], link.thread, link.wanted, &link.lock, 2)
}

/// Whether a chain that goes on with this event may close, with up to so many more behind it.
pub fn may_go_on(
    waiting: &Waiting,
    first: &First,
    passed: &[EventId],
    id: EventId,
    fewer: u32,
) -> bool
    requires { IsFirst waiting.now first.now }
    ensures { result ≡ false → completions waiting.now (takers_of waiting.now) first.now.holding.id (passed.now ++ id ∷ []) id fewer ≡ [] }
{
    if !first.narrows {
        return true;
    }
    let Some(lock_use) = use_at(waiting.window(), id) else {
        return true;
    };
    match lock_use {
        LockUse::Take(mode, lock) => may_close(first, passed, id.thread, mode, &lock, fewer),
        LockUse::GiveBack(..) => true,
    }
}

/// In the time of the threads that are noted of the lock.
fn may_close(
    first: &First,
    passed: &[EventId],
    own: u32,
    mode: LockMode,
    lock: &Name,
    left: u32,
) -> bool
    ensures { result ≡ may_close first.now passed.now own mode lock.now left }
{
    keeps_out(&first.holding.held, mode, lock)
        || (0 < left && one_closes(first, passed, own, mode, lock))
        || (1 < left && two_close(first, passed, own, mode, lock))
        || 2 < left
}

fn one_closes(first: &First, passed: &[EventId], own: u32, mode: LockMode, lock: &Name) -> bool
    ensures { result ≡ one_closes first.now.closers passed.now own mode lock.now }
{
    let closers = first.closers.at(lock);
    closers.iter().any(|closer| exclude(closer.mode, mode) && is_clear(passed, own, closer.thread))
}

fn two_close(first: &First, passed: &[EventId], own: u32, mode: LockMode, lock: &Name) -> bool
    ensures { result ≡ two_close first.now.steps passed.now own mode lock.now }
{
    let steps = first.steps.at(lock);
    steps.iter().any(|step| {
        exclude(step.mode, mode)
            && is_clear(passed, own, step.thread)
            && some_clear(passed, own, step.others)
    })
}

fn is_clear(passed: &[EventId], own: u32, thread: u32) -> bool
    ensures { result ≡ is_clear passed.now own thread }
{
    is_apart(passed, thread) && own != thread
}

fn is_apart(passed: &[EventId], thread: u32) -> bool
    ensures { result ≡ list_all (λ other. not (other.thread == thread)) passed.now }
{
    passed.iter().all(|other| other.thread != thread)
}

fn some_clear(passed: &[EventId], own: u32, others: Others) -> bool
    ensures { result ≡ some_clear passed.now own others }
{
    match others {
        Others::Nobody => false,
        Others::One(thread) => is_clear(passed, own, thread),
        Others::Several => true,
    }
}
