ghost use Rattle.std.specs.Prelude.{◌≡◌, ◌+◌, ◌==◌, ◌<◌, ◌≤◌, ◌&&◌, ◌||◌, [], ◌∷◌, ℕ, List, true, false, length, nat_le, nat_lt, IfOk};
ghost use Rattle.std.specs.List.{list_any};
ghost use Rattle.gp_reason.specs.Marks.{AreCited, AreWalked, is_marked, marked_among};
ghost use Rattle.gp_reason.specs.Told.{NumberedStep, all_steps, hints_cite, numbered, told_of};

use gp_certificate::Step;
use std::alloc::{AllocError, Global};

/// Marks the numbers of the steps that are told, behind so many clauses of the window: that of the last step, and each that
/// a step cites which is told.
///
/// It takes the time of the hints, and for each step without hints that of the steps before it.
pub(crate) fn marks(
    alloc: Global,
    base: usize,
    shared: &[Step],
    own: &[Step],
) -> Result<Vec<bool>, AllocError>
    requires { base ≤ 500000 }
    ensures { IfOk result (λ marks. marked_among marks.items (all_steps base shared.now own.now) ≡ told_of base shared.now own.now) }
{
    let first_own = base + shared.len();
    let mut marks = Vec::new(alloc);
    marks.resize(first_own + own.len(), false)?;
    mark_told(marks.as_mut_slice(), base, shared, own);
    Ok(marks)
}

/// Whether a number is marked.
pub(crate) fn is_marked(marks: &[bool], number: usize) -> bool
    ensures { result ≡ is_marked marks.now number }
{
    match marks.get(number) {
        Some(marked) => *marked,
        None => false,
    }
}

fn mark_told(marks: &mut [bool], base: usize, shared: &[Step], own: &[Step])
    requires fits { base + length shared.now + length own.now ≤ length marks.old }
    requires fresh { (number : ℕ) → is_marked marks.old number ≡ false }
    ensures { marked_among marks.new (all_steps base shared.now own.now) ≡ told_of base shared.now own.now }
{
    let first_own = base + shared.len();
    let Some((last, earlier)) = own.split_last() else {
        return;
    };
    mark_last(marks, first_own, first_own + earlier.len(), last);
    mark_earlier(marks, first_own, earlier);
    mark_earlier(marks, base, shared);
}

/// Marks the last step, and what it cites.
fn mark_last(marks: &mut [bool], first: usize, number: usize, last: &Step)
    requires order { first ≤ number }
    requires within { number < length marks.old }
    requires fresh { (other : ℕ) → is_marked marks.old other ≡ false }
    ensures cited { AreCited marks.new number (record { first = first; number = number; step = last.now } ∷ []) }
    ensures last { is_marked marks.new number ≡ true }
{
    marks[number] = true;
    mark_hints(marks, first, number, last.hints.as_slice());
}

/// Goes back over the steps of a list, the first of which has this number, and marks what those cite that are marked.
fn mark_earlier(marks: &mut [bool], first: usize, steps: &[Step])
    requires { first + length steps.now ≤ length marks.old }
    ensures { (told : List NumberedStep) → AreCited marks.old (first + length steps.now) told → AreWalked marks.old marks.new first (first + length steps.now) (numbered first steps.now) told }
{
    for place in (0..steps.len()).rev() {
        mark_step(marks, first, first + place, &steps[place]);
    }
}

/// Marks what a step cites, where it is marked.
fn mark_step(marks: &mut [bool], first: usize, number: usize, step: &Step)
    requires order { first ≤ number }
    requires within { number < length marks.old }
    ensures { (other : ℕ) → is_marked marks.new other ≡ (is_marked marks.old other || (is_marked marks.old number && (hints_cite first other step.now.hints && nat_lt other number))) }
{
    if is_marked(marks, number) {
        mark_hints(marks, first, number, step.hints.as_slice());
    }
}

/// Marks the numbers below this one that hints cite.
fn mark_hints(marks: &mut [bool], first: usize, number: usize, hints: &[u32])
    requires order { first ≤ number }
    requires within { number < length marks.old }
    ensures { (other : ℕ) → is_marked marks.new other ≡ (is_marked marks.old other || (hints_cite first other hints.now && nat_lt other number)) }
{
    if hints.is_empty() {
        mark_all(marks, first, number);
    } else {
        mark_each(marks, number, hints);
    }
}

/// Marks all numbers from one to another.
fn mark_all(marks: &mut [bool], first: usize, number: usize)
    requires order { first ≤ number }
    requires within { number < length marks.old }
    ensures { (other : ℕ) → is_marked marks.new other ≡ (is_marked marks.old other || (nat_le first other && nat_lt other number)) }
{
    for other in first..number {
        marks[other] = true;
    }
}

fn mark_each(marks: &mut [bool], number: usize, hints: &[u32])
    requires { number < length marks.old }
    ensures { (other : ℕ) → is_marked marks.new other ≡ (is_marked marks.old other || (list_any (λ hint. hint == other) hints.now && nat_lt other number)) }
{
    for hint in hints {
        mark(marks, number, *hint as usize);
    }
}

fn mark(marks: &mut [bool], number: usize, hint: usize)
    requires { number < length marks.old }
    ensures { (other : ℕ) → is_marked marks.new other ≡ (is_marked marks.old other || (hint == other && nat_lt other number)) }
{
    if hint < number {
        marks[hint] = true;
    }
}
