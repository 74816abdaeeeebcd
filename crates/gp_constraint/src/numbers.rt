ghost use Rattle.std.specs.Prelude.{◌≡◌, ◌≤◌, ◌^◌, IfOk, MatchOption, MatchResult, length, map};
ghost use Rattle.gp_constraint.specs.Encoded.{IsSmall, point_in, size_at};
ghost use Rattle.gp_constraint.specs.Points.{first_of, number_at};

use gp_base::Row;
use gp_trace::Event;
use gp_window::EventId;
use std::alloc::{AllocError, Global};

/// How many events each thread has. More than can be counted want more memory than there is.
pub fn sizes_of(alloc: Global, segments: &[gp_base::Row<Event>]) -> Result<Row<u32>, AllocError>
    ensures { IfOk result (λ sizes. sizes ≡ map (λ segment. length segment) segments.now) }
{
    let mut sizes = Row::new(alloc);
    for segment in segments {
        let Ok(size) = u32::try_from(segment.len()) else {
            return Err(AllocError);
        };
        sizes.push(size)?;
    }
    Ok(sizes)
}

/// How many events a thread has.
fn size_at(sizes: &[u32], thread: u32) -> u32
    ensures { result ≡ size_at sizes.now thread }
{
    let Some(place) = thread.checked_sub(1) else {
        return 0;
    };
    match sizes.get(place as usize) {
        Some(size) => *size,
        None => 0,
    }
}

/// How many events so many first threads have together, where the number fits.
fn first_of(sizes: &[u32], threads: usize) -> Option<u32>
    ensures { MatchOption result (2 ^ 32 ≤ first_of sizes.now threads) (λ sum. sum ≡ first_of sizes.now threads) }
{
    let mut sum = 0u32;
    for (place, size) in sizes.iter().enumerate() {
        if place == threads {
            return Some(sum);
        }
        sum = sum.checked_add(*size)?;
    }
    Some(sum)
}

/// The number of an event. One that does not fit wants more memory than there is.
pub fn number_at(sizes: &[u32], id: EventId) -> Result<u32, AllocError>
    ensures { MatchResult result (λ number. number ≡ number_at sizes.now id.thread id.index) (λ e. 2 ^ 32 ≤ number_at sizes.now id.thread id.index) }
{
    let threads = id.thread.saturating_sub(1);
    let Some(first) = first_of(sizes, threads as usize) else {
        return Err(AllocError);
    };
    let Some(number) = first.checked_add(id.index) else {
        return Err(AllocError);
    };
    Ok(number)
}

/// The number of an event, where there is one.
pub fn point_in(sizes: &[u32], id: EventId) -> Option<u32>
    requires { IsSmall sizes.now }
    ensures { result ≡ point_in sizes.now id }
{
    if id.index >= size_at(sizes, id.thread) {
        return None;
    }
    match number_at(sizes, id) {
        Ok(number) => Some(number),
        Err(_) => None,
    }
}
