ghost use Rattle.std.specs.Prelude.{◌≡◌, IfOk, OnOk};
ghost use Rattle.gp_instance.specs.Region.{end_at, ends_of, waiting_at};

use gp_base::Row;
use gp_trace::Event;
use std::alloc::{AllocError, Global};
use std::collections::VecDeque;

/// For each event of a segment the index of the end that closes the region that it begins.
///
/// This is one walk from the last event to the first. The ends whose begins are still to come wait,
/// the nearest first; since regions nest, a begin takes the nearest.
pub fn ends_of(alloc: Global, segment: &[Event]) -> Result<Row<Option<usize>>, AllocError>
    ensures { IfOk result (λ ends. ends ≡ ends_of segment.now) }
{
    let mut waiting = VecDeque::new(alloc);
    let mut ends = Vec::new(alloc);
    for behind in 0..segment.len() {
        let index = segment.len() - 1 - behind;
        let end = take_end(&segment[index], index, &mut waiting)?;
        ends.push(end)?;
    }
    ends.reverse();
    Ok(Row::from_vec(ends))
}

/// The end that an event takes of those that wait, and the ends that wait before it.
fn take_end(
    event: &Event,
    index: usize,
    waiting: &mut VecDeque<usize>,
) -> Result<Option<usize>, AllocError>
    ensures end { IfOk result (λ end. end ≡ end_at event.now waiting.old.items) }
    ensures waiting { OnOk result (waiting.new.items ≡ waiting_at event.now index waiting.old.items) }
{
    match event {
        Event::Begin(_) => Ok(waiting.pop_front()),
        Event::End(_) => {
            waiting.push_front(index)?;
            Ok(None)
        }
        _ => Ok(None),
    }
}
