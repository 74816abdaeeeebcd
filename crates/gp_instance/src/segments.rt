ghost use Rattle.std.specs.Prelude.{◌≡◌, IfOk, map, slice_get};
ghost use Rattle.std.specs.Option.{option_copied, option_flatten};
ghost use Rattle.gp_window.specs.Events.{event_in, segment_in};
ghost use Rattle.gp_instance.specs.Region.{end_of, ends_in, ends_of};
ghost use Rattle.gp_instance.specs.Search.{AreSmall};

use crate::region::ends_of;
use gp_base::Row;
use gp_trace::Event;
use gp_window::{EventId, Window};
use std::alloc::{AllocError, Global};
use std::marker::Model;

/// The events of each thread of a window, with the ends of their regions, and the memory to work in.
/// Contracts see the events.
#[derive(Drop)]
pub struct Segments<'a> {
    segments: &'a [Row<Event>],
    ends: Row<Row<Option<usize>>>,
    alloc: Global,
}

impl<'a> Model for Segments<'a> {
    ghost use Rattle.std.specs.Prelude.{List, ◌≡◌, map};
    ghost use Rattle.gp_trace.specs.declared.event.Event.{Event};
    ghost use Rattle.gp_instance.specs.Region.{ends_of};
    ghost use Rattle.gp_instance.specs.Search.{AreSmall};

    ghost Value = { List (List Event) };

    ghost view = { λ s. s.segments.now };

    ghost invariant = { λ s. AreSmall s.segments.now × (s.ends ≡ map ends_of s.segments.now) };
}

impl<'a> Segments<'a> {
    /// The events of a window.
    pub fn new(alloc: Global, window: &'a Window) -> Result<Segments<'a>, AllocError>
        ensures { IfOk result (λ segments. segments ≡ window.now.segments) }
    {
        let segments = window.segments();
        let ends = all_ends(alloc, segments)?;
        Ok(Segments {
            segments,
            ends,
            alloc,
        })
    }

    pub fn alloc(&self) -> Global {
        self.alloc
    }

    /// The events of each thread, in order of thread.
    pub fn threads(&self) -> &[Row<Event>]
        ensures value { result.now ≡ self.now }
        ensures small { AreSmall result.now }
    {
        self.segments
    }

    /// The event that an id names, where there is one.
    pub fn event(&self, id: EventId) -> Option<&Event>
        ensures { option_copied result ≡ event_in self.now id }
    {
        self.segment(id.thread).get(id.index as usize)
    }

    /// The events of the thread of this number, from 1.
    fn segment(&self, thread: u32) -> &[Event]
        ensures { result.now ≡ segment_in self.now thread }
    {
        if thread == 0 {
            return &[];
        }
        match self.segments.get(thread as usize - 1) {
            Some(segment) => segment.as_slice(),
            None => &[],
        }
    }

    /// The index of the end that closes the region that an event begins.
    pub fn end_of(&self, id: EventId) -> Option<usize>
        ensures { result ≡ end_of (segment_in self.now id.thread) id.index }
    {
        end_at_index(self.ends(id.thread), id.index as usize)
    }

    /// The ends of the regions of the thread of this number, by the index of their begins.
    fn ends(&self, thread: u32) -> &[Option<usize>]
        ensures { result.now ≡ ends_in self.now thread }
    {
        if thread == 0 {
            return &[];
        }
        match self.ends.as_slice().get(thread as usize - 1) {
            Some(ends) => ends.as_slice(),
            None => &[],
        }
    }
}

fn end_at_index(ends: &[Option<usize>], index: usize) -> Option<usize>
    ensures { result ≡ option_flatten (slice_get ends.now index) }
{
    match ends.get(index) {
        Some(end) => *end,
        None => None,
    }
}

fn all_ends(alloc: Global, segments: &[Row<Event>]) -> Result<Row<Row<Option<usize>>>, AllocError>
    ensures { IfOk result (λ ends. ends ≡ map ends_of segments.now) }
{
    let mut ends = Row::new(alloc);
    for segment in segments {
        ends.push(ends_of(alloc, segment.as_slice())?)?;
    }
    Ok(ends)
}
