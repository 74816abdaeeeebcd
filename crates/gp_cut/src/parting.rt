ghost use Rattle.std.specs.Prelude.{◌≡◌, ◌≤◌, ◌<◌, ◌+◌, ◌^◌, length, sum};
ghost use Rattle.gp_trace.specs.Trace.{IsLocalTrace};
ghost use Rattle.gp_window.specs.Holders.{segment_after};
ghost use Rattle.gp_cut.specs.Parts.{part_of, weight_of, weights_of, windows_to};

use gp_trace::{Event, LocalTrace};
use gp_window::Recording;

/// Neighbouring windows of a recording: how many windows are before them, and how many they are.
#[derive(Clone, Copy, PartialEq, Eq)]
pub struct Part {
    pub before: u32,
    pub count: u32,
}

/// The part of this number, from 1, where a recording is parted into so many parts that are as even in
/// events as whole windows allow.
pub fn part_of(recording: &Recording, part: u32, parts: u32) -> Part
    requires first { 1 ≤ part }
    requires last { part ≤ parts }
    requires few { parts ≤ 4096 }
    ensures value { result ≡ part_of part parts (weights_of recording.now) }
    ensures within { result.before + result.count ≤ recording.now.manifest.epochs }
{
    let before = windows_to(recording, part - 1, parts);
    Part {
        before,
        count: windows_to(recording, part, parts) - before,
    }
}

/// How many windows this part and those before it have together.
fn windows_to(recording: &Recording, part: u32, parts: u32) -> u32
    requires last { part ≤ parts }
    requires few { parts ≤ 4096 }
    ensures { result ≡ windows_to part parts (weights_of recording.now) }
{
    let end = 2 * u64::from(part) * whole_weight(recording);
    let windows = recording.manifest().epochs();
    let mut passed = 0;
    for before in 0..windows {
        let weight = weight_of(recording, before);
        if (passed + passed + weight) * u64::from(parts) >= end {
            return before;
        }
        passed += weight;
    }
    windows
}

/// What all windows weigh together.
fn whole_weight(recording: &Recording) -> u64
    ensures value { result ≡ sum (weights_of recording.now) }
    ensures small { result ≤ 2 ^ 50 }
{
    let mut whole = 0;
    for before in 0..recording.manifest().epochs() {
        whole += weight_of(recording, before);
    }
    whole
}

/// What the window weighs that has so many before it.
fn weight_of(recording: &Recording, before: u32) -> u64
    ensures value { result ≡ weight_of recording.now before }
    ensures small { result ≤ 2 ^ 38 }
{
    let mut events = 0;
    for trace in recording.traces() {
        events += events_in(trace, before);
    }
    events + 1
}

/// How many events the segment has that has so many before it.
fn events_in(trace: &LocalTrace, before: u32) -> u64
    ensures value { result ≡ length (segment_after before trace.now) }
    ensures small { result < 2 ^ 32 }
{
    segment_after(before as usize, trace).len() as u64
}

/// The segment of a trace that has so many before it; no events where there is none.
pub fn segment_after(before: usize, trace: &LocalTrace) -> &[Event]
    ensures value { result.now ≡ segment_after before trace.now }
    ensures rules { IsLocalTrace trace.now }
{
    match trace.segments().get(before) {
        Some(segment) => segment.as_slice(),
        None => &[],
    }
}
