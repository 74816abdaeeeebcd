// Neighbouring windows of a recording as a recording of their own, in definitions and laws: what stands behind the mark at which they
// are cut off, as locks, regions, threads and values, is set by a window of its own before them. So one machine can look at some of
// the windows of a long recording, and what it says of them is true of the whole. `part_of` says which windows are which part, so that
// the parts are as even in events as whole windows allow.
#![tactic(auto)]

mod laws;
mod parting;

pub use laws::{
    cut_windows_are_the_same, cuts_are_recordings, cuts_examples, parts_are_even, parts_are_whole,
    parts_examples,
};
pub use parting::{Part, part_of, segment_after};
