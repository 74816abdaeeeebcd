// The files of windows that are cut out of a recording: a manifest and the trace of each thread, in the plainest spelling. Written
// into a directory they are read there as the recording that the windows are with their stage, so that another machine can look at
// them alone.
#![tactic(auto)]

mod files;
mod laws;
mod lines;
mod manifest;
mod staging;
mod started;
mod traces;
mod values;

pub use files::cut_files;
pub use laws::{
    cut_files_examples, cuts_are_read, manifests_read_again, recordings_read_again,
    what_is_read_can_be_spelled,
};
pub use manifest::cut_manifest;
pub use traces::cut_trace;
