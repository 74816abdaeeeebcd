// The definitions of what is due never give the answer without a text, which stands for want of memory and for a fault of the
// folder: a law for each reader, whose fault says something of the files, and above these the laws of what is due to a run of the
// program that analyses, of the one that shows a report, and of the one that cuts and merges.
#![tactic(auto)]

mod laws;

pub use laws::{
    contents_want_no_memory, instances_want_no_memory, lines_want_no_memory, never_due,
    parts_want_no_memory, properties_want_no_memory, recordings_want_no_memory,
    replays_want_no_memory, reports_want_no_memory, schedules_want_no_memory, shards_are_done,
    shards_never_due, shown_never_due, shown_texts_are_done, texts_are_done, traces_want_no_memory,
};
