// What may stand beside a report for people, read from the files of a folder: the file `places` and those of the threads, which say where in
// the program each event of the recording is, and the file `confirmed`, which says what was seen to happen. Each of them may be absent. One
// that breaks a rule is left out, and named with its line and its rule; it is never a reason to show nothing.
#![tactic(auto)]

mod beside;
mod fault;
mod files;
mod laws;
mod numbers;
mod place_list;
mod sightings;
mod sources;

pub use beside::{Noted, noted_at};
pub use fault::{Cause, NoteFault, NoteFile, NoteStop, put_fault};
pub use laws::places_examples;
