// The public calls of the crates about recordings, each once more. A function here hands on one call of a crate below under
// that call's own contract, word for word, and adds nothing; no crate uses it. The wrong bodies that stand beside it turn
// what a call means, and the contract refuses each, as it would in the crate below, which is so proved once and not again
// for its wrong bodies. A contract that is weakened below no longer gives what is promised here.
#![tactic(auto)]

mod making;
mod matching;
mod outside;
mod recordings;
mod texts;

pub use making::{command_of, make, write_recording};
pub use matching::{instances, matches};
pub use outside::{put_into_memory, read_from_memory, write_into_memory};
pub use recordings::{cut, next_window, read_recording, replay, windows_from};
pub use texts::{read_lines, read_manifest, read_properties, read_schedule, read_trace};
