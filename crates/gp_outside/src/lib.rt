// The outside of the product: where files are read and written, where text goes to, and where workers wait.
// A `Folder` may tell which files it holds, and a `Sink` which bytes were written to it; both keep a
// count of faults that never falls, and each answer of a fault shows in that count. The forms over
// memory tell all, fail at the calls that a script names, and are exact. The edges over real files
// and standard output tell no content. A `Gate` is passed by a worker after each ticket that it drew.
#![tactic(auto)]

mod dir_folders;
mod folders;
mod gates;
mod hold_gate;
mod memory_folders;
mod memory_sinks;
mod outputs;
mod sinks;
mod std_sinks;
mod writing;

pub use dir_folders::{DirFolder, read_within};
pub use folders::{Folder, ReadFault, WriteFault};
pub use gates::{FreeGate, Gate};
pub use hold_gate::HoldGate;
pub use memory_folders::MemoryFolder;
pub use memory_sinks::MemorySink;
pub use outputs::Output;
pub use sinks::{PutFault, Sink};
pub use std_sinks::StdSink;
