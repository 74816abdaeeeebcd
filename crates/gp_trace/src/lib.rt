// The trace of one thread: what it did, in its own order, in segments between marks. A recorder sets a
// mark at the same moment of the run in every thread's trace, so the segments of one number belong to
// one window. Within one thread the rules of locks and regions are checked: a lock is released by its
// holder alone and is not acquired twice, regions end innermost first, and no thread starts or joins
// itself. `exit` ends the thread: only marks follow it. Nothing is said of the order between threads.
#![tactic(auto)]

mod event;
mod fault;
mod grammar;
mod line;
mod lock_use;
mod operation;
mod printing;
mod rules;
mod standing;
mod trace;
mod walk;

pub use event::Event;
pub use fault::TraceFault;
pub use grammar::traces_are_spelled;
pub use lock_use::{LockMode, LockUse};
pub use operation::Operation;
pub use printing::{print_trace, trace_reads_again};
pub use rules::Standing;
pub use standing::standing_behind;
pub use trace::{LocalTrace, read_trace, traces_fit};
