// Sleep and notify: the meaning of condition variables over the constraints of a window. A wake needs a signal of its condition
// by another thread, after its sleep and before it, and a signal to one wakes one. To the constraints of a window come clauses
// that say so: an executed wake takes a signal; a signal that is taken is executed, after the sleep and before the wake; and no
// two wakes take one signal to one.
#![tactic(auto)]

mod call;
mod call_tables;
mod calling;
mod deciding;
mod fault;
mod laws;
mod lifting;
mod notify_problem;
mod pair;
mod pairing;
mod signals;
mod sleeping;
mod takers;
mod wake_sleeps;

pub use call::Call;
pub use calling::call_of;
pub use deciding::signalled;
pub use fault::NotifyFault;
pub use laws::{
    answers_are_lowered, extended_is_valid, numbers_are_lifted, signals_are_added,
    signals_are_sound, signals_examples, sleeps_are_found, sleeps_are_scanned, test_is_exact,
};
pub use notify_problem::{NotifyProblem, extend};
pub use pair::Pair;
