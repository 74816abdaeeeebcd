// The public calls from the constraints of a window to whole command lines, each once more. A function here hands on one
// call of a crate below under that call's own contract, word for word, and adds nothing; no crate uses it. The wrong bodies
// that stand beside it turn what a call means, and the contract refuses each, as it would in the crate below, which is so
// proved once and not again for its wrong bodies. A contract that is weakened below no longer gives what is promised here.
#![tactic(auto)]

mod answers;
mod constraints;
mod reports;
mod showing;
mod top;

pub use answers::{analyse, analyse_compact, too_much};
pub use constraints::{base, executed_of, extended, query, schedule_of};
pub use reports::{check_report, compact, print_report, read_report};
pub use showing::show;
pub use top::run;
