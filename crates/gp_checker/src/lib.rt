// The check of a report, which trusts nobody: not the one who wrote it, and no solver.
//
// The checker goes through windows, properties and instances in order and tells the first failure. It makes the
// constraints of each window anew, lists the instances anew, replays each schedule and tests each step of each
// certificate. So what it accepts is true. What a check of another question's reports has in common with this one is public too.
#![tactic(auto)]

mod answer;
mod certificate;
mod checker;
mod checking;
mod entries;
mod failure;
mod laws;
mod properties;
mod schedule;
mod window;

pub use answer::check_budget;
pub use checker::Checker;
pub use checking::{at_end, check_report, wrong_count};
pub use entries::are_same;
pub use failure::{Checked, Failure, Reason};
pub use laws::{accepted_is_true, checks_are_exact};
pub use properties::check_too_many;
pub use window::check_size;
