// What a search derives, and how it passes that on. A log holds the clauses that a search learned and took, in order. The
// cone of a step is the certificate that is made of the steps on which it rests. A clause is fit to share with other
// searches over the same problem where it is short and its cone is small.
#![tactic(auto)]

mod cones;
mod exchange;
mod fit;
mod log;
mod numbering;
mod reach;
mod record;
mod room;
mod tester;
mod tightening;

pub use cones::{cone, cone_checks, cone_is_there, cone_is_unique, cone_of_stays, cone_stays};
pub use exchange::{SharedClause, fit_is_good, good_follows};
pub use fit::{fit_stays, small_cone};
pub use log::{LogEntry, Origin, log_grows, pure_follows};
pub use numbering::can_be_numbered;
pub use record::{Offered, Sent, Turn, WorkerRecord, spent_stays};
pub use tester::Tester;
pub use tightening::tight;
