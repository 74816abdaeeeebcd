// Sleep and notify: the question which instances of properties are possible where each wake needs a signal that came after its
// thread slept, and the report that answers it. Each instance is answered once, by a schedule with a signal for each of its
// wakes, by a certificate that no schedule with signals matches, or by the part of a worker's log that spent the budget. A window
// with a wake before which its thread does not sleep is not asked.
#![tactic(auto)]

mod analysing;
mod encoding;
mod laws;
mod notified;
mod paired;
mod printing;
mod report;
mod showing;
mod status;
mod unpaired;

pub use analysing::{analyse, too_much};
pub use laws::signals_are_answered;
pub use notified::Notified;
pub use paired::Paired;
pub use printing::print_notified;
pub use report::{NotifyReport, Unpaired};
pub use status::status_of;
