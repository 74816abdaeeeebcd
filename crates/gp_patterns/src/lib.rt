// Patterns: the question which instances of properties are possible in each window of a recording, and the report that
// answers it. Each instance is answered once, by a schedule that shows it, by a certificate that no schedule does, or by the
// part of a worker's log that spent the budget.
#![tactic(auto)]

mod analysing;
mod encoding;
mod laws;
mod patterns;

pub use analysing::{analyse, analyse_compact, too_much};
pub use encoding::{encode_window, is_large};
pub use laws::{enough_decides, patterns_answered, reports_agree};
pub use patterns::Patterns;
