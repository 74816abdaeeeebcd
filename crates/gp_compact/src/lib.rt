// The compact form of a report: in each window the steps of certificates that rest on the constraints alone stand once, and
// are cited by number. A compact report is accepted exactly where the report is of which it was made.
#![tactic(auto)]

mod compacting;
mod rewriting;
mod sharing;

pub use compacting::{compact, compact_keeps_acceptance};
