// What the analysis answers, the checker accepts, and its compact form answers the same: the laws that join the three
// crates, which know nothing of each other.
#![tactic(auto)]

mod laws;

pub use laws::{answered_is_accepted, compact_is_answered, resumed_is_accepted};
