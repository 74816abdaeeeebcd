// The public calls of the analysis, each handed on for any question by a function that promises what the call promises. The
// wrong bodies that turn what a call means stand here, in a crate that is proved in seconds.
#![tactic(auto)]

mod analyses;

pub use analyses::{analyse, analyse_compact, too_much};
