// Certificates that were made alone, told over a list of shared steps. The shared steps are numbered between the base
// clauses and a certificate's own steps, so each hint to an own step moves past them, and all else stays as it is.
#![tactic(auto)]

mod laws;
mod raising;

pub use laws::raised_refutes;
pub use raising::raise;
