// Which shared lists pass and which certificates refute, as tests. That the steps of a list pass, and that a certificate
// refutes a query over it, is decided, so that definitions may go by it; and a judge tells it.
#![tactic(auto)]

mod judging;
mod laws;

pub use judging::{refutes_over, shared_passes};
pub use laws::refutations_are_decided;
