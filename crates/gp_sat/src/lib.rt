// A solver of clauses. It keeps a trail of true literals, each of a level: a decision begins a level, and propagation adds
// the literals that unit clauses force. Where a clause is false, the analysis walks the trail backwards and replaces
// literals by the reasons for them, until a clause is left that follows from the conflict and these reasons. A backjump
// takes back the levels above one. The trail is closed at a level where no clause is false or unit by the literals up to it.
#![tactic(auto)]

mod analysis;
mod assigned;
mod kernel;
mod marking;
mod pending;
mod propagation;
mod solver;
mod store;
mod values;
mod walk;
mod watches;

pub use analysis::Learned;
pub use assigned::Assigned;
pub use propagation::Propagated;
pub use solver::Solver;
