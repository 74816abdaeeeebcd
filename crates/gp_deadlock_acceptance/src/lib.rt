// What task stuck answers, the checker of deadlocks accepts: the law that joins the two crates, which know nothing of each other.
#![tactic(auto)]

mod laws;

pub use laws::answered_deadlocks_are_accepted;
