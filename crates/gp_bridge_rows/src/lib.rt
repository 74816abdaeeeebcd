// What is added to the crates from outside, by nothing but what these make public: a small family of clauses, that an event is
// executed, and a second question of each window of a recording, which threads can come to the end of their segment. It goes
// through the same analysis as the question for patterns. The rows of both stand here too.
#![tactic(auto)]

#[cfg(test)]
mod ending;
mod ends;
mod giving;
mod happens;
mod laws;
mod listing;
#[cfg(test)]
mod numbers;
#[cfg(test)]
mod recorded;

pub use ends::Ends;
pub use happens::Happens;
pub use laws::happens_means;
