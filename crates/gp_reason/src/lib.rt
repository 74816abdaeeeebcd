// Why an instance is impossible, in values and not yet as text. A certificate is a list of clauses, each with the numbers of
// those that it follows from. Here each literal is a fact of the window's events, each clause of the window is one of a
// family, as program order or what a read sees, and of the steps only those are told on which the last one rests, each with a cycle of events by which it follows, where there is one.
#![tactic(auto)]

mod cycles;
mod fact;
mod families;
mod laws;
mod marking;
mod reasons;
mod steps;
mod telling;
mod vocabulary;

pub use fact::Fact;
pub use laws::{
    assumed_is_asked, cycles_are_forced, facts_are_true, families_are_told, gives_examples,
    grounds_are_enough, reasons_are_enough, reasons_tell_what_they_rest_on,
};
pub use reasons::{Ground, Reason, ReasonStep};
pub use telling::reason;
