// The analysis of a recording: each ask of a question in each window is answered once, by what shows it, by a certificate
// that nothing does, or by the part of a worker's log that spent the budget.
//
// A question says what is asked of a window: why the window is left out, or its constraints, the steps that its certificates
// share from the start, the asks of each subject, the query of an ask, and what a valuation of the query shows. A window's
// constraints are made once. Its asks are listed, subject by subject; each that has no answer yet is a query, whose ticket is
// its number in that list; the workers answer the queries, each query once, and each answer is recorded with its evidence. A
// refutation is known by its last step over a worker's log; its certificate is made when it is recorded, and told over the steps
// that are shared.
//
// In the compact form each certificate is made twice: a first walk over the asks of a window moves into its shared steps what rests
// on its constraints alone, and a second one records each answer over all of them.
#![tactic(auto)]

mod analysing;
mod certifying;
mod counting;
mod drawn;
mod entries;
mod left;
mod listing;
mod question;
mod runs;
mod sharing;
mod side_by_side;
mod subjects;
mod task;
mod window;

pub use analysing::{analyse, analyse_compact};
pub use counting::too_much;
pub use question::{EncodeFault, LeftOut, Question, TooLarge};
