// An inbox, through which searches over one problem pass clauses to one of them, from several threads at once.
//
// An inbox has some senders, each with a number, and one taker. What it was given is its history: the clauses that were taken
// from it, followed by those that it holds. A push adds a clause at the end of the history, and a take moves one from held to
// taken. Each pass of an inbox knows what was pushed and taken through it. The rule ties what the passes know to what the
// queue holds, so a clause that is taken is good for the problem, and the taker need not check it.
// An inbox that was emptied, whose passes were all joined into one, serves another problem: its history begins anew.
#![tactic(auto)]

mod history;
mod inbox;
mod opening;
mod rule;

pub use history::history_moves;
pub use inbox::{Inbox, Pass};
pub use rule::View;
