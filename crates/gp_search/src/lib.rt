// One search over a problem. It answers one query after another: with values and places that meet the problem and the
// query, with a step whose cone refutes the query, or with as many learned clauses as the query's budget allows. The
// assumptions of a query are its first decisions. The solver's trail and the difference graph go along: each literal of
// the trail that bounds two places is a bound of the graph, and a negative cycle is a conflict of such literals. What is
// learned at a query is made tight and logged with its hints, and what rests on the problem alone serves the queries
// after it. A mail brings clauses from the searches beside it, with their certificates, and takes to them what is learned
// and has a small certificate. A step costs what it adds or takes back, and a query's end what the query touched.
#![tactic(auto)]

mod answering;
mod asked;
mod bounds;
mod deciding;
mod engine;
mod learning;
mod lesson;
mod mail;
mod search;
mod sharing;
mod taking;
mod theory;
mod turn;
mod verdict;

pub use mail::{Mail, NoMail};
pub use search::Search;
pub use verdict::Verdict;
