use crate::clause::Clause;
use crate::edge::Edge;
use crate::kind::Kind;
use crate::lit::Lit;
use gp_base::Row;

/// Points are the numbers below `points`, and variables are the places of `kinds`.
#[derive(Drop)]
pub struct Problem {
    pub points: u32,
    pub kinds: Row<Kind>,
    pub edges: Row<Edge>,
    pub clauses: Row<Clause>,
}

/// A question to a problem. The locals are variables that are numbered after those of the problem.
#[derive(Drop)]
pub struct Query {
    pub locals: Row<Kind>,
    pub assumed: Row<Lit>,
}
