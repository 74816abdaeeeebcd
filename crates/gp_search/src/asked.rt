use gp_clause::{Problem, Query};

// A query, and the problem of which it is asked.
#[derive(Drop)]
pub(crate) struct Asked<'a> {
    pub(crate) problem: &'a Problem,
    pub(crate) query: &'a Query,
}
