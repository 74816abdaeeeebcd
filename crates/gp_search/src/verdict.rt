use gp_certificate::Step;
use gp_clause::Valuation;

/// The answer to a query: values and places; a step over the log, whose cone is a certificate that refutes the query; or a
/// spent budget with the part of the log that was learned.
#[derive(Drop)]
pub enum Verdict {
    Model(Valuation),
    Refuted(Step),
    Spent { from: u32, to: u32 },
}
