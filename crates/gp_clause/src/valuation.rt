ghost use Rattle.gp_clause.specs.Valuation.{ValuationsExtend, BoundsMean, ValuationsMeet};

use gp_base::Row;

/// An answer: a truth value for each variable, and a place for each point. Places may tie where no variable tells two
/// points apart.
#[derive(Drop)]
pub struct Valuation {
    pub truth: Row<bool>,
    pub places: Row<i64>,
}

/// A law: a valuation of a problem extends to any locals.
pub fn valuations_extend()
    ensures { ValuationsExtend }
{}

/// A law: what a variable says of the places is its bound.
pub fn bounds_mean()
    ensures { BoundsMean }
{}

/// A law: a valuation that makes clauses and assumptions true, written down as an answer, meets problem and query.
pub fn valuations_meet()
    ensures { ValuationsMeet }
{}
