ghost use Rattle.gp_clause.specs.Closure.{ClosureIsLeast, DerivedMeans};

/// Where the start and the clauses are true, so is each literal that unit clauses derive, and no clause
/// is false.
pub fn derived_means()
    ensures { DerivedMeans }
{}

/// A partial assignment that makes the start true and leaves no clause false or unit makes true each
/// literal that unit clauses derive, and then no clause is false.
pub fn closure_is_least()
    ensures { ClosureIsLeast }
{}
