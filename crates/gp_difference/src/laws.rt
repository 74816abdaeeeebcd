ghost use Rattle.gp_difference.specs.Places.{ClosedWalksRefute};

/// The walk that explains a refused bound refutes it: no places keep the walk's bounds and the refused one.
pub fn closed_walks_refute()
    ensures { ClosedWalksRefute }
{}
