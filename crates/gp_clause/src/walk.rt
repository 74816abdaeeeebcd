ghost use Rattle.gp_clause.specs.Walk.{KeepingLeavesNoCycle};

/// Where places keep every edge, the edges hold no negative cycle.
pub fn keeping_leaves_no_cycle()
    ensures { KeepingLeavesNoCycle }
{}
