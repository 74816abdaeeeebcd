ghost use Rattle.gp_instance.specs.Listed.{ListsExactly};
ghost use Rattle.gp_instance.specs.Matched.{MatchesMeans};
ghost use Rattle.gp_instance.specs.RegionsTold.{RegionsCloseAsBegun};
ghost use Rattle.gp_instance.specs.Rows.{GroupsStandInRows};

/// The list of instances has every list of events that is an instance and no other, in lexicographic
/// order, none twice.
pub fn lists_exactly()
    ensures { ListsExactly }
{}

/// In a schedule in which no event stands twice, the events of a group stand together exactly where
/// the schedule has them in a row, in some order.
pub fn groups_stand_in_rows()
    ensures { GroupsStandInRows }
{}

/// A schedule in which no event stands twice passes `matches` exactly where each event of the instance
/// stands in it, once, each event of a step before each of the next step, and those of a step side by side.
pub fn matches_means()
    ensures { MatchesMeans }
{}

/// The end that counting finds for the begin of a region is the one that closes it: the thread stays in the
/// region up to it, and before it the region is the innermost.
pub fn regions_close_as_begun()
    ensures { RegionsCloseAsBegun }
{}
