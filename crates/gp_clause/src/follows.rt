ghost use Rattle.gp_clause.specs.Follows.{MembersFollow, FollowsThrough, FollowsFromMore, LocalsChangeNothing};

/// A law: each clause of a list follows from the list.
pub fn members_follow()
    ensures { MembersFollow }
{}

/// A law: what follows from clauses that follow from a list follows from the list.
pub fn follows_through()
    ensures { FollowsThrough }
{}

/// A law: what follows from a part of a list follows from the list.
pub fn follows_from_more()
    ensures { FollowsFromMore }
{}

/// A law: locals change nothing for clauses of a problem's own variables.
pub fn locals_change_nothing()
    ensures { LocalsChangeNothing }
{}
