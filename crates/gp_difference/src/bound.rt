use gp_clause::Edge;

/// An edge that a graph keeps, with the tag that it was asserted under. A fixed edge has no tag.
#[derive(Clone, Copy, PartialEq, Eq)]
pub struct Bound {
    pub edge: Edge,
    pub tag: Option<u32>,
}
