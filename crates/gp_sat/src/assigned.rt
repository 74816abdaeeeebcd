/// The assignment of a variable: its truth, its decision level, its place on the trail, and the number of the clause that
/// forced it, which a decision does not have.
#[derive(Clone, Copy, PartialEq, Eq)]
pub struct Assigned {
    pub positive: bool,
    pub level: u32,
    pub place: u32,
    pub reason: Option<u32>,
}
