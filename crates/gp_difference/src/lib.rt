// A graph of difference constraints: each says that the place of one point minus the place of another is at most a
// number. The graph keeps a place for each point, and these places keep all its constraints. A new constraint is
// tried from the places that stand: where they break it, points are lowered, the one that fell most first, until all
// constraints are kept or the new one closes a cycle whose numbers add up to less than zero. Such a cycle is told by
// the tags of its constraints. Constraints are taken back in the reverse of the order in which they came.
#![tactic(auto)]

mod anew;
mod bound;
mod bounds;
mod falls;
mod fault;
mod graph;
mod keeping;
mod laws;
mod lower;
mod order;
mod placement;
mod settle;
mod start;

pub use bound::Bound;
pub use fault::{Asserted, GraphFault};
pub use graph::Graph;
pub use keeping::keeps;
pub use laws::closed_walks_refute;
