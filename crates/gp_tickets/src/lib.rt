// Tickets: the numbers below a count, each of which is drawn once, by any drawer of a crew.
//
// A draw is one atomic step on a word that all drawers share, and waits for nobody. A drawer knows what it drew, and that no
// other drawer drew it. When two drawers are put together, one knows what both drew; one that stands for the whole crew, and
// was told that no number is left, knows that each number was drawn once. What was made of the numbers is put together in the
// same way, and comes out in their order.
#![tactic(auto)]

mod draw;
mod drawn;
mod hand;
mod rule;
mod tickets;

pub use drawn::{Drawn, Made};
pub use hand::Hand;
pub use tickets::{Drawer, Tickets};
