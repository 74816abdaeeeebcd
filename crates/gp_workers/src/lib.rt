// The workers of a window: its queries are answered once each, every answer with its evidence, and every worker keeps a
// record of what it learned and in which turn.
//
// The number of a query is its ticket. Each worker draws a ticket by one atomic step on a word that all share, answers the
// query by a search of its own, and ends when none is left. Then their drawers are put together into one, which knows that
// each ticket was drawn once, and the answers are sorted by ticket. One worker does the same in the calling thread, and so do
// several in turn, who have the inboxes of one window renewed for the next.
#![tactic(auto)]

mod crew;
mod desk;
mod inboxes;
mod mail;
mod post;
mod sharing;
mod window;
mod work;
mod worker;

pub use post::Post;
pub use window::{work_all, work_in_turn, work_one};
pub use work::{WindowWork, WorkAnswer, certificate_by, takes_from_another, takes_prefixes};
