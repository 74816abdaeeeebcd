// Which windows are linked: of each window of a recording but the last, whether it can run wholly and end in the start values
// of the next. One search is asked whether the problem of both has an answer. A model gives a schedule that links the two by the
// places of its executed events; a schedule that links them gives an answer, so a refutation is a certificate that none does;
// and a search that spent its budget leaves its log. Windows are asked side by side.
#![tactic(auto)]

mod answer;
mod asking;
mod drawn;
mod laws;
mod printing;
mod problem;
mod recording;
mod replaying;
mod status;
mod tally;
mod window;

pub use answer::{LinkAnswer, LinkReport};
pub use laws::links_are_answered;
pub use printing::print_links;
pub use recording::link_recording;
pub use replaying::linked_windows_replay;
pub use status::status_of;
pub use window::link_window;
