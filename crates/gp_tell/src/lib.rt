// Stories and reasons as text that people read: a schedule line by line, with what each event looks back at, and why an
// instance is impossible, fact by fact and step by step, each event with its place in the program where one is told; beside
// them an event's own words, and the sentences of a reason one by one. All is put at the end of a text, so that the text so far stays. Where memory is wanting, no
// contract says what the text is.
#![tactic(auto)]

mod event;
mod fact;
mod laws;
mod line;
mod naming;
mod reason;
mod story;

pub use event::put_event;
pub use fact::{put_any, put_fact};
pub use laws::tells_texts;
pub use line::put_number;
pub use naming::Naming;
pub use reason::{put_cycle_words, put_ground_words, put_reason};
pub use story::put_story;
