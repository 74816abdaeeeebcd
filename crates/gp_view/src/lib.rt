// One instance of a report for people: what it is, its events as their traces have them, what was seen of it, and what shows
// its answer. A found one has the story of its schedule, or on a page the drawing of that; an impossible one has the steps of
// its certificate as facts of its events. Each event has its place in the program where one is told. All is put at the end of
// a text, so that the text so far stays. Where memory is wanting, no contract says what the text is.
#![tactic(auto)]

mod answered;
mod laws;
mod page;
mod shown;
mod text;
mod words;

pub use answered::Answered;
pub use laws::{answers_have_own_markup, shows_examples};
pub use page::put_answered_part;
pub use shown::{is_of, reason_in, story_in};
pub use text::put_answered;
pub use words::answer_word;
