// What people see of a report, for other programs: the verdict, how often each property has which answer, and instances with what
// shows their answers, each as the text of a JSON value. It tells what the text tells, each thing once. All is put at the end of a
// text, so that the text so far stays. Where memory is wanting, no contract says what the text is.
#![tactic(auto)]

mod event;
mod instance;
mod overview;
mod reason;
mod report;
mod sentence;
mod story;

pub use event::put_event_words;
pub use instance::put_answered;
pub use report::{
    pieces_are_the_value, put_counted, put_end, put_left_out, put_overview, put_uncounted,
};
