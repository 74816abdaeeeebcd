// What people see of a report, for programs that gather what analysers find: a log in the Static Analysis Results Interchange Format
// (SARIF) 2.1.0, with a result for each found instance, whose schedule is a code flow. All is put at the end of a text, so that the text
// so far stays. Where memory is wanting, no contract says what the text is.
#![tactic(auto)]

mod flow;
mod location;
mod log;
mod message;
mod notification;
mod result;
mod uri;

pub use log::{
    pieces_are_the_log, put_counted, put_end, put_left_out, put_log_head, put_uncounted,
};
pub use result::put_result;
