// What people see of a report: the verdict on it, how often each property is found, impossible and undecided, and instances with what
// shows their answers, the found ones first, as text, as one page, as one JSON value, or as a log in SARIF.
//
// `show` reads a recording, its properties and a report, as task check does, and what may stand beside them: where in the program the events
// are, and which instances were seen to happen. It checks the report. What is rejected is told with the reason, and
// then none of its instances is shown, since what they say may be wrong. A file that breaks a rule is refused by its name, the line
// and the rule; a fault of the folder or of the sink is never told as an answer. A page wants nothing from outside, and nothing that the
// files hold is read as markup.
#![tactic(auto)]

mod answers;
mod choice;
mod foot;
mod head;
mod laws;
mod left_out;
mod page;
mod passes;
mod request;
mod shown;
mod telling;
mod top;
mod writing;

pub use laws::{answers_are_entries, json_is_one_value, pages_have_own_markup, sarif_is_one_log};
pub use top::show;
