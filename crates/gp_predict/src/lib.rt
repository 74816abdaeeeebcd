// The top call: from the words of a command line, a folder and a sink to a status, a text and, of an analysis, of links or of
// deadlocks, its report.
//
// `run` reads a recording, which is the separate traces of the threads of one run. Task replay reads a
// schedule, and says whether it can happen: `feasible N`, or `stuck P R` with the place and the rule of
// the first event that may not happen. Task list reads properties, and lists the instances of each in
// each window. Task analyse answers each of these instances, and writes the report; task notify does so where each wake needs a
// signal, and task resume keeps what still stands of an earlier report and answers the rest. Task check says whether
// a report holds, whoever wrote it, and task compact tells it shorter. Task link says of each window but the last whether it
// can run wholly and end as the next begins, and task stuck of each cycle of threads that wait for each other's locks whether
// some schedule leads into it. Task make writes a recording. The contract of `run`
// is stated by one definition, what is due to the words and the files: a text with its status, an
// analysis of one of these kinds, the verdict on a report, its compact form, or a linking; and by one relation, what may
// be told where that is due. A file that breaks a rule is refused by its name, the line and the rule; a fault of the folder or
// of the sink is never told as an answer. The other public items are this frame, for programs beside gpredict: stages that read a
// folder and stop with a refusal, a result that tells itself to a sink, and the outcome.
#![tactic(auto)]

mod analysing;
mod compacting;
mod content;
mod deadlocks;
mod each_line;
mod finishing;
mod lines;
mod linking;
mod listing;
mod making;
mod notifying;
mod outcome;
mod refusal;
mod replaying;
mod reply;
mod reporting;
mod results;
mod resuming;
mod stop;
mod submission;
mod to_list;
mod top;
mod verdict;
mod writing;

pub use content::{content_at, recording_at};
pub use each_line::put_each_line;
pub use finishing::{finish, put_reply};
pub use listing::{Listing, properties_from};
pub use outcome::Outcome;
pub use refusal::{Refusal, reply_of, rule_word};
pub use reply::{Reply, one_line, words_refused};
pub use results::Tells;
pub use stop::Stop;
pub use submission::{Submission, submission_at};
pub use top::run;
pub use verdict::checked_report;
