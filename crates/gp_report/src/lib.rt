// Reports: what an analysis answers, and the text that tells it.
//
// A report has a record for each window, in order. A window that is too large for its constraints is told with its two
// numbers; each other one has, property by property, an answer for each instance: a schedule, a certificate, or the part
// of a worker's log that was learned in vain. The workers' logs are kept beside the answers and are not in the text.
#![tactic(auto)]

mod checks;
mod fault;
mod fit;
mod found;
mod laws;
mod printing;
mod reading;
mod record;
mod report;
mod shows;
mod tally;

pub use fault::{ReportFault, ReportRule};
pub use found::is_any_found;
pub use laws::{reads_exactly, reports_are_plain, reports_read_again};
pub use printing::{print_report, put_summary, put_window};
pub use reading::{ReadReport, read_report};
pub use record::{
    Answer, AnswerOf, Entry, EntryOf, MOST_BUDGET, MOST_ENTRIES, MOST_EVENTS, MOST_WORKERS,
    PropertyBody, PropertyBodyOf, PropertyRecord, PropertyRecordOf, WindowBody, WindowBodyOf,
    WindowRecord, WindowRecordOf,
};
pub use report::Report;
pub use shows::Shows;
