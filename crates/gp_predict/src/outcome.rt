ghost use Rattle.std.specs.Prelude.{◌≡◌, None};

use gp_linked::LinkReport;
use gp_notified::NotifyReport;
use gp_report::Report;

/// What the program ends with.
#[derive(Drop)]
pub struct Outcome {
    /// 0 feasible, listed, accepted, made, all windows are linked, or answered and nothing is found; 1 stuck, rejected, some
    /// window is not linked, or something is found; 2 the words are refused, 3 an input file is refused, 4 the folder failed,
    /// 5 the sink failed, 6 want of memory, 7 too much work is asked.
    pub status: u8,
    /// The report of task analyse or resume, where it was made.
    pub report: Option<Report>,
    /// The report of task link, where it was made.
    pub links: Option<LinkReport>,
    /// The report of task stuck, where it was made.
    pub stuck: Option<Report>,
    /// The report of task notify, where it was made.
    pub notified: Option<NotifyReport>,
}

impl Outcome {
    /// An end that keeps nothing.
    pub fn of(status: u8) -> Outcome
        ensures { result ≡ record { status = status; report = None; links = None; stuck = None; notified = None } }
    {
        Outcome {
            status,
            report: None,
            links: None,
            stuck: None,
            notified: None,
        }
    }
}
