ghost use Rattle.std.specs.Prelude.{◌≡◌, ◌≤◌, Err, OnOk, OnErr};
ghost use Rattle.gp_outside.specs.Faults.{Rose};
ghost use Rattle.gp_outside.specs.Sinks.{Appends, AppendsFront};
ghost use Rattle.gp_predict.specs.Telling.{report_status, report_text};

use crate::each_line::put_each_line;
use crate::outcome::Outcome;
use crate::results::Tells;
use gp_outside::{PutFault, Sink};
use gp_report::{Report, is_any_found, print_report};
use std::alloc::Global;

impl Tells for Report {
    ghost use Rattle.gp_predict.specs.Analysing.{of_report};

    ghost told = { of_report };

    fn put<S: Sink>(&self, alloc: Global, sink: &mut S) -> Result<(), PutFault> {
        put_report(alloc, sink, self)
    }

    fn end(self) -> Outcome {
        Outcome {
            status: status_of(&self),
            report: Some(self),
            links: None,
            stuck: None,
            notified: None,
        }
    }
}

/// Writes the text of a report.
pub fn put_report<S: Sink>(alloc: Global, sink: &mut S, report: &Report) -> Result<(), PutFault>
    ensures later { S.faults sink.old ≤ S.faults sink.new }
    ensures ok { OnOk result (Appends (S.written sink.old) (S.written sink.new) (report_text report.now)) }
    ensures err { OnErr result (AppendsFront (S.written sink.old) (S.written sink.new) (report_text report.now)) }
    ensures failed { result ≡ Err PutFault.Failed → Rose (S.faults sink.old) (S.faults sink.new) }
{
    let text = print_report(alloc, report)?;
    put_each_line(sink, text.as_slice())
}

/// The status of a report that is written whole: 1 where something is found.
pub fn status_of(report: &Report) -> u8
    ensures { result ≡ report_status report.now }
{
    if is_any_found(report.windows()) { 1 } else { 0 }
}
