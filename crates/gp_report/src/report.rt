ghost use Rattle.std.specs.Prelude.{◌≡◌, ◌↔◌, IsSome, IfSome};
ghost use Rattle.gp_report.specs.Report.{IsReport};

use crate::checks::is_report;
use crate::record::WindowRecord;
use gp_base::Row;
use std::marker::Model;

/// What an analysis answers for each window, in a form that a text can tell.
#[derive(Drop)]
pub struct Report {
    format: u32,
    budget: u64,
    windows: Row<WindowRecord>,
}

impl Model for Report {
    ghost use Rattle.gp_report.specs.Report.{IsReport};
    ghost use Rattle.gp_report.specs.ReportForm.{ReportForm};

    ghost Value = { ReportForm };

    ghost view = { λ r. record { format = r.format; budget = r.budget; windows = r.windows } };

    ghost invariant = { λ r. IsReport (record { format = r.format; budget = r.budget; windows = r.windows }) };
}

impl Report {
    /// A report of parts that are known to fit.
    pub fn new(format: u32, budget: u64, windows: Row<WindowRecord>) -> Report
        requires { IsReport (record { format = format; budget = budget; windows = windows }) }
        ensures { result ≡ record { format = format; budget = budget; windows = windows } }
    {
        Report {
            format,
            budget,
            windows,
        }
    }

    /// A report of these parts, where a text can tell it.
    pub fn of(format: u32, budget: u64, windows: Row<WindowRecord>) -> Option<Report>
        ensures some { IsSome result ↔ IsReport (record { format = format; budget = budget; windows = windows }) }
        ensures value { IfSome result (λ report. report ≡ record { format = format; budget = budget; windows = windows }) }
    {
        if !is_report(format, budget, windows.as_slice()) {
            return None;
        }
        Some(Report::new(format, budget, windows))
    }

    /// 1, or 2 where the steps that a window's certificates share are told by themselves.
    pub fn format(&self) -> u32
        ensures value { result ≡ self.now.format }
        ensures report { IsReport self.now }
    {
        self.format
    }

    /// How many clauses a query may learn.
    pub fn budget(&self) -> u64
        ensures value { result ≡ self.now.budget }
        ensures report { IsReport self.now }
    {
        self.budget
    }

    /// The records of the windows 1, 2 and so on.
    pub fn windows(&self) -> &[WindowRecord]
        ensures value { result.now ≡ self.now.windows }
        ensures report { IsReport self.now }
    {
        self.windows.as_slice()
    }

    /// Gives up the records of the windows.
    pub fn into_windows(self) -> Row<WindowRecord>
        ensures { result ≡ self.windows }
    {
        let Report { windows, .. } = self;
        windows
    }
}
