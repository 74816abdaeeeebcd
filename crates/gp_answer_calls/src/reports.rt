ghost use Rattle.std.specs.Prelude.{◌≡◌, ◌≢◌, ◌≤◌, ◌<◌, ◌-◌, ◌^◌, Err, IfOk, Ok, length};
ghost use Rattle.gp_text.specs.Spelling.{spelling};
ghost use Rattle.gp_report.specs.Printed.{report_lines};
ghost use Rattle.gp_report.specs.Reading.{report_of, told_report};
ghost use Rattle.gp_report.specs.Telling.{IsWhole, without_records};
ghost use Rattle.gp_checker.specs.Checked.{IsChecked};
ghost use Rattle.gp_compact.specs.Compact.{IsCompacted};

use gp_base::Row;
use gp_checker::Checked;
use gp_property::Property;
use gp_report::{ReadReport, Report, ReportFault};
use gp_window::Recording;
use std::alloc::{AllocError, Global};

/// As `gp_report::print_report`.
pub fn print_report(alloc: Global, report: &Report) -> Result<Row<u8>, AllocError>
    ensures text { IfOk result (λ text. text ≡ spelling (report_lines report.now)) }
    ensures whole { IfOk result (λ text. IsWhole report.now) }
    ensures again { IfOk result (λ text. report_of text ≡ Ok (without_records report.now)) }
{
    gp_report::print_report(alloc, report)
}

/// As `gp_report::read_report`.
pub fn read_report(alloc: Global, bytes: &[u8]) -> Result<ReadReport, ReportFault>
    requires { length bytes.now < 2 ^ 32 - 1 }
    ensures exact { result ≢ Err ReportFault.Memory → told_report result ≡ report_of bytes.now }
{
    gp_report::read_report(alloc, bytes)
}

/// As `gp_checker::check_report`.
pub fn check_report(
    alloc: Global,
    recording: &Recording,
    properties: &[Property],
    report: &Report,
) -> Result<Checked, AllocError>
    requires { length properties.now ≤ 64 }
    ensures { IfOk result (IsChecked recording.now properties.now report.now) }
{
    gp_checker::check_report(alloc, recording, properties, report)
}

/// As `gp_compact::compact`.
pub fn compact(alloc: Global, recording: &Recording, report: Report) -> Result<Report, AllocError>
    ensures { IfOk result (IsCompacted recording.now report) }
{
    gp_compact::compact(alloc, recording, report)
}
