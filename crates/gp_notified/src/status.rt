ghost use Rattle.std.specs.Prelude.{◌≡◌};
ghost use Rattle.gp_notified.specs.Status.{notified_status};

use crate::report::NotifyReport;
use gp_report::is_any_found;

/// The status of a report: 1 where some instance is found.
pub fn status_of(report: &NotifyReport) -> u8
    ensures { result ≡ notified_status report.now }
{
    if is_any_found(report.windows.as_slice()) {
        1
    } else {
        0
    }
}
