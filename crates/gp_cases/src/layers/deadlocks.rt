// What the check of a report of deadlocks says of a recording.
ghost use Rattle.std.specs.Prelude.{◌-◌, ◌<◌, ◌^◌, length};

use crate::layers::telling::tell;
use gp_checker::{Checked, Failure};
use gp_deadlock_checker::check_deadlocks;
use gp_report::{Report, read_report};
use gp_window::Recording;
use gp_writer::put_line;
use std::alloc::{AllocError, Global};

/// Tells what the check of the report that a text is says.
pub fn tell_check(
    alloc: Global,
    out: &mut Vec<u8>,
    recording: &Recording,
    text: &[u8],
) -> Result<(), AllocError>
    requires { length text.now < 2 ^ 32 - 1 }
{
    match read_report(alloc, text) {
        Ok(read) => {
            let told = tell_check_of(alloc, out, recording, &read.report);
            drop(read);
            told
        }
        Err(_) => tell(out, "no report"),
    }
}

fn tell_check_of(
    alloc: Global,
    out: &mut Vec<u8>,
    recording: &Recording,
    report: &Report,
) -> Result<(), AllocError> {
    match check_deadlocks(alloc, recording, report)? {
        Checked::Accepted => tell(out, "accepted"),
        Checked::Rejected(failure) => tell_failure(out, failure),
    }
}

fn tell_failure(out: &mut Vec<u8>, failure: Failure) -> Result<(), AllocError> {
    put_line(
        out,
        b"rejected",
        &[
            u64::from(failure.window),
            u64::from(failure.property),
            u64::from(failure.instance),
            u64::from(failure.reason.number()),
            failure.place,
        ],
    )
}
