ghost use Rattle.std.specs.Prelude.{◌≡◌, ◌≤◌, IfOk, length};
ghost use Rattle.gp_merge.specs.Checking.{AreNeighbours, IsCheckedMerge, IsOfPart, parts_alone};
ghost use Rattle.gp_merge.specs.Merge.{AreInRow, AreParts, merged};
ghost use Rattle.gp_merge.specs.Reaching.{Reach};

use crate::merging::{PartReport, merge};
use gp_base::Row;
use gp_checker::{Checked, Failure, check_report};
use gp_cut::Part;
use gp_property::Property;
use gp_report::Report;
use gp_window::Recording;
use std::alloc::{AllocError, Global};

/// The first failure of the reports of parts.
#[derive(Clone, Copy)]
pub struct PartFailure {
    /// The place of the part among all parts, from 0.
    pub place: u64,
    /// The failure, under the number that its window has in the report of the part.
    pub failure: Failure,
}

/// What came of a merge with a check.
#[derive(Drop)]
pub enum CheckedMerge {
    /// The report of the whole, which is accepted for the recording.
    Accepted(Report),
    /// The report of a part fails for the windows that it stands for.
    Rejected(PartFailure),
}

/// The report of a whole recording out of those of all its parts, checked against the recording: it costs what checking the whole
/// costs. What is told of the stages is not checked, as nothing of it is merged.
pub fn merge_checked(
    alloc: Global,
    recording: &Recording,
    properties: &[Property],
    format: u32,
    budget: u64,
    parts: Row<PartReport>,
) -> Result<CheckedMerge, AllocError>
    requires few { length properties.now ≤ 64 }
    requires parts { AreParts format budget parts }
    requires row { AreInRow 0 parts recording.now.manifest.epochs }
    ensures { IfOk result (IsCheckedMerge recording.now properties.now (merged format budget parts) (parts_alone parts)) }
{
    recording.keeps_rules();
    let alone = parts_alone(alloc, parts.as_slice())?;
    let report = merge(alloc, format, budget, parts)?;
    let checked = check_merged(alloc, recording, properties, alone.as_slice(), report);
    drop(alone);
    checked
}

fn parts_alone(alloc: Global, parts: &[PartReport]) -> Result<Row<Part>, AllocError>
    ensures { IfOk result (λ alone. alone ≡ parts_alone parts.now) }
{
    let mut alone = Row::new(alloc);
    for one in parts {
        alone.push(one.part)?;
    }
    Ok(alone)
}

/// The report, where it is accepted; else its first failure, told of its part.
fn check_merged(
    alloc: Global,
    recording: &Recording,
    properties: &[Property],
    parts: &[Part],
    report: Report,
) -> Result<CheckedMerge, AllocError>
    requires few { length properties.now ≤ 64 }
    requires row { AreNeighbours 0 parts.now recording.now.manifest.epochs }
    requires windows { length report.windows ≡ recording.now.manifest.epochs }
    requires most { recording.now.manifest.epochs ≤ 4096 }
    ensures { IfOk result (IsCheckedMerge recording.now properties.now report parts.now) }
{
    match check_report(alloc, recording, properties, &report) {
        Ok(Checked::Accepted) => Ok(CheckedMerge::Accepted(report)),
        Ok(Checked::Rejected(failure)) => {
            drop(report);
            Ok(CheckedMerge::Rejected(failure_in(parts, failure)))
        }
        Err(error) => {
            drop(report);
            Err(error)
        }
    }
}

/// A failure of the whole, told of the part that has its window.
fn failure_in(parts: &[Part], failure: Failure) -> PartFailure
    requires { Reach parts.now failure.window }
    ensures { IsOfPart parts.now failure result }
{
    let mut place = 0;
    for part in parts {
        let Part { before, count } = *part;
        if failure.window <= before + count {
            let window = failure.window - before + 1;
            return PartFailure {
                place,
                failure: Failure { window, ..failure },
            };
        }
        place += 1;
    }
    unreachable!()
}
