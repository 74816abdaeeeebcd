ghost use Rattle.std.specs.Prelude.{◌≡◌, ◌↔◌, ◌≤◌, ◌++◌, IfOk, IsTrue, OnOk, drop, flat_map, length};
ghost use Rattle.std.specs.List.{AllByRecursion};
ghost use Rattle.gp_merge.specs.Merge.{AreParts, IsPartReport, merged, part_windows, renumbered};
ghost use Rattle.gp_merge.specs.Moving.{CanMove, CanMoveAll};

use gp_base::Row;
use gp_cut::Part;
use gp_report::{Report, WindowRecord};
use std::alloc::{AllocError, Global};

/// A part of a recording, and the report on what was cut out for it: the stage is its window 1.
#[derive(Drop)]
pub struct PartReport {
    pub part: Part,
    pub report: Report,
}

impl PartReport {
    /// Whether the report has this format and this budget, and a window for each of its part and one for the stage.
    pub fn fits(&self, format: u32, budget: u64) -> bool
        ensures { IsTrue result ↔ IsPartReport format budget self.now }
    {
        self.report.format() == format
            && self.report.budget() == budget
            && self.report.windows().len() as u64 == u64::from(self.part.count) + 1
    }
}

/// The report of a whole recording: part after part, without the stages, each window under its number in the whole.
pub fn merge(
    alloc: Global,
    format: u32,
    budget: u64,
    parts: Row<PartReport>,
) -> Result<Report, AllocError>
    requires { AreParts format budget parts }
    ensures { IfOk result (λ report. report ≡ merged format budget parts) }
{
    let windows = merge_windows(alloc, parts)?;
    Ok(Report::new(format, budget, windows))
}

fn merge_windows(alloc: Global, parts: Row<PartReport>) -> Result<Row<WindowRecord>, AllocError>
    requires { AllByRecursion CanMoveAll parts }
    ensures { IfOk result (λ made. made ≡ flat_map part_windows parts) }
{
    let mut made = Row::new(alloc);
    for one in parts.into_vec() {
        add_part(&mut made, one)?;
    }
    Ok(made)
}

// Moves what is told of the windows of a part behind what stands.
fn add_part(made: &mut Row<WindowRecord>, one: PartReport) -> Result<(), AllocError>
    requires { CanMoveAll one }
    ensures { OnOk result (made.new ≡ made.old ++ part_windows one) }
{
    let PartReport { part, report } = one;
    for told in behind_stage(report) {
        made.push(renumber(part.before, told))?;
    }
    Ok(())
}

// What is told of the windows behind the stage.
fn behind_stage(report: Report) -> Vec<WindowRecord>
    requires { 1 ≤ length report.windows }
    ensures { result.items ≡ drop 1 report.windows }
{
    let mut windows = report.into_windows().into_vec();
    let _stage = windows.remove(0);
    windows
}

fn renumber(before: u32, mut told: WindowRecord) -> WindowRecord
    requires { CanMove before told }
    ensures { result ≡ renumbered before told }
{
    told.number = before + (told.number - 1);
    told
}
