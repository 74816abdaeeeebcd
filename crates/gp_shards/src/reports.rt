ghost use Rattle.std.specs.Prelude.{◌≡◌, ◌<◌, ◌-◌, ◌^◌, [], IfOk, IfSome, false, length};
ghost use Rattle.gp_base.specs.Results.{or_refused};
ghost use Rattle.gp_report.specs.Reading.{report_of};
ghost use Rattle.gp_report.specs.Report.{IsReport};
ghost use Rattle.gp_shard.specs.Shard.{IsShard};
ghost use Rattle.gp_shards.specs.Folders.{AgreesBehind, AreReportsOf};
ghost use Rattle.gp_shards.specs.Merging.{is_other_budget, is_other_format, part_at, part_behind, parts_from, report_fault, report_in, windows_in};
ghost use Rattle.gp_shards.specs.Refusing.{report_refusal};
ghost use Rattle.gp_shards.specs.Stage.{IsShardStage, IsShardStep, is_absent_in, refusal_of};
ghost use Rattle.gp_window.specs.Gives.{Gives};

use crate::content::content_in;
use crate::folders::PartFolder;
use crate::refusal::PartFault;
use crate::stop::{ShardStop, refuse_in, unless_wrong};
use gp_base::Row;
use gp_cut::Part;
use gp_merge::PartReport;
use gp_outside::Folder;
use gp_report::{Report, ReportFault, read_report};
use gp_shard::Shard;
use gp_window::FileName;
use std::alloc::Global;

/// Reads the reports of the parts in these folders, in their order.
pub fn parts_from<F: Folder>(
    alloc: Global,
    folder: &mut F,
    folders: &[PartFolder<'_>],
) -> Result<Row<PartReport>, ShardStop>
    ensures stage { IsShardStage result (λ files. Gives refusal_of result (parts_from files [] folders.now)) (F.files folder.old) (F.files folder.new) (F.faults folder.old) (F.faults folder.new) }
    ensures reports { IfOk result (AreReportsOf folders.now) }
{
    let mut parts = Row::new(alloc);
    for one in folders {
        let part = part_at(alloc, folder, parts.as_slice(), one)?;
        parts.push(part)?;
    }
    Ok(parts)
}

/// Reads the report in the folder of a part, and whether it fits the reports of the parts before it.
fn part_at<F: Folder>(
    alloc: Global,
    folder: &mut F,
    before: &[PartReport],
    one: &PartFolder<'_>,
) -> Result<PartReport, ShardStop>
    ensures stage { IsShardStage result (λ files. Gives refusal_of result (part_at files before.now one.now)) (F.files folder.old) (F.files folder.new) (F.faults folder.old) (F.faults folder.new) }
    ensures windows { IfOk result (λ part. part.part ≡ windows_in one.now.shard) }
    ensures agrees { IfOk result (AgreesBehind before.now) }
{
    let report = report_in(alloc, folder, one.out())?;
    part_behind(alloc, before, one, report)
}

/// The report in the folder of a part.
fn report_in<F: Folder>(alloc: Global, folder: &mut F, out: &str) -> Result<Report, ShardStop>
    ensures { IsShardStage result (λ files. Gives refusal_of result (report_in files out.now)) (F.files folder.old) (F.files folder.new) (F.faults folder.old) (F.faults folder.new) }
{
    let bytes = content_in(alloc, folder, out, FileName::Report)?;
    report_from(alloc, out, bytes.as_slice())
}

fn report_from(alloc: Global, out: &str, bytes: &[u8]) -> Result<Report, ShardStop>
    requires { length bytes.now < 2 ^ 32 - 1 }
    ensures { IsShardStep result (or_refused (report_refusal out.now) (report_of bytes.now)) }
{
    match read_report(alloc, bytes) {
        Ok(read) => Ok(read.report),
        Err(ReportFault::Memory) => Err(ShardStop::Memory),
        Err(fault) => refuse_in(alloc, out, PartFault::Report(fault)),
    }
}

/// The part in this folder with its report, where that fits the reports of the parts before it.
fn part_behind(
    alloc: Global,
    before: &[PartReport],
    one: &PartFolder<'_>,
    report: Report,
) -> Result<PartReport, ShardStop>
    ensures step { IsShardStep result (part_behind before.now one.now report) }
    ensures agrees { IfOk result (AgreesBehind before.now) }
{
    let shard = one.shard();
    let fault = report_fault(before, &shard, &report);
    let part = Part {
        before: shard.before,
        count: shard.count,
    };
    unless_wrong(alloc, one.out(), fault, PartReport { part, report })
}

/// Why this report of a part does not fit the reports of the parts before it, if so.
fn report_fault(before: &[PartReport], shard: &Shard, report: &Report) -> Option<PartFault>
    ensures value { result ≡ report_fault before.now shard.now report.now }
    ensures present { IfSome result (λ fault. is_absent_in fault ≡ false) }
    ensures report { IsReport report.now }
{
    if is_other_format(report, before) {
        return Some(PartFault::OtherFormat);
    }
    if is_other_budget(report, before) {
        return Some(PartFault::OtherBudget);
    }
    if report.windows().len() as u64 != u64::from(shard.count) + 1 {
        return Some(PartFault::WindowCount);
    }
    None
}

/// Whether the report of the first of these parts, if there is one, has another format.
fn is_other_format(report: &Report, parts: &[PartReport]) -> bool
    ensures value { result ≡ is_other_format report.now parts.now }
    ensures report { IsReport report.now }
{
    let format = report.format();
    match parts.first() {
        None => false,
        Some(first) => first.report.format() != format,
    }
}

/// Whether it has another budget.
fn is_other_budget(report: &Report, parts: &[PartReport]) -> bool
    ensures { result ≡ is_other_budget report.now parts.now }
{
    match parts.first() {
        None => false,
        Some(first) => first.report.budget() != report.budget(),
    }
}
