ghost use Rattle.std.specs.Prelude.{◌≡◌, ◌⊎◌, IfOk, true};
ghost use Rattle.gp_predict.specs.Refusal.{content_refusal, properties_refusal, recording_refusal, recording_refused, refused_as, refused_at, report_refusal, rule_word, schedule_refusal, text_refusal, trace_refusal, two_holders};
ghost use Rattle.gp_predict.specs.Refused.{is_limit, reply_of};

use crate::reply::{Reply, limit_refused, line_of, one_line};
use gp_property::PropertyFault;
use gp_replay::ScheduleFault;
use gp_report::{ReportFault, ReportRule};
use gp_text::{Name, TextFault, print_u64};
use gp_trace::TraceFault;
use gp_window::{ContentFault, FileName, RecordingFault};
use std::alloc::{AllocError, Global};

const REFUSED: u8 = 3;

/// Why an input file, the recording as a whole, or what is asked of them is refused.
#[derive(Clone, Copy)]
pub enum Refusal {
    /// The bytes of an input file are not told.
    Content(ContentFault),
    /// The files are no recording.
    Recording(RecordingFault),
    /// The text is no schedule.
    Schedule(ScheduleFault),
    /// The text is no file of properties.
    Properties(PropertyFault),
    /// The text is no report.
    Report(ReportFault),
    /// So many questions with this budget each are too much work.
    Limit { total: u64, budget: u64 },
}

/// The status and the text of a refusal.
pub fn reply_of(alloc: Global, why: Refusal) -> Result<Reply, AllocError>
    ensures text { IfOk result (λ reply. reply ≡ reply_of why) }
    ensures status { IfOk result (λ reply. (reply.status ≡ 3) ⊎ (reply.status ≡ 7)) }
    ensures limit { IfOk result (λ reply. reply.status ≡ 7 → is_limit why ≡ true) }
{
    match why {
        Refusal::Content(fault) => content_refusal(alloc, fault),
        Refusal::Recording(fault) => recording_refusal(alloc, fault),
        Refusal::Schedule(fault) => schedule_refusal(alloc, fault),
        Refusal::Properties(fault) => properties_refusal(alloc, fault),
        Refusal::Report(fault) => report_refusal(alloc, fault),
        Refusal::Limit { total, budget } => limit_refused(alloc, total, budget),
    }
}

/// The refusal of a file whose bytes are not told. Want of memory, and a folder that failed, have none.
fn content_refusal(alloc: Global, fault: ContentFault) -> Result<Reply, AllocError>
    ensures text { IfOk result (λ answer. answer ≡ content_refusal fault) }
    ensures status { IfOk result (λ answer. answer.status ≡ 3) }
{
    match fault {
        ContentFault::Absent(name) => refused_as(alloc, name, "absent"),
        ContentFault::TooLong(name) => refused_as(alloc, name, "toolong"),
        ContentFault::ReadFailed | ContentFault::Memory => Err(AllocError),
    }
}

/// The refusal of files that are no recording. Want of memory, and a folder that failed, have none.
fn recording_refusal(alloc: Global, fault: RecordingFault) -> Result<Reply, AllocError>
    ensures text { IfOk result (λ answer. answer ≡ recording_refusal fault) }
    ensures status { IfOk result (λ answer. answer.status ≡ 3) }
{
    match fault {
        RecordingFault::Absent(name) => refused_as(alloc, name, "absent"),
        RecordingFault::TooLong(name) => refused_as(alloc, name, "toolong"),
        RecordingFault::ManifestText(fault) => text_refusal(alloc, FileName::Manifest, fault),
        RecordingFault::ManifestLine(line) => refused_at(
            alloc,
            FileName::Manifest,
            line,
            "badline",
        ),
        RecordingFault::Trace(thread, fault) => trace_refusal(alloc, thread, fault),
        RecordingFault::UnknownThread(thread) => recording_refused(alloc, "unknownthread", thread),
        RecordingFault::StartsRoot(thread) => recording_refused(alloc, "startsroot", thread),
        RecordingFault::TwoStarts(thread) => recording_refused(alloc, "twostarts", thread),
        RecordingFault::TwoHolders(lock, window) => two_holders(alloc, &lock, window),
        RecordingFault::ReadFailed | RecordingFault::Memory => Err(AllocError),
    }
}

/// The refusal of a text that is no schedule. Want of memory has none.
fn schedule_refusal(alloc: Global, fault: ScheduleFault) -> Result<Reply, AllocError>
    ensures text { IfOk result (λ answer. answer ≡ schedule_refusal fault) }
    ensures status { IfOk result (λ answer. answer.status ≡ 3) }
{
    match fault {
        ScheduleFault::Text(fault) => text_refusal(alloc, FileName::Schedule, fault),
        ScheduleFault::BadLine(line) => refused_at(alloc, FileName::Schedule, line, "badline"),
        ScheduleFault::Memory => Err(AllocError),
    }
}

/// The refusal of a text that is no file of properties. Want of memory has none.
fn properties_refusal(alloc: Global, fault: PropertyFault) -> Result<Reply, AllocError>
    ensures text { IfOk result (λ answer. answer ≡ properties_refusal fault) }
    ensures status { IfOk result (λ answer. answer.status ≡ 3) }
{
    match fault {
        PropertyFault::Text(fault) => text_refusal(alloc, FileName::Properties, fault),
        PropertyFault::Empty(line) => refused_at(alloc, FileName::Properties, line, "empty"),
        PropertyFault::BadWord(line) => refused_at(alloc, FileName::Properties, line, "badword"),
        PropertyFault::RepeatedName(line) => refused_at(
            alloc,
            FileName::Properties,
            line,
            "repeatedname",
        ),
        PropertyFault::TooManyAtoms(line) => refused_at(
            alloc,
            FileName::Properties,
            line,
            "toomanyatoms",
        ),
        PropertyFault::UnknownEvent(line) => refused_at(
            alloc,
            FileName::Properties,
            line,
            "unknownevent",
        ),
        PropertyFault::RegionUse(line) => refused_at(
            alloc,
            FileName::Properties,
            line,
            "regionuse",
        ),
        PropertyFault::Memory => Err(AllocError),
    }
}

/// The refusal of a text that is no report. Want of memory has none.
fn report_refusal(alloc: Global, fault: ReportFault) -> Result<Reply, AllocError>
    ensures text { IfOk result (λ answer. answer ≡ report_refusal fault) }
    ensures status { IfOk result (λ answer. answer.status ≡ 3) }
{
    match fault {
        ReportFault::Text(fault) => text_refusal(alloc, FileName::Report, fault),
        ReportFault::Rule { line, rule } => {
            refused_at(alloc, FileName::Report, line, rule_word(rule))
        }
        ReportFault::Memory => Err(AllocError),
    }
}

/// The word by which a rule of reports is told.
pub fn rule_word(rule: ReportRule) -> &'static str
    ensures { result.now ≡ rule_word rule }
{
    match rule {
        ReportRule::Form => "form",
        ReportRule::Order => "order",
        ReportRule::Length => "length",
        ReportRule::Clause => "clause",
        ReportRule::End => "end",
        ReportRule::After => "after",
    }
}

fn refused_as(alloc: Global, file: FileName, rule: &str) -> Result<Reply, AllocError>
    ensures text { IfOk result (λ answer. answer ≡ refused_as file rule.now) }
    ensures status { IfOk result (λ answer. answer.status ≡ 3) }
{
    let name = file.name(alloc)?;
    let name = name.as_str();
    one_line(
        alloc,
        REFUSED,
        format!(in alloc; "refused {name} {rule}\n")?,
    )
}

fn refused_at(alloc: Global, file: FileName, line: u32, rule: &str) -> Result<Reply, AllocError>
    ensures text { IfOk result (λ answer. answer ≡ refused_at file line rule.now) }
    ensures status { IfOk result (λ answer. answer.status ≡ 3) }
{
    let name = file.name(alloc)?;
    let name = name.as_str();
    one_line(
        alloc,
        REFUSED,
        format!(in alloc; "refused {name} {line} {rule}\n")?,
    )
}

fn recording_refused(alloc: Global, rule: &str, thread: u32) -> Result<Reply, AllocError>
    ensures text { IfOk result (λ answer. answer ≡ recording_refused rule.now thread) }
    ensures status { IfOk result (λ answer. answer.status ≡ 3) }
{
    let mut line = Vec::from_slice(alloc, b"refused recording ")?;
    line.extend_from_slice(rule.as_bytes())?;
    line.push(b' ')?;
    print_u64(&mut line, u64::from(thread))?;
    line.push(b'\n')?;
    line_of(alloc, REFUSED, line)
}

fn two_holders(alloc: Global, lock: &Name, window: u32) -> Result<Reply, AllocError>
    ensures text { IfOk result (λ answer. answer ≡ two_holders lock.now window) }
    ensures status { IfOk result (λ answer. answer.status ≡ 3) }
{
    let mut line = Vec::from_slice(alloc, b"refused recording twoholders ")?;
    line.extend_from_slice(lock.as_bytes())?;
    line.push(b' ')?;
    print_u64(&mut line, u64::from(window))?;
    line.push(b'\n')?;
    line_of(alloc, REFUSED, line)
}

fn text_refusal(alloc: Global, file: FileName, fault: TextFault) -> Result<Reply, AllocError>
    ensures text { IfOk result (λ answer. answer ≡ text_refusal file fault) }
    ensures status { IfOk result (λ answer. answer.status ≡ 3) }
{
    match fault {
        TextFault::NotAscii(line) => refused_at(alloc, file, line, "notascii"),
        TextFault::LongLine(line) => refused_at(alloc, file, line, "longline"),
        TextFault::NoLastNewline(line) => refused_at(alloc, file, line, "nolastnewline"),
        TextFault::Memory => Err(AllocError),
    }
}

fn trace_refusal(alloc: Global, thread: u32, fault: TraceFault) -> Result<Reply, AllocError>
    ensures text { IfOk result (λ answer. answer ≡ trace_refusal thread fault) }
    ensures status { IfOk result (λ answer. answer.status ≡ 3) }
{
    let file = FileName::Trace(thread);
    match fault {
        TraceFault::Text(fault) => text_refusal(alloc, file, fault),
        TraceFault::AfterExit(line) => refused_at(alloc, file, line, "afterexit"),
        TraceFault::BadWord(line) => refused_at(alloc, file, line, "badword"),
        TraceFault::NameSelf(line) => refused_at(alloc, file, line, "nameself"),
        TraceFault::ReleaseUnheld(line) => refused_at(alloc, file, line, "releaseunheld"),
        TraceFault::AcquireHeld(line) => refused_at(alloc, file, line, "acquireheld"),
        TraceFault::RegionUnmatched(line) => refused_at(alloc, file, line, "regionunmatched"),
        TraceFault::MarkCount(line) => refused_at(alloc, file, line, "markcount"),
        TraceFault::Memory => Err(AllocError),
    }
}
