ghost use Rattle.std.specs.Prelude.{◌≡◌, ◌⊎◌, IfOk, string_bytes, true};
ghost use Rattle.gp_predict.specs.Verdict.{then_number};
ghost use Rattle.gp_shards.specs.Refusing.{content_refusal, failure_words, missing, part_refusal, refused_in, refused_in_at, report_refusal, shard_refusal, shard_reply, text_in};
ghost use Rattle.gp_shards.specs.Stage.{is_work};

use gp_checker::Failure;
use gp_predict::{Refusal, Reply, one_line, reply_of, rule_word};
use gp_report::ReportFault;
use gp_shard::ShardFault;
use gp_text::TextFault;
use gp_window::{ContentFault, FileName};
use std::alloc::{AllocError, Global};

const REFUSED: u8 = 3;

/// What is wrong in the folder of a part.
#[derive(Clone, Copy)]
pub enum PartFault {
    /// The folder holds a recording that is no part, which is not written over.
    HoldsRecording,
    /// The part has so many windows that no manifest can tell them with their stage.
    ManyWindows,
    /// The bytes of a file are not told, or a file that is to be written has more bytes than its limit.
    Content(ContentFault),
    /// The text of file `shard` does not say which part the folder has.
    Shard(ShardFault),
    /// The folder has a part of another number of parts than the first one.
    OtherParts,
    /// A folder before it has the same part.
    Twice,
    /// Its part has other windows than that part of the recording.
    OtherWindows,
    /// The text is no report.
    Report(ReportFault),
    /// The report has another format than that of the first part.
    OtherFormat,
    /// The report has another budget than that of the first part.
    OtherBudget,
    /// The report does not have a window for each of the part and one for the stage.
    WindowCount,
    /// The report fails for the windows that it stands for, first so.
    Rejected(Failure),
}

/// Why nothing is cut or merged by the files.
#[derive(Drop)]
pub enum ShardRefusal {
    /// What gpredict refuses too, in the folder of the recording.
    Usual(Refusal),
    /// Something is wrong in the folder of a part, which has this name.
    InPart(String, PartFault),
    /// No folder has the part of this number.
    Missing(u32),
}

/// The status and the text of a refusal.
pub fn shard_reply(alloc: Global, why: ShardRefusal) -> Result<Reply, AllocError>
    ensures text { IfOk result (λ reply. reply ≡ shard_reply why) }
    ensures status { IfOk result (λ reply. (reply.status ≡ 3) ⊎ (reply.status ≡ 7)) }
    ensures limit { IfOk result (λ reply. reply.status ≡ 7 → is_work why ≡ true) }
{
    match why {
        ShardRefusal::Usual(why) => reply_of(alloc, why),
        ShardRefusal::InPart(folder, fault) => {
            let told = part_refusal(alloc, folder.as_str(), fault);
            drop(folder);
            told
        }
        ShardRefusal::Missing(part) => missing(alloc, part),
    }
}

/// The refusal of what is wrong in the folder of a part.
fn part_refusal(alloc: Global, folder: &str, fault: PartFault) -> Result<Reply, AllocError>
    ensures text { IfOk result (λ answer. answer ≡ part_refusal folder.now fault) }
    ensures status { IfOk result (λ answer. answer.status ≡ 3) }
{
    match fault {
        PartFault::HoldsRecording => refused_in(alloc, folder, FileName::Manifest, "exists"),
        PartFault::ManyWindows => refused_in(alloc, folder, FileName::Manifest, "epochs"),
        PartFault::Content(fault) => content_refusal(alloc, folder, fault),
        PartFault::Shard(fault) => shard_refusal(alloc, folder, fault),
        PartFault::OtherParts => refused_in_at(alloc, folder, FileName::Shard, 2, "parts"),
        PartFault::Twice => refused_in_at(alloc, folder, FileName::Shard, 2, "twice"),
        PartFault::OtherWindows => refused_in_at(alloc, folder, FileName::Shard, 3, "windows"),
        PartFault::Report(fault) => report_refusal(alloc, folder, fault),
        PartFault::OtherFormat => refused_in_at(alloc, folder, FileName::Report, 1, "format"),
        PartFault::OtherBudget => refused_in_at(alloc, folder, FileName::Report, 2, "budget"),
        PartFault::WindowCount => refused_in(alloc, folder, FileName::Report, "windows"),
        PartFault::Rejected(failure) => rejected_in(alloc, folder, failure),
    }
}

/// The refusal of a file whose bytes are not told. Want of memory, and a folder that failed, have none.
fn content_refusal(alloc: Global, folder: &str, fault: ContentFault) -> Result<Reply, AllocError>
    ensures text { IfOk result (λ answer. answer ≡ content_refusal folder.now fault) }
    ensures status { IfOk result (λ answer. answer.status ≡ 3) }
{
    match fault {
        ContentFault::Absent(name) => refused_in(alloc, folder, name, "absent"),
        ContentFault::TooLong(name) => refused_in(alloc, folder, name, "toolong"),
        ContentFault::ReadFailed | ContentFault::Memory => Err(AllocError),
    }
}

/// The refusal of a text that does not say which part the folder has. Want of memory has none.
fn shard_refusal(alloc: Global, folder: &str, fault: ShardFault) -> Result<Reply, AllocError>
    ensures text { IfOk result (λ answer. answer ≡ shard_refusal folder.now fault) }
    ensures status { IfOk result (λ answer. answer.status ≡ 3) }
{
    match fault {
        ShardFault::Text(fault) => text_in(alloc, folder, FileName::Shard, fault),
        ShardFault::Line(line) => refused_in_at(alloc, folder, FileName::Shard, line, "form"),
        ShardFault::Memory => Err(AllocError),
    }
}

/// The refusal of a text that is no report. Want of memory has none.
fn report_refusal(alloc: Global, folder: &str, fault: ReportFault) -> Result<Reply, AllocError>
    ensures text { IfOk result (λ answer. answer ≡ report_refusal folder.now fault) }
    ensures status { IfOk result (λ answer. answer.status ≡ 3) }
{
    match fault {
        ReportFault::Text(fault) => text_in(alloc, folder, FileName::Report, fault),
        ReportFault::Rule { line, rule } => {
            refused_in_at(alloc, folder, FileName::Report, line, rule_word(rule))
        }
        ReportFault::Memory => Err(AllocError),
    }
}

/// The refusal of a report that fails for the recording, in the words of task check.
fn rejected_in(alloc: Global, folder: &str, failure: Failure) -> Result<Reply, AllocError>
    ensures text { IfOk result (λ answer. answer ≡ refused_in folder.now FileName.Report (failure_words failure)) }
    ensures status { IfOk result (λ answer. answer.status ≡ 3) }
{
    let words = failure_words(alloc, failure)?;
    refused_in(alloc, folder, FileName::Report, words.as_str())
}

/// The words by which task check tells a failure.
fn failure_words(alloc: Global, failure: Failure) -> Result<String, AllocError>
    ensures { IfOk result (λ words. string_bytes words ≡ failure_words failure) }
{
    let words = String::from_str(alloc, "rejected")?;
    let words = then_number(alloc, words, u64::from(failure.window))?;
    let words = then_number(alloc, words, u64::from(failure.property))?;
    let words = then_number(alloc, words, u64::from(failure.instance))?;
    let words = then_number(alloc, words, u64::from(failure.reason.number()))?;
    then_number(alloc, words, failure.place)
}

/// A text, and after a space a number.
fn then_number(alloc: Global, text: String, number: u64) -> Result<String, AllocError>
    ensures { IfOk result (λ more. string_bytes more ≡ then_number (string_bytes text) number) }
{
    let text = text.as_str();
    let more = format!(in alloc; "{text} {number}")?;
    Ok(more)
}

/// The refusal of a text that has no lines. Want of memory has none.
fn text_in(
    alloc: Global,
    folder: &str,
    file: FileName,
    fault: TextFault,
) -> Result<Reply, AllocError>
    ensures text { IfOk result (λ answer. answer ≡ text_in folder.now file fault) }
    ensures status { IfOk result (λ answer. answer.status ≡ 3) }
{
    match fault {
        TextFault::NotAscii(line) => refused_in_at(alloc, folder, file, line, "notascii"),
        TextFault::LongLine(line) => refused_in_at(alloc, folder, file, line, "longline"),
        TextFault::NoLastNewline(line) => refused_in_at(alloc, folder, file, line, "nolastnewline"),
        TextFault::Memory => Err(AllocError),
    }
}

fn refused_in(alloc: Global, folder: &str, file: FileName, rule: &str) -> Result<Reply, AllocError>
    ensures text { IfOk result (λ answer. answer ≡ refused_in folder.now file rule.now) }
    ensures status { IfOk result (λ answer. answer.status ≡ 3) }
{
    let path = file.path(alloc, folder)?;
    let path = path.as_str();
    one_line(
        alloc,
        REFUSED,
        format!(in alloc; "refused {path} {rule}\n")?,
    )
}

fn refused_in_at(
    alloc: Global,
    folder: &str,
    file: FileName,
    line: u32,
    rule: &str,
) -> Result<Reply, AllocError>
    ensures text { IfOk result (λ answer. answer ≡ refused_in_at folder.now file line rule.now) }
    ensures status { IfOk result (λ answer. answer.status ≡ 3) }
{
    let path = file.path(alloc, folder)?;
    let path = path.as_str();
    one_line(
        alloc,
        REFUSED,
        format!(in alloc; "refused {path} {line} {rule}\n")?,
    )
}

/// The refusal of a merge where no folder has this part.
fn missing(alloc: Global, part: u32) -> Result<Reply, AllocError>
    ensures text { IfOk result (λ answer. answer ≡ missing part) }
    ensures status { IfOk result (λ answer. answer.status ≡ 3) }
{
    one_line(
        alloc,
        REFUSED,
        format!(in alloc; "refused shard missing {part}\n")?,
    )
}
