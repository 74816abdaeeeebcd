use gp_text::TextFault;
use std::alloc::AllocError;
use thiserror::Error;

/// The rules of the lines of a report, in the order in which they are told of one line, but for the last.
#[derive(Clone, Copy, Debug, PartialEq, Eq, Error)]
pub enum ReportRule {
    /// The line is none of the forms that may stand at its place, or a number is out of its range.
    #[error("form")]
    Form,
    /// The number of a window or of an instance is not the next one.
    #[error("order")]
    Order,
    /// A line of a list has not exactly 100 words, or the last one not exactly the rest.
    #[error("length")]
    Length,
    /// The variables of a step's literals do not rise; told at the last line of the list.
    #[error("clause")]
    Clause,
    /// The text ends before its summary, or the summary's numbers are not those of the entries.
    #[error("end")]
    End,
    /// A line follows the summary.
    #[error("after")]
    After,
}

/// Why a text is no report, with the number of the first line that breaks a rule.
#[derive(Clone, Copy, Debug, PartialEq, Eq, Error)]
pub enum ReportFault {
    /// The text has no lines; told before all others.
    #[error("{0}")]
    Text(TextFault),
    /// The first rule that the line breaks.
    #[error("line {line} breaks the rule {rule}")]
    Rule { line: u32, rule: ReportRule },
    #[error("out of memory")]
    Memory,
}

impl From<AllocError> for ReportFault {
    ghost use Rattle.std.specs.Prelude.{◌≡◌};
    ghost use Rattle.gp_report.specs.declared.fault.ReportFault.TheVariants.{Memory};

    ghost from_gives = { λ _ e. e ≡ Memory };

    fn from(_error: AllocError) -> ReportFault {
        ReportFault::Memory
    }
}

impl From<TextFault> for ReportFault {
    ghost use Rattle.std.specs.Prelude.{◌≡◌};
    ghost use Rattle.gp_report.specs.declared.fault.ReportFault.TheVariants.{Text};

    ghost from_gives = { λ f e. e ≡ Text f };

    fn from(fault: TextFault) -> ReportFault {
        ReportFault::Text(fault)
    }
}
