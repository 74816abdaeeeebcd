ghost use Rattle.gp_report.specs.Laws.{ReportsArePlain};
ghost use Rattle.gp_report.specs.Telling.{ReadsExactly, ReportsReadAgain};

use gp_text::{one_spelling, plain_words, reads_again};
use gp_window::event_ids_read_exactly;

/// A law: each line of a report is plain, and its text is read as these lines.
pub fn reports_are_plain()
    ensures { ReportsArePlain }
{
    plain_words();
    reads_again();
}

/// A law: a text is read as a report exactly where its lines tell it.
pub fn reads_exactly()
    ensures { ReadsExactly }
{
    one_spelling();
    event_ids_read_exactly();
}

/// A law: what is printed of a report is read as the report without its workers' records.
pub fn reports_read_again()
    ensures { ReportsReadAgain }
{
    one_spelling();
    event_ids_read_exactly();
    reports_are_plain();
}
