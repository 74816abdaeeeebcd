ghost use Rattle.gp_show.specs.Laws.{AnswersAreEntries, JsonIsOneValue, PagesHaveOwnMarkup, SarifIsOneLog};

use gp_drawing::drawings_have_own_markup;
use gp_overview::overviews_have_own_markup;
use gp_sarif::pieces_are_the_log;
use gp_values::pieces_are_the_value;
use gp_view::answers_have_own_markup;

/// The entries of a report that is accepted are those of the instances that may be shown, in their order.
pub fn answers_are_entries()
    ensures { AnswersAreEntries }
{}

/// In a page each angle bracket that opens opens one of the program's own tags, whatever the files hold.
pub fn pages_have_own_markup()
    ensures { PagesHaveOwnMarkup }
{
    drawings_have_own_markup();
    overviews_have_own_markup();
    answers_have_own_markup();
}

/// What is told as JSON is the text of one value, and a newline.
pub fn json_is_one_value()
    ensures { JsonIsOneValue }
{
    pieces_are_the_value();
}

/// What is told as SARIF is the text of one log, and a newline.
pub fn sarif_is_one_log()
    ensures { SarifIsOneLog }
{
    pieces_are_the_log();
}
