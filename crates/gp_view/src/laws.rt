ghost use Rattle.gp_view.specs.Examples.{ExamplesHold};
ghost use Rattle.gp_view.specs.Laws.{AnswersHaveOwnMarkup};

use gp_drawing::drawings_have_own_markup;

/// In what a page tells of an instance each angle bracket that opens opens one of the program's own tags.
pub fn answers_have_own_markup()
    ensures { AnswersHaveOwnMarkup }
{
    drawings_have_own_markup();
}

/// An instance that is found, one that is impossible and one that is undecided, as text and as a part of a page.
pub fn shows_examples()
    ensures { ExamplesHold }
{}
