ghost use Rattle.gp_drawing.specs.Escaped.{EscapedIsPlain};
ghost use Rattle.gp_drawing.specs.Examples.{ExamplesHold};
ghost use Rattle.gp_drawing.specs.Laws.{ArrowsLeadDown, BarsLeadDown, RowsTellParts};
ghost use Rattle.gp_drawing.specs.Markup.{DrawingsHaveOwnMarkup};

/// A drawing has a row for each part of its story, which tells that part.
pub fn rows_tell_parts()
    ensures { RowsTellParts }
{}

/// Each arrow leads down, from a row to a later one. Both tell one line each, and the later of these looks back at the event
/// of the earlier, or its thread is started by it.
pub fn arrows_lead_down()
    ensures { ArrowsLeadDown }
{}

/// A bar ends in a row of the drawing, and not above the row in which it begins.
pub fn bars_lead_down()
    ensures { BarsLeadDown }
{}

/// An escaped text has no angle bracket and no quote, and `&` stands in it only where an entity begins.
pub fn escaped_is_plain()
    ensures { EscapedIsPlain }
{}

/// In the text of a drawing each angle bracket that opens opens one of the program's own tags, whatever stands in the window or is told of places.
pub fn drawings_have_own_markup()
    ensures { DrawingsHaveOwnMarkup }
{}

/// The drawings of small stories, and the text of one, with a place and without.
pub fn draws_examples()
    ensures { ExamplesHold }
{}
