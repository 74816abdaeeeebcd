// A story as a picture: a lane for each thread, and a row for each part. A bar in a lane is a lock that the thread holds, an
// arrow leads to a row from the event that it looks back at, and the rows of an instance's events are marked. First the
// drawing in values, with rows by number and no coordinates; then its text, as SVG in whole numbers, with no colours, which
// come from the style sheet of the page that it stands in. All text of a trace and of places is escaped.
#![tactic(auto)]

mod arrows;
mod bars;
mod drawing;
mod drawn;
mod escaped;
mod laws;
mod places;
mod rows;
mod singles;
mod svg;
mod tags;
mod words;

pub use drawing::{Arrow, ArrowKind, Bar, Drawing, DrawnRow, Span};
pub use drawn::draw;
pub use escaped::put_escaped;
pub use laws::{
    arrows_lead_down, bars_lead_down, drawings_have_own_markup, draws_examples, escaped_is_plain,
    rows_tell_parts,
};
pub use svg::{put_svg, put_tip};
pub use tags::put_between;
