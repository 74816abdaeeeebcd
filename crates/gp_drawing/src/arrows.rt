ghost use Rattle.std.specs.Prelude.{◌≡◌, ◌+◌, ◌<◌, ◌^◌, [], ◌∷◌, ◌++◌, length, IfOk, OnOk, option_copied};
ghost use Rattle.gp_drawing.specs.Arrows.{arrow_between, arrow_from, arrows_of, arrows_to, arrows_to_line, earlier, kind_of};
ghost use Rattle.gp_drawing.specs.Singles.{TellsSingles};

use crate::drawing::{Arrow, ArrowKind};
use crate::singles::{Singles, keep_part, row_telling};
use gp_base::{Row, Table};
use gp_story::{Part, Source, StoryLine};
use gp_trace::Event;
use gp_window::{EventId, Window};
use std::alloc::{AllocError, Global};

/// The arrows of parts.
pub fn arrows_of(alloc: Global, window: &Window, parts: &[Part]) -> Result<Row<Arrow>, AllocError>
    requires { length parts.now < 2 ^ 32 }
    ensures { IfOk result (λ arrows. arrows ≡ arrows_of window.now parts.now) }
{
    let mut singles = Table::new(alloc);
    let mut arrows = Row::new(alloc);
    for (row, part) in parts.iter().enumerate() {
        put_arrows(&mut arrows, window, &parts[..row], &singles, part)?;
        keep_part(&mut singles, row as u32, part)?;
    }
    Ok(arrows)
}

/// Puts the arrows to the row of a part, with the parts before it.
fn put_arrows(
    arrows: &mut Row<Arrow>,
    window: &Window,
    before: &[Part],
    singles: &Singles,
    part: &Part,
) -> Result<(), AllocError>
    requires few { length before.now < 2 ^ 32 }
    requires told { TellsSingles before.now singles.now }
    ensures { OnOk result (arrows.new ≡ arrows.old ++ arrows_to window.now before.now part.now) }
{
    match part {
        Part::Single(line) => put_arrows_to_line(arrows, window, before, singles, line),
        Part::Run(_) => Ok(()),
    }
}

fn put_arrows_to_line(
    arrows: &mut Row<Arrow>,
    window: &Window,
    before: &[Part],
    singles: &Singles,
    line: &StoryLine,
) -> Result<(), AllocError>
    requires few { length before.now < 2 ^ 32 }
    requires told { TellsSingles before.now singles.now }
    ensures { OnOk result (arrows.new ≡ arrows.old ++ arrows_to_line window.now before.now line.now) }
{
    let kind = kind_of(window.event(line.event));
    put_arrow(arrows, before, singles, earlier(line.source), kind)?;
    put_arrow(arrows, before, singles, line.started_by, ArrowKind::Start)
}

/// Puts the arrow from the row of an event, where there is one, to the row after these parts.
fn put_arrow(
    arrows: &mut Row<Arrow>,
    before: &[Part],
    singles: &Singles,
    event: Option<EventId>,
    kind: ArrowKind,
) -> Result<(), AllocError>
    requires few { length before.now < 2 ^ 32 }
    requires told { TellsSingles before.now singles.now }
    ensures { OnOk result (arrows.new ≡ arrows.old ++ arrow_from before.now event kind) }
{
    let Some(event) = event else {
        return Ok(());
    };
    let from = row_telling(before, singles, event);
    put_arrow_between(arrows, from, before.len() as u32, kind)
}

fn put_arrow_between(
    arrows: &mut Row<Arrow>,
    from: Option<u32>,
    to: u32,
    kind: ArrowKind,
) -> Result<(), AllocError>
    ensures { OnOk result (arrows.new ≡ arrows.old ++ arrow_between from to kind) }
{
    let Some(from) = from else {
        return Ok(());
    };
    arrows.push(Arrow { from, to, kind })
}

fn earlier(source: Source) -> Option<EventId>
    ensures { result ≡ earlier source }
{
    match source {
        Source::Earlier(event) => Some(event),
        Source::Beginning | Source::Nothing => None,
    }
}

fn kind_of(event: Option<&Event>) -> ArrowKind
    ensures { result ≡ kind_of (option_copied event.entry) }
{
    match event {
        Some(Event::Read(_, _)) => ArrowKind::Read,
        Some(Event::Join(_)) => ArrowKind::Join,
        _ => ArrowKind::Lock,
    }
}
