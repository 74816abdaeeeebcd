ghost use Rattle.std.specs.Prelude.{◌≡◌, ◌+◌, ◌-◌, ◌<◌, ◌^◌, ◌++◌, length, OnOk, codes, decimal};
ghost use Rattle.std.specs.List.{flat_map};
ghost use Rattle.gp_window.specs.WindowForm.{numbers_from};
ghost use Rattle.gp_drawing.specs.Svg.{arrow_class, arrow_line, arrow_svg, bar_class, bar_svg, bar_title, behind, circle, head, lane_line, lane_name, lane_svg, row_class, row_svg, row_text, row_title, rows_svg, svg, svg_with, tip, view};
ghost use Rattle.gp_drawing.specs.Words.{longest_place};

use crate::drawing::{Arrow, ArrowKind, Bar, Drawing, DrawnRow};
use crate::places::{begin_y, end_y, height, lane_x, row_y, thread_x, width, x_at};
use crate::rows::thread_of;
use crate::tags::{put_between, put_pair, put_point, put_stroke, put_tag, put_words_at};
use crate::words::{longest_place, row_words};
use gp_place::Places;
use gp_text::print_u64;
use gp_trace::LockMode;
use gp_window::{Window, windows_are_formed};
use std::alloc::AllocError;

/// Puts the tip of all arrows, which a page has once, before its drawings: it has the id `tip`.
#[tactic(auto, unfolding(crate::specs::Svg::tip))]
pub fn put_tip(text: &mut Vec<u8>) -> Result<(), AllocError>
    ensures { OnOk result (text.new.items ≡ text.old.items ++ tip) }
{
    text.extend_from_slice(
        b"<svg class='tips' width='0' height='0'><defs><marker id='tip' refX='14' refY='4' markerWidth='8' markerHeight='8' markerUnits='userSpaceOnUse' orient='auto'><path class='tip' d='M0 0L8 4L0 8z'/></marker></defs></svg>\n",
    )
}

/// Puts the drawing of a story of a window at the end of a text, as an `svg` element for a page that has the tip of its arrows.
/// A drawing of 2^32 rows or more, or with a place of as many bytes, wants more memory than there is.
#[tactic(auto, unfolding(crate::specs::Svg::svg))]
pub fn put_svg(
    text: &mut Vec<u8>,
    window: &Window,
    places: &Places,
    drawing: &Drawing,
) -> Result<(), AllocError>
    ensures { OnOk result (text.new.items ≡ text.old.items ++ svg places.now window.now drawing.now) }
{
    if drawing.rows.len() > u32::MAX as usize {
        return Err(AllocError);
    }
    put_svg_with(text, window, places, lanes_of(window), drawing)
}

fn lanes_of(window: &Window) -> u32
    ensures { result ≡ length window.now.segments }
{
    windows_are_formed();
    window.comes_from_recording();
    window.segments().len() as u32
}

fn put_svg_with(
    text: &mut Vec<u8>,
    window: &Window,
    places: &Places,
    lanes: u32,
    drawing: &Drawing,
) -> Result<(), AllocError>
    requires { length drawing.now.rows < 2 ^ 32 }
    ensures { OnOk result (text.new.items ≡ text.old.items ++ svg_with places.now window.now lanes drawing.now) }
{
    let rows = drawing.rows.as_slice();
    put_head_of(text, window, places, lanes, rows)?;
    put_behind(text, lanes, drawing)?;
    put_rows(text, window, places, lanes, rows)?;
    text.extend_from_slice(b"</svg>\n")
}

/// Puts the head of a drawing of these rows.
fn put_head_of(
    text: &mut Vec<u8>,
    window: &Window,
    places: &Places,
    lanes: u32,
    rows: &[DrawnRow],
) -> Result<(), AllocError>
    requires { length rows.now < 2 ^ 32 }
    ensures { OnOk result (text.new.items ≡ text.old.items ++ head lanes (length rows.now) (longest_place places.now window.now rows.now)) }
{
    let longest = longest_place(*text.allocator(), window, places, rows)?;
    if longest > u32::MAX as usize {
        return Err(AllocError);
    }
    put_head(text, lanes, rows.len() as u32, longest as u32)
}

#[tactic(auto, unfolding(crate::specs::Svg::head))]
fn put_head(text: &mut Vec<u8>, lanes: u32, rows: u32, longest: u32) -> Result<(), AllocError>
    ensures { OnOk result (text.new.items ≡ text.old.items ++ head lanes rows longest) }
{
    let width = width(lanes, longest);
    put_view(text, width, height(rows))?;
    put_point(text, b"width", width, b"height", height(rows))?;
    text.extend_from_slice(b">\n")
}

#[tactic(auto, unfolding(crate::specs::Svg::view))]
fn put_view(text: &mut Vec<u8>, width: u64, height: u64) -> Result<(), AllocError>
    ensures { OnOk result (text.new.items ≡ text.old.items ++ view width height) }
{
    put_tag(text, b"svg", b"drawing")?;
    put_pair(text, b" viewBox='0 0 ", width, height)
}

/// Puts what stands behind the rows.
#[tactic(auto, unfolding(crate::specs::Svg::behind))]
fn put_behind(text: &mut Vec<u8>, lanes: u32, drawing: &Drawing) -> Result<(), AllocError>
    requires { length drawing.now.rows < 2 ^ 32 }
    ensures { OnOk result (text.new.items ≡ text.old.items ++ behind lanes drawing.now) }
{
    let rows = drawing.rows.as_slice();
    put_lanes(text, lanes, rows.len() as u32)?;
    put_bars(text, rows.len() as u32, drawing.bars.as_slice())?;
    put_arrows(text, rows, drawing.arrows.as_slice())
}

fn put_lanes(text: &mut Vec<u8>, lanes: u32, rows: u32) -> Result<(), AllocError>
    ensures { OnOk result (text.new.items ≡ text.old.items ++ flat_map (lane_svg rows) (numbers_from 1 lanes)) }
{
    for lane in 0..lanes {
        put_lane(text, rows, lane)?;
    }
    Ok(())
}

#[tactic(auto, unfolding(crate::specs::Svg::lane_svg))]
fn put_lane(text: &mut Vec<u8>, rows: u32, lane: u32) -> Result<(), AllocError>
    requires { lane + 1 < 2 ^ 32 }
    ensures { OnOk result (text.new.items ≡ text.old.items ++ lane_svg rows (lane + 1)) }
{
    put_lane_line(text, rows, lane + 1)?;
    put_lane_name(text, lane + 1)
}

fn put_lane_line(text: &mut Vec<u8>, rows: u32, thread: u32) -> Result<(), AllocError>
    ensures { OnOk result (text.new.items ≡ text.old.items ++ lane_line rows thread) }
{
    let x = thread_x(thread);
    put_stroke(text, b"lane", x, 20, x, row_y(rows))?;
    text.extend_from_slice(b"/>\n")
}

fn put_lane_name(text: &mut Vec<u8>, thread: u32) -> Result<(), AllocError>
    ensures { OnOk result (text.new.items ≡ text.old.items ++ lane_name thread) }
{
    put_words_at(text, b"thread", thread_x(thread), 14)?;
    print_u64(text, u64::from(thread))?;
    text.extend_from_slice(b"</text>\n")
}

fn put_bars(text: &mut Vec<u8>, rows: u32, bars: &[Bar]) -> Result<(), AllocError>
    ensures { OnOk result (text.new.items ≡ text.old.items ++ flat_map (bar_svg rows) bars.now) }
{
    for bar in bars {
        put_bar(text, rows, bar)?;
    }
    Ok(())
}

#[tactic(auto, unfolding(crate::specs::Svg::bar_svg))]
fn put_bar(text: &mut Vec<u8>, rows: u32, bar: &Bar) -> Result<(), AllocError>
    ensures { OnOk result (text.new.items ≡ text.old.items ++ bar_svg rows bar.now) }
{
    let x = thread_x(bar.thread);
    let class = bar_class(bar.mode);
    put_stroke(text, class, x, begin_y(bar.from), x, end_y(rows, bar.to))?;
    put_bar_title(text, bar.lock.as_bytes())
}

fn put_bar_title(text: &mut Vec<u8>, lock: &[u8]) -> Result<(), AllocError>
    ensures { OnOk result (text.new.items ≡ text.old.items ++ bar_title lock.now) }
{
    put_between(text, b"><title>lock ", lock, b"</title></line>\n")
}

fn bar_class(mode: LockMode) -> &'static [u8]
    ensures { result.now ≡ bar_class mode }
{
    match mode {
        LockMode::Exclusive => b"bar",
        LockMode::Shared => b"bar shared",
    }
}

fn put_arrows(text: &mut Vec<u8>, rows: &[DrawnRow], arrows: &[Arrow]) -> Result<(), AllocError>
    ensures { OnOk result (text.new.items ≡ text.old.items ++ flat_map (arrow_svg rows.now) arrows.now) }
{
    for arrow in arrows {
        put_arrow(text, rows, arrow)?;
    }
    Ok(())
}

#[tactic(auto, unfolding(crate::specs::Svg::arrow_svg))]
fn put_arrow(text: &mut Vec<u8>, rows: &[DrawnRow], arrow: &Arrow) -> Result<(), AllocError>
    ensures { OnOk result (text.new.items ≡ text.old.items ++ arrow_svg rows.now arrow.now) }
{
    let class = arrow_class(arrow.kind);
    let from = x_at(rows, arrow.from);
    let to = x_at(rows, arrow.to);
    put_arrow_line(text, class, from, row_y(arrow.from), to, row_y(arrow.to))
}

#[tactic(auto, unfolding(crate::specs::Svg::arrow_line))]
fn put_arrow_line(
    text: &mut Vec<u8>,
    class: &[u8],
    x1: u64,
    y1: u64,
    x2: u64,
    y2: u64,
) -> Result<(), AllocError>
    ensures { OnOk result (text.new.items ≡ text.old.items ++ arrow_line class.now x1 y1 x2 y2) }
{
    put_stroke(text, class, x1, y1, x2, y2)?;
    text.extend_from_slice(b" marker-end='url(#tip)'/>\n")
}

fn arrow_class(kind: ArrowKind) -> &'static [u8]
    ensures { result.now ≡ arrow_class kind }
{
    match kind {
        ArrowKind::Read => b"arrow read",
        ArrowKind::Lock => b"arrow lock",
        ArrowKind::Join => b"arrow join",
        ArrowKind::Start => b"arrow start",
    }
}

/// Puts the rows, with their words right of so many lanes.
fn put_rows(
    text: &mut Vec<u8>,
    window: &Window,
    places: &Places,
    lanes: u32,
    rows: &[DrawnRow],
) -> Result<(), AllocError>
    requires { length rows.now < 2 ^ 32 }
    ensures { OnOk result (text.new.items ≡ text.old.items ++ rows_svg places.now window.now lanes 0 rows.now) }
{
    for (row, drawn) in rows.iter().enumerate() {
        put_row(text, window, places, lanes, row as u32, drawn)?;
    }
    Ok(())
}

#[tactic(auto, unfolding(crate::specs::Svg::row_svg))]
fn put_row(
    text: &mut Vec<u8>,
    window: &Window,
    places: &Places,
    lanes: u32,
    row: u32,
    drawn: &DrawnRow,
) -> Result<(), AllocError>
    ensures { OnOk result (text.new.items ≡ text.old.items ++ row_svg places.now window.now lanes row drawn.now) }
{
    let words = row_words(*text.allocator(), window, places, drawn)?;
    put_row_title(text, words.as_slice())?;
    put_circle(text, drawn, row)?;
    put_row_text(text, lanes, row, words.as_slice())
}

#[tactic(auto, unfolding(crate::specs::Svg::row_title))]
fn put_row_title(text: &mut Vec<u8>, words: &[u8]) -> Result<(), AllocError>
    ensures { OnOk result (text.new.items ≡ text.old.items ++ row_title words.now) }
{
    put_between(text, b"<g class='row'><title>", words, b"</title>")
}

#[tactic(auto, unfolding(crate::specs::Svg::circle))]
fn put_circle(text: &mut Vec<u8>, drawn: &DrawnRow, row: u32) -> Result<(), AllocError>
    ensures { OnOk result (text.new.items ≡ text.old.items ++ circle drawn.now row) }
{
    put_tag(text, b"circle", row_class(drawn))?;
    put_point(text, b"cx", thread_x(thread_of(drawn)), b"cy", row_y(row))?;
    text.extend_from_slice(b" r='6'/>")
}

fn row_class(drawn: &DrawnRow) -> &'static [u8]
    ensures { result.now ≡ row_class drawn.now }
{
    match drawn {
        DrawnRow::One(_, true) => b"event marked",
        DrawnRow::One(_, false) => b"event",
        DrawnRow::Several(_) => b"run",
    }
}

#[tactic(auto, unfolding(crate::specs::Svg::row_text))]
fn put_row_text(text: &mut Vec<u8>, lanes: u32, row: u32, words: &[u8]) -> Result<(), AllocError>
    ensures { OnOk result (text.new.items ≡ text.old.items ++ row_text lanes row words.now) }
{
    put_words_at(text, b"words", lane_x(lanes), row_y(row) + 4)?;
    put_between(text, b"", words, b"</text></g>\n")
}
