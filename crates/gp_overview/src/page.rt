ghost use Rattle.std.specs.Prelude.{◌≡◌, ◌++◌, OnOk, decimal, flat_map, map};
ghost use Rattle.gp_overview.specs.Page.{body_cell, counts_row, head_row, property_row, table_part, verdict_part};

use crate::counting::{counts_of, total_of};
use crate::counts::Counts;
use crate::table::decimal_of;
use crate::verdict::verdict_words;
use gp_checker::Checked;
use gp_drawing::put_between;
use gp_property::Property;
use gp_report::WindowRecord;
use std::alloc::AllocError;

/// Puts the verdict on a report of these windows as a paragraph of a page.
#[tactic(auto, unfolding(crate::specs::Page::verdict_part))]
pub fn put_verdict_part(
    text: &mut Vec<u8>,
    windows: &[WindowRecord],
    checked: Checked,
) -> Result<(), AllocError>
    ensures { OnOk result (text.new.items ≡ text.old.items ++ verdict_part windows.now checked) }
{
    let words = verdict_words(*text.allocator(), windows, checked)?;
    put_between(text, b"<p>", words.as_slice(), b"</p>\n")
}

/// Puts the table of the properties as a table of a page.
///
/// It looks at all that is told of any property for each property.
#[tactic(auto, unfolding(crate::specs::Page::table_part))]
pub fn put_table_part(
    text: &mut Vec<u8>,
    properties: &[Property],
    windows: &[WindowRecord],
) -> Result<(), AllocError>
    ensures { OnOk result (text.new.items ≡ text.old.items ++ table_part properties.now windows.now) }
{
    text.extend_from_slice(b"<table>\n")?;
    put_head_row(text)?;
    put_property_rows(text, properties, windows)?;
    put_counts_row(text, b"all", total_of(windows)?)?;
    text.extend_from_slice(b"</table>\n")
}

#[tactic(auto, unfolding(crate::specs::Page::head_cell, crate::specs::Page::head_row))]
fn put_head_row(text: &mut Vec<u8>) -> Result<(), AllocError>
    ensures { OnOk result (text.new.items ≡ text.old.items ++ head_row) }
{
    text.extend_from_slice(
        b"<tr><th>property</th><th>found</th><th>impossible</th><th>undecided</th><th>too many</th><th>too large</th></tr>\n",
    )
}

fn put_property_rows(
    text: &mut Vec<u8>,
    properties: &[Property],
    windows: &[WindowRecord],
) -> Result<(), AllocError>
    ensures { OnOk result (text.new.items ≡ text.old.items ++ flat_map (property_row windows.now) properties.now) }
{
    for property in properties {
        let counts = counts_of(windows, property.name())?;
        put_counts_row(text, property.name().as_bytes(), counts)?;
    }
    Ok(())
}

#[tactic(auto, unfolding(crate::specs::Page::counts_row))]
fn put_counts_row(text: &mut Vec<u8>, name: &[u8], counts: Counts) -> Result<(), AllocError>
    ensures { OnOk result (text.new.items ≡ text.old.items ++ counts_row name.now counts) }
{
    text.extend_from_slice(b"<tr>")?;
    put_body_cell(text, name)?;
    put_number_cells(text, &counts.numbers())?;
    text.extend_from_slice(b"</tr>\n")
}

fn put_number_cells(text: &mut Vec<u8>, numbers: &[u64]) -> Result<(), AllocError>
    ensures { OnOk result (text.new.items ≡ text.old.items ++ flat_map body_cell (map decimal numbers.now)) }
{
    for number in numbers {
        put_number_cell(text, *number)?;
    }
    Ok(())
}

fn put_number_cell(text: &mut Vec<u8>, number: u64) -> Result<(), AllocError>
    ensures { OnOk result (text.new.items ≡ text.old.items ++ body_cell (decimal number)) }
{
    let words = decimal_of(*text.allocator(), number)?;
    put_body_cell(text, words.as_slice())
}

#[tactic(auto, unfolding(crate::specs::Page::body_cell))]
fn put_body_cell(text: &mut Vec<u8>, words: &[u8]) -> Result<(), AllocError>
    ensures { OnOk result (text.new.items ≡ text.old.items ++ body_cell words.now) }
{
    put_between(text, b"<td>", words, b"</td>")
}
