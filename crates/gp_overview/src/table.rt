ghost use Rattle.std.specs.Prelude.{◌≡◌, ◌++◌, IfOk, OnOk, decimal, flat_map, map};
ghost use Rattle.gp_overview.specs.Table.{cell, counts_line, head_line, name_cell, property_line, spaces, table_text};

use crate::counting::{counts_of, total_of};
use crate::counts::Counts;
use gp_property::Property;
use gp_report::WindowRecord;
use gp_text::print_u64;
use std::alloc::{AllocError, Global};

// How wide the column of the names is, and how wide each column of numbers.
const NAME_WIDTH: usize = 32;

const NUMBER_WIDTH: usize = 11;

/// Puts the table of the properties: a line of heads, one for each property, and one for all.
///
/// It looks at all that is told of any property for each property.
pub fn put_table(
    text: &mut Vec<u8>,
    properties: &[Property],
    windows: &[WindowRecord],
) -> Result<(), AllocError>
    ensures { OnOk result (text.new.items ≡ text.old.items ++ table_text properties.now windows.now) }
{
    put_head_line(text)?;
    put_property_lines(text, properties, windows)?;
    put_counts_line(text, b"all", total_of(windows)?)
}

fn put_head_line(text: &mut Vec<u8>) -> Result<(), AllocError>
    ensures { OnOk result (text.new.items ≡ text.old.items ++ head_line) }
{
    text.extend_from_slice(
        b"property                              found impossible  undecided   too many  too large\n",
    )
}

fn put_property_lines(
    text: &mut Vec<u8>,
    properties: &[Property],
    windows: &[WindowRecord],
) -> Result<(), AllocError>
    ensures { OnOk result (text.new.items ≡ text.old.items ++ flat_map (property_line windows.now) properties.now) }
{
    for property in properties {
        let counts = counts_of(windows, property.name())?;
        put_counts_line(text, property.name().as_bytes(), counts)?;
    }
    Ok(())
}

fn put_counts_line(text: &mut Vec<u8>, name: &[u8], counts: Counts) -> Result<(), AllocError>
    ensures { OnOk result (text.new.items ≡ text.old.items ++ counts_line name.now counts) }
{
    put_name_cell(text, name)?;
    put_number_cells(text, &counts.numbers())?;
    text.extend_from_slice(b"\n")
}

fn put_name_cell(text: &mut Vec<u8>, name: &[u8]) -> Result<(), AllocError>
    ensures { OnOk result (text.new.items ≡ text.old.items ++ name_cell name.now) }
{
    text.extend_from_slice(name)?;
    put_spaces(text, NAME_WIDTH.saturating_sub(name.len()))
}

fn put_number_cells(text: &mut Vec<u8>, numbers: &[u64]) -> Result<(), AllocError>
    ensures { OnOk result (text.new.items ≡ text.old.items ++ flat_map cell (map decimal numbers.now)) }
{
    for number in numbers {
        put_number_cell(text, *number)?;
    }
    Ok(())
}

fn put_number_cell(text: &mut Vec<u8>, number: u64) -> Result<(), AllocError>
    ensures { OnOk result (text.new.items ≡ text.old.items ++ cell (decimal number)) }
{
    let words = decimal_of(*text.allocator(), number)?;
    put_spaces(text, NUMBER_WIDTH.saturating_sub(words.len()))?;
    text.extend_from_slice(words.as_slice())
}

fn put_spaces(text: &mut Vec<u8>, count: usize) -> Result<(), AllocError>
    ensures { OnOk result (text.new.items ≡ text.old.items ++ spaces count) }
{
    for _space in 0..count {
        text.push(b' ')?;
    }
    Ok(())
}

/// The decimal of a number as bytes.
pub(crate) fn decimal_of(alloc: Global, number: u64) -> Result<Vec<u8>, AllocError>
    ensures { IfOk result (λ words. words.items ≡ decimal number) }
{
    let mut words = Vec::new(alloc);
    print_u64(&mut words, number)?;
    Ok(words)
}
