ghost use Rattle.std.specs.Prelude.{◌≡◌, ◌++◌, OnOk};
ghost use Rattle.gp_overview.specs.Table.{table_text};

use gp_property::Property;
use gp_report::WindowRecord;
use std::alloc::AllocError;

/// As `gp_overview::put_table`.
pub fn put_table(
    text: &mut Vec<u8>,
    properties: &[Property],
    windows: &[WindowRecord],
) -> Result<(), AllocError>
    ensures { OnOk result (text.new.items ≡ text.old.items ++ table_text properties.now windows.now) }
{
    gp_overview::put_table(text, properties, windows)
}
