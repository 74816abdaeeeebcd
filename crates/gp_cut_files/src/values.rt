ghost use Rattle.std.specs.Prelude.{◌≡◌, ◌+◌, ◌≤◌, ◌++◌, ◌∷◌, [], filter, map, IfOk, OnOk};
ghost use Rattle.gp_cut.specs.Cut.{cut_values, first_value, is_later, moved};
ghost use Rattle.gp_window.specs.WindowForm.{given_all, values_at};
ghost use Rattle.gp_cut_files.specs.Values.{is_up_to};

use gp_base::{Row, Table};
use gp_cut::Part;
use gp_text::Name;
use gp_window::{Manifest, StartValue};
use std::alloc::{AllocError, Global};

/// The start values of the windows of a part, by window and variable.
pub(crate) fn cut_values(
    alloc: Global,
    manifest: &Manifest,
    part: Part,
) -> Result<Row<StartValue>, AllocError>
    requires { part.before + part.count ≤ manifest.now.epochs }
    ensures { IfOk result (λ values. values ≡ cut_values part.before part.count manifest.now.values) }
{
    let given = manifest.values();
    let mut values = Row::new(alloc);
    if part.count == 0 {
        return Ok(values);
    }
    let first = values_at(alloc, manifest, part.before + 1)?;
    put_first(&mut values, &first)?;
    put_later(&mut values, part, given)?;
    Ok(values)
}

/// The values with which a window begins, the zeros too.
fn values_at(
    alloc: Global,
    manifest: &Manifest,
    window: u32,
) -> Result<Table<Name, i64>, AllocError>
    ensures { IfOk result (λ values. values ≡ values_at manifest.now.values window) }
{
    let mut values = Table::new(alloc);
    for given in manifest.values() {
        give_up_to(window, &mut values, given)?;
    }
    Ok(values)
}

/// Gives a value, where it is given for this window or one before it.
fn give_up_to(
    window: u32,
    values: &mut Table<Name, i64>,
    given: &StartValue,
) -> Result<(), AllocError>
    ensures { OnOk result (values.new ≡ given_all values.old (filter (is_up_to window) (given.now ∷ []))) }
{
    if given.window > window {
        return Ok(());
    }
    values.put(given.variable, given.value)
}

/// Adds the values of the first window behind the stage.
fn put_first(values: &mut Row<StartValue>, first: &Table<Name, i64>) -> Result<(), AllocError>
    ensures { OnOk result (values.new ≡ values.old ++ map first_value first.now) }
{
    for (variable, value) in first.iter() {
        values.push(StartValue {
            window: 2,
            variable: *variable,
            value: *value,
        })?;
    }
    Ok(())
}

/// Adds the values that are given for the windows of a part behind its first.
fn put_later(
    values: &mut Row<StartValue>,
    part: Part,
    given: &[StartValue],
) -> Result<(), AllocError>
    requires { part.before + part.count ≤ 4096 }
    ensures { OnOk result (values.new ≡ values.old ++ map (moved part.before) (filter (is_later part.before part.count) given.now)) }
{
    for value in given {
        keep_later(values, part, value)?;
    }
    Ok(())
}

fn keep_later(
    values: &mut Row<StartValue>,
    part: Part,
    value: &StartValue,
) -> Result<(), AllocError>
    requires { part.before + part.count ≤ 4096 }
    ensures { OnOk result (values.new ≡ values.old ++ map (moved part.before) (filter (is_later part.before part.count) (value.now ∷ []))) }
{
    if !is_later(part, value) {
        return Ok(());
    }
    values.push(StartValue {
        window: value.window - part.before + 1,
        variable: value.variable,
        value: value.value,
    })
}

/// Whether a value is given for a window of a part behind its first.
fn is_later(part: Part, value: &StartValue) -> bool
    requires { part.before + part.count ≤ 4096 }
    ensures { result ≡ is_later part.before part.count value.now }
{
    part.before + 1 < value.window && value.window <= part.before + part.count
}
