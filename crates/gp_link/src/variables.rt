ghost use Rattle.std.specs.Prelude.{◌≡◌, IfOk, OnOk};
ghost use Rattle.std.specs.Map.{keys_of};
ghost use Rattle.gp_link.specs.Variables.{names_of, variables_of, with_names, with_written, written_by};

use gp_base::{Row, Table};
use gp_constraint::{Action, Point};
use gp_text::Name;
use gp_window::Window;
use std::alloc::{AllocError, Global};

/// The variables that are written, and those that have a start value here or in the next window, by name.
pub fn variables_of(
    alloc: Global,
    window: &Window,
    next: &Window,
    points: &[Point],
) -> Result<Row<Name>, AllocError>
    ensures { IfOk result (λ variables. variables ≡ variables_of window.now next.now points.now) }
{
    let names = names_of(alloc, window, next, points)?;
    keys_of(alloc, &names)
}

fn keys_of(alloc: Global, names: &Table<Name, ()>) -> Result<Row<Name>, AllocError>
    ensures { IfOk result (λ keys. keys ≡ keys_of names.now) }
{
    let mut keys = Row::new(alloc);
    for (name, _) in names.iter() {
        keys.push(*name)?;
    }
    Ok(keys)
}

fn names_of(
    alloc: Global,
    window: &Window,
    next: &Window,
    points: &[Point],
) -> Result<Table<Name, ()>, AllocError>
    ensures { IfOk result (λ names. names ≡ names_of window.now next.now points.now) }
{
    let mut names = Table::new(alloc);
    put_written(&mut names, points)?;
    put_valued(&mut names, window)?;
    put_valued(&mut names, next)?;
    Ok(names)
}

fn put_written(names: &mut Table<Name, ()>, points: &[Point]) -> Result<(), AllocError>
    ensures { OnOk result (names.new ≡ with_written names.old points.now) }
{
    for p in points {
        put_action(names, &p.action)?;
    }
    Ok(())
}

fn put_action(names: &mut Table<Name, ()>, action: &Action) -> Result<(), AllocError>
    ensures { OnOk result (names.new ≡ with_names names.old (written_by action.now)) }
{
    match action {
        Action::Write(variable, _) => names.put(*variable, ()),
        _ => Ok(()),
    }
}

/// Puts the variables with a start value other than 0.
fn put_valued(names: &mut Table<Name, ()>, window: &Window) -> Result<(), AllocError>
    ensures { OnOk result (names.new ≡ with_names names.old (keys_of window.now.start_values)) }
{
    for (variable, _) in window.start_values().iter() {
        names.put(*variable, ())?;
    }
    Ok(())
}
