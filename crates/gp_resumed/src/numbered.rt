ghost use Rattle.std.specs.Prelude.{◌≡◌, ◌≤◌, IfOk, length};
ghost use Rattle.std.specs.List.{enumerate_from};

use gp_property::Property;
use std::alloc::{AllocError, Global};
use std::marker::Model;

// A property with its number.
#[derive(Drop)]
pub(crate) struct Numbered<'a> {
    pub(crate) number: u32,
    pub(crate) property: &'a Property,
}

impl<'a> Model for Numbered<'a> {
    ghost use Rattle.std.specs.Prelude.{ℕ};
    ghost use Rattle.gp_property.specs.PropertyForm.{PropertyForm};

    ghost Value = { ℕ × PropertyForm };

    ghost view = { λ numbered. (numbered.number, numbered.property.now) };
}

// The properties with their numbers, in order.
pub(crate) fn number_all(
    alloc: Global,
    properties: &[Property],
) -> Result<Vec<Numbered<'_>>, AllocError>
    requires { length properties.now ≤ 64 }
    ensures { IfOk result (λ numbered. numbered.items ≡ enumerate_from 0 properties.now) }
{
    let mut numbered = Vec::new(alloc);
    let mut left = properties;
    let mut number = 0u32;
    while let Some((property, more)) = left.split_first() {
        numbered.push(Numbered { number, property })?;
        left = more;
        number += 1;
    }
    Ok(numbered)
}
