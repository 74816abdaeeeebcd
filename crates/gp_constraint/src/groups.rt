ghost use Rattle.std.specs.Prelude.{◌≡◌, ℕ, ◌++◌, ◌∷◌, [], List, if◌then◌else◌, OnOk};
ghost use Rattle.std.specs.BTreeMap.{is_at};
ghost use Rattle.std.specs.Cmp.Lexicographic.{slice_cmp};
ghost use Rattle.std.specs.Ordering.{nat_cmp};
ghost use Rattle.std.specs.Str.{bytes_eq};
ghost use Rattle.gp_base.specs.Table.{value_at};
ghost use Rattle.gp_constraint.specs.Tables.{entry_at};

use gp_base::Row;
use gp_text::Name;
use std::alloc::{AllocError, Global};
use std::collections::BTreeMap;
use std::marker::Model;

/// Values by name. At a name they stand in the order in which they came.
#[derive(Drop)]
pub struct Groups<T> {
    alloc: Global,
    map: BTreeMap<Name, Row<T>>,
}

impl<T> Model for Groups<T> {
    ghost use Rattle.std.specs.Prelude.{ℕ, List};

    ghost Value = { List (List ℕ × List T) };

    ghost view = { λ groups. groups.map.entries };
}

impl<T> Groups<T> {
    pub fn new(alloc: Global) -> Groups<T>
        ensures { result ≡ [] }
    {
        Groups {
            alloc,
            map: BTreeMap::new(alloc),
        }
    }

    /// The values at a name.
    pub fn at(&self, name: &Name) -> &[T]
        ensures { result.now ≡ entry_at self.now name.now }
    {
        match self.map.get(name) {
            Some(row) => row.as_slice(),
            None => &[],
        }
    }
}

impl<T: Drop> Groups<T> {
    /// Adds a value at a name.
    pub fn push(&mut self, name: Name, value: T) -> Result<(), AllocError>
        ensures { OnOk result ((other : List ℕ) → entry_at self.new other ≡ entry_at self.old other ++ (if bytes_eq name other then value ∷ [] else [])) }
    {
        let mut row = self.take(&name);
        row.push(value)?;
        self.map.insert(name, row)?;
        Ok(())
    }

    /// Takes the values at a name out.
    fn take(&mut self, name: &Name) -> Row<T>
        ensures row { result ≡ entry_at self.old name.now }
        ensures rest { (other : List ℕ) → value_at (slice_cmp nat_cmp) self.new other ≡ (if is_at (slice_cmp nat_cmp name.now) other then None else value_at (slice_cmp nat_cmp) self.old other) }
    {
        match self.map.remove(name) {
            Some(row) => row,
            None => Row::new(self.alloc),
        }
    }
}
