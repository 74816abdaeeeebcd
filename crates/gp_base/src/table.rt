ghost use Rattle.std.specs.Prelude.{◌≡◌, ◌==◌, [], length, OnOk, OnErr, option_copied, IfOk};
ghost use Rattle.std.specs.List.Sorted.{IsStrictlySortedBy};
ghost use Rattle.std.specs.Map.{keys_of};
ghost use Rattle.gp_base.specs.Table.{value_at, with_entry, without_entry};

use crate::row::Row;
use std::alloc::{AllocError, Global};
use std::collections::BTreeMap;
use std::collections::btree_map::Iter;
use std::marker::Model;

/// A finite map, which contracts see as the list of its entries in the order of their keys.
#[derive(Drop)]
pub struct Table<K: Ord, V> {
    map: BTreeMap<K, V>,
}

impl<K: Ord, V> Model for Table<K, V> {
    ghost use Rattle.std.specs.Prelude.{List};

    ghost Value = { List (K × V) };

    ghost view = { λ table. table.map.entries };
}

impl<K: Ord, V> Table<K, V> {
    /// A table without entries, which takes no memory.
    pub fn new(alloc: Global) -> Table<K, V>
        ensures { result ≡ [] }
    {
        Table {
            map: BTreeMap::new(alloc),
        }
    }

    /// The value at a key, where there is one.
    pub fn get(&self, key: &K) -> Option<&V>
        ensures { option_copied result ≡ value_at K.cmp self.now key.now }
    {
        self.map.get(key)
    }

    pub fn is_empty(&self) -> bool
        ensures { result ≡ (length self.now == 0) }
    {
        self.map.is_empty()
    }

    /// A walk over the entries, in the order of their keys, none of which comes twice.
    pub fn iter(&self) -> Iter<'_, K, V>
        ensures entries { result ≡ self.now }
        ensures ordered { IsStrictlySortedBy K.cmp (keys_of self.now) }
    {
        self.map.iter()
    }
}

impl<K: Ord + Drop, V: Drop> Table<K, V> {
    /// Sets the value at a key.
    pub fn put(&mut self, key: K, value: V) -> Result<(), AllocError>
        ensures ok { OnOk result (self.new ≡ with_entry K.cmp self.old key value) }
        ensures err { OnErr result (self.new ≡ self.old) }
    {
        self.map.insert(key, value)?;
        Ok(())
    }

    /// Takes the entry at a key away, where there is one.
    pub fn remove(&mut self, key: &K)
        ensures { self.new ≡ without_entry K.cmp self.old key.now }
    {
        let _ = self.map.remove(key);
    }

    /// The entries, in the order of their keys, none of which comes twice.
    pub fn into_row(self, alloc: Global) -> Result<Row<(K, V)>, AllocError>
        ensures entries { IfOk result (λ row. row ≡ self) }
        ensures ordered { IsStrictlySortedBy K.cmp (keys_of self) }
    {
        let _ = self.map.len();
        let entries: Vec<(K, V)> = self.map.into_iter().collect(alloc)?;
        Ok(Row::from_vec(entries))
    }
}

impl<K: Ord + Copy + Drop, V: Copy + Drop> Table<K, V> {
    /// A table of the same entries.
    pub fn copy(&self, alloc: Global) -> Result<Table<K, V>, AllocError>
        ensures { IfOk result (λ copy. copy ≡ self.now) }
    {
        let mut copy = Table::new(alloc);
        for (key, value) in self.iter() {
            copy.put(*key, *value)?;
        }
        Ok(copy)
    }

    /// A copy of the entries, in the order of their keys, none of which comes twice.
    pub fn to_row(&self, alloc: Global) -> Result<Row<(K, V)>, AllocError>
        ensures entries { IfOk result (λ row. row ≡ self.now) }
        ensures ordered { IsStrictlySortedBy K.cmp (keys_of self.now) }
    {
        let _ = self.map.len();
        let entries: Vec<(K, V)> = self
            .map
            .iter()
            .map(|(key, value)| (*key, *value))
            .collect(alloc)?;
        Ok(Row::from_vec(entries))
    }
}
