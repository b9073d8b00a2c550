//! Names with what each has.
ghost use Rattle.std.specs.Prelude.{◌≡◌, [], ◌∷◌, ◌++◌, None, IfOk, OnOk, OnErr, length, option_copied, take};
ghost use Rattle.go_collections_core.specs.name_table.Named.{entries_named, value_at};

use crate::name_table::places::Places;
use std::alloc::{AllocError, Global};
use std::marker::Model;

/// Names with a value each, in the order in which they were added. Contracts see them as a list.
pub struct NameTable<V> {
    entries: Vec<(String, V)>,
    /// Where each name stands. A name that stands there no more may have the place where it stood.
    places: Places,
}

impl<V: Drop> Drop for NameTable<V> {
    fn drop(self) {
        let NameTable { entries, places } = self;
        drop(entries);
        drop(places);
    }
}

impl<V> Model for NameTable<V> {
    ghost use Rattle.go_collections_core.specs.name_table.Named.{Named, named, named_code, entries_named, AreOnce};
    ghost use Rattle.go_collections_core.specs.name_table.Placed.{ArePlaced};

    ghost Value = { Named V };

    ghost coded = { named_code V.code };

    ghost view = { λ t. named (entries_named t.entries.items) };

    ghost invariant = { λ t. ArePlaced t.places.slots.items t.places.more (entries_named t.entries.items) × AreOnce (entries_named t.entries.items) };
}

impl<V> NameTable<V> {
    /// No name.
    pub fn new(alloc: Global) -> NameTable<V>
        ensures { result.names ≡ [] }
    {
        NameTable {
            entries: Vec::new(alloc),
            places: Places::new(alloc),
        }
    }

    /// How many names there are.
    pub fn len(&self) -> usize
        ensures { result ≡ length self.now.names }
    {
        self.entries.len()
    }

    /// The names with their values, in order.
    pub fn entries(&self) -> &[(String, V)]
        ensures { entries_named result.now ≡ self.now.names }
    {
        self.entries.as_slice()
    }

    /// What a name has, if it is there. It takes constant expected time and no memory.
    pub fn find(&self, name: &str) -> Option<&V>
        ensures { option_copied result ≡ value_at self.now.names name.now }
    {
        self.places.find(self.entries.as_slice(), name)
    }

    /// Adds a name that is not there, with its value, behind the others.
    ///
    /// # Errors
    ///
    /// `AllocError` where memory is wanting; the names are then as they were.
    pub fn add(&mut self, alloc: Global, name: &str, value: V) -> Result<(), AllocError>
    where
        V: Drop,
        requires { value_at self.old.names name.now ≡ None }
        ensures ok { OnOk result (self.new.names ≡ self.old.names ++ (name.now, value) ∷ []) }
        ensures err { OnErr result (self.new.names ≡ self.old.names) }
    {
        let key = String::from_str(alloc, name)?;
        self.places.widen(alloc, self.entries.as_slice())?;
        let place = self.entries.len();
        self.places.note(alloc, name, place)?;
        self.entries.push((key, value))?;
        Ok(())
    }

    /// Takes away all names but so many of the first.
    pub fn truncate(&mut self, len: usize)
    where
        V: Drop,
        ensures { self.new.names ≡ take len self.old.names }
    {
        self.entries.truncate(len);
    }

    /// A second table with the same names and values. The time that it takes is linear in them.
    ///
    /// # Errors
    ///
    /// `AllocError` where memory is wanting.
    pub fn copy(&self, alloc: Global) -> Result<NameTable<V>, AllocError>
    where
        V: Copy + Drop,
        ensures ok { IfOk result (λ t. t.names ≡ self.now.names) }
    {
        let mut copied = NameTable::new(alloc);
        for (name, value) in &self.entries {
            copied.add(alloc, name.as_str(), *value)?;
        }
        Ok(copied)
    }
}
