//! What stands at offsets.
ghost use Rattle.std.specs.Prelude.{◌≡◌, IfOk, drop, nat_eq};
ghost use Rattle.std.specs.List.{position_from};
ghost use Rattle.std.specs.Map.{lookup};
ghost use Rattle.go_emit_core.specs.lookup.Looking.{place_at};

use go_code_core::fragments::Meaning;
use std::alloc::{AllocError, Global};
use std::collections::HashMap;
use std::marker::Model;

/// What stands at offsets in bytes from a file's start. Contracts see the list of both.
pub struct OffsetTable {
    items: Vec<(usize, Meaning)>,
    /// The place of the first item of each offset.
    places: HashMap<usize, usize>,
}

impl Drop for OffsetTable {
    fn drop(self) {
        let OffsetTable {
            items: _,
            places: _,
        } = self;
    }
}

impl Model for OffsetTable {
    ghost use Rattle.std.specs.Prelude.{◌≡◌, ℕ, List, nat_eq};
    ghost use Rattle.std.specs.Map.{lookup};
    ghost use Rattle.go_code_core.specs.declared.fragments.names.Meaning.{Meaning as TheMeaning};
    ghost use Rattle.go_emit_core.specs.lookup.Looking.{place_at};

    ghost Value = { List (ℕ × TheMeaning) };

    ghost view = { λ t. t.items.items };

    ghost invariant = { λ t. (at : ℕ) → lookup (nat_eq at) t.places.entries ≡ place_at t.items.items at };
}

// The place of the first item of each offset.
fn places_of(alloc: Global, items: &[(usize, Meaning)]) -> Result<HashMap<usize, usize>, AllocError>
    ensures { IfOk result (λ places. (at : _) → lookup (nat_eq at) places.entries ≡ place_at items.now at) }
{
    let mut places = HashMap::new(alloc);
    // The first of several at one offset is put in last, and stays.
    for place in (0..items.len()).rev() {
        places.insert(items[place].0, place)?;
    }
    Ok(places)
}

impl OffsetTable {
    /// What stands at offsets: of several at one offset the first counts.
    ///
    /// # Errors
    ///
    /// `AllocError` where memory is wanting.
    pub fn new(alloc: Global, items: Vec<(usize, Meaning)>) -> Result<OffsetTable, AllocError>
        ensures { IfOk result (λ t. t ≡ items.items) }
    {
        let places = places_of(alloc, &items)?;
        Ok(OffsetTable { items, places })
    }

    /// The place of what stands at an offset, among all that stands somewhere, from 0: none where nothing stands there.
    pub fn place(&self, offset: usize) -> Option<usize>
        ensures { result ≡ place_at self.now offset }
    {
        self.places.get(&offset).copied()
    }

    /// What stands at an offset.
    pub fn meaning(&self, offset: usize) -> Option<Meaning>
        ensures { result ≡ lookup (nat_eq offset) self.now }
    {
        match self.place(offset) {
            Some(place) => Some(self.items[place].1),
            None => None,
        }
    }
}
