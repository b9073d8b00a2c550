//! Which types of a table were met, and where.
ghost use Rattle.std.specs.Prelude.{◌≡◌, [], nat_eq, OnOk};
ghost use Rattle.std.specs.Map.{lookup};
ghost use Rattle.go_select_core.specs.levels.mirrors.Ways.{Noted};

use std::alloc::{AllocError, Global};
use std::collections::HashMap;
use std::marker::Model;

/// Types by their numbers in a table, each with its place among those that are reached. Contracts see the list of the pairs.
pub struct Numbers {
    places: HashMap<usize, usize>,
}

impl Drop for Numbers {
    fn drop(self) {
        let Numbers { places: _ } = self;
    }
}

impl Model for Numbers {
    ghost use Rattle.std.specs.Prelude.{List, ℕ};

    ghost Value = { List (ℕ × ℕ) };

    ghost view = { λ m. m.places.entries };
}

impl Numbers {
    /// No types.
    pub(crate) fn new(alloc: Global) -> Numbers
        ensures { result ≡ [] }
    {
        Numbers {
            places: HashMap::new(alloc),
        }
    }

    /// The place of a type, where it was met.
    pub(crate) fn place(&self, number: usize) -> Option<usize>
        ensures { result ≡ lookup (nat_eq number) self.now }
    {
        self.places.get(&number).copied()
    }

    /// Notes the place of a type.
    pub(crate) fn add(&mut self, number: usize, place: usize) -> Result<(), AllocError>
        ensures { OnOk result (Noted number place self.old self.new) }
    {
        self.places.insert(number, place)?;
        Ok(())
    }
}
