//! Where names stand in a list.
ghost use Rattle.std.specs.Prelude.{◌≡◌, ℕ, List, [], Some, false, IfOk, OnOk, map};
ghost use Rattle.std.specs.Str.{bytes_eq};
ghost use Rattle.go_collections_core.specs.spelling_index.Spelled.{AreSpelled, joined, places_of, spelled_if, spelled_in, spelling};

use std::alloc::{AllocError, Global};
use std::collections::BTreeMap;

/// Where a name stands in a list of names.
#[derive(Clone, Copy)]
pub struct Spelling {
    /// The place of the first that is spelled so, from 0.
    pub first: usize,
    /// Whether another is spelled so.
    pub is_repeated: bool,
}

/// The names of a list, each with where it stands there, to be looked up. Contracts see what is looked up by [`places_of`].
pub struct Spellings {
    places: BTreeMap<String, Spelling>,
}

impl Drop for Spellings {
    fn drop(self) {
        let Spellings { places: _ } = self;
    }
}

// What is known of a name once it stands at a place more.
fn noted(before: Option<Spelling>, at: usize) -> Spelling
    ensures { Some result ≡ joined before (Some (spelling at false)) }
{
    match before {
        Some(before) => Spelling {
            first: before.first,
            is_repeated: true,
        },
        None => Spelling {
            first: at,
            is_repeated: false,
        },
    }
}

impl Spellings {
    // No names.
    fn new(alloc: Global) -> Spellings
        ensures { places_of result ≡ [] }
    {
        Spellings {
            places: BTreeMap::new(alloc),
        }
    }

    // Notes that a name stands at a place, behind the places of all that were noted.
    fn note(&mut self, alloc: Global, name: &str, at: usize) -> Result<(), AllocError>
        ensures { OnOk result ((n : List ℕ) → spelled_in (places_of self.new) n ≡ joined (spelled_in (places_of self.old) n) (spelled_if at (bytes_eq n name.now))) }
    {
        let spelling = noted(self.find(name), at);
        let key = String::from_str(alloc, name)?;
        self.places.insert(key, spelling)?;
        Ok(())
    }

    /// The names of a list. It takes expected time that is linear in them, and copies each name once.
    ///
    /// # Errors
    ///
    /// `AllocError` where memory is wanting.
    pub fn of(alloc: Global, names: &[&str]) -> Result<Spellings, AllocError>
        ensures { IfOk result (λ s. AreSpelled (places_of s) (map (λ n. n.now) names.now)) }
    {
        let mut spellings = Spellings::new(alloc);
        for (at, name) in names.iter().enumerate() {
            spellings.note(alloc, *name, at)?;
        }
        Ok(spellings)
    }

    /// Where a name stands in the list, and none where none is spelled so. It takes constant expected time and no memory.
    pub fn find(&self, name: &str) -> Option<Spelling>
        ensures { result ≡ spelled_in (places_of self.now) name.now }
    {
        self.places.get(name).copied()
    }
}
