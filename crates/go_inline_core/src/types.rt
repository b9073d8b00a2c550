//! Types by the offsets where they are written.
ghost use Rattle.std.specs.Prelude.{◌≡◌, ℕ, nat_eq, IfOk};
ghost use Rattle.std.specs.Map.{lookup};
ghost use Rattle.std.specs.Option.{option_map};
ghost use Rattle.go_inline_core.specs.Types.{inline_at, inline_shown};
ghost use Rattle.go_inline_core.specs.mirrors.Places.{place_at};

use go_names_core::local_core::Fault;
use go_term_core::TypeTerm;
use std::alloc::{AllocError, Global};
use std::collections::HashMap;
use std::marker::Model;

/// A type that is written inside a function or in an initialiser.
pub struct InlineType {
    /// The type, settled: `TypeTerm::NoType` where it is none.
    pub term: TypeTerm,
    /// The faults of its fields, its methods and their parameters, in the order in which they are written, each kind together.
    pub faults: Vec<Fault>,
}

impl Drop for InlineType {
    fn drop(self) {
        let InlineType { term: _, faults: _ } = self;
    }
}

/// A type with the offset in bytes of its first byte, from the file's start. Contracts see both.
#[derive(Drop)]
pub struct Note {
    offset: usize,
    inline: InlineType,
}

impl Model for Note {
    ghost use Rattle.std.specs.Prelude.{ℕ};
    ghost use Rattle.go_inline_core.specs.Types.{InlineOf, inline_shown};
    ghost use Rattle.go_inline_core.specs.codes.InlineCodes.{coded_note};

    ghost Value = { ℕ × InlineOf };

    ghost coded = { coded_note };

    ghost view = { λ n. (n.offset, inline_shown n.inline) };
}

impl Note {
    pub(crate) fn new(offset: usize, inline: InlineType) -> Note
        ensures { result ≡ (offset, inline_shown inline) }
    {
        Note { offset, inline }
    }

    // The offset in bytes of its first byte.
    fn offset(&self) -> usize
        ensures { result ≡ self.now.0 }
    {
        self.offset
    }

    // The type.
    fn inline(&self) -> &InlineType
        ensures { inline_shown result.now ≡ self.now.1 }
    {
        &self.inline
    }
}

/// Types by the offsets in bytes of their first bytes, from the file's start. Contracts see a list of both.
pub struct InlineTypes {
    notes: Vec<Note>,
    /// The place of the first note of each offset.
    places: HashMap<usize, usize>,
}

impl Drop for InlineTypes {
    fn drop(self) {
        let InlineTypes {
            notes: _,
            places: _,
        } = self;
    }
}

impl Model for InlineTypes {
    ghost use Rattle.std.specs.Prelude.{◌≡◌, ℕ, List, nat_eq};
    ghost use Rattle.std.specs.Map.{lookup};
    ghost use Rattle.go_inline_core.specs.Types.{InlineOf};
    ghost use Rattle.go_inline_core.specs.codes.InlineCodes.{coded_inlines};
    ghost use Rattle.go_inline_core.specs.mirrors.Places.{place_at};

    ghost Value = { List (ℕ × InlineOf) };

    ghost coded = { coded_inlines };

    ghost view = { λ t. t.notes.items };

    ghost invariant = { λ t. (at : ℕ) → lookup (nat_eq at) t.places.entries ≡ place_at t.notes.items at };
}

// The place of the first of some types at each offset.
fn places_of(alloc: Global, notes: &[Note]) -> Result<HashMap<usize, usize>, AllocError>
    ensures { IfOk result (λ places. (at : ℕ) → lookup (nat_eq at) places.entries ≡ place_at notes.now at) }
{
    let mut places = HashMap::new(alloc);
    // The first of several at one offset is put in last, and stays.
    for place in (0..notes.len()).rev() {
        places.insert(notes[place].offset(), place)?;
    }
    Ok(places)
}

impl InlineTypes {
    /// Those of some types: of two at one offset the first counts.
    ///
    /// # Errors
    ///
    /// `AllocError` where memory is wanting.
    pub(crate) fn of(alloc: Global, notes: Vec<Note>) -> Result<InlineTypes, AllocError>
        ensures { IfOk result (λ types. types ≡ notes.items) }
    {
        let places = places_of(alloc, &notes)?;
        Ok(InlineTypes { notes, places })
    }

    // The place of the first type at an offset.
    fn place(&self, offset: usize) -> Option<usize>
        ensures { result ≡ place_at self.now offset }
    {
        self.places.get(&offset).copied()
    }

    /// The type whose first byte is at an offset in bytes from the file's start, if one is written there.
    pub fn at(&self, offset: usize) -> Option<&InlineType>
        ensures { option_map (λ t. inline_shown t.now) result ≡ inline_at self.now offset }
    {
        match self.place(offset) {
            Some(place) => Some(self.notes[place].inline()),
            None => None,
        }
    }
}
