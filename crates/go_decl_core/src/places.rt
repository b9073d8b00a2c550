//! The table of the places of a file: from numbers to offsets, and back.
ghost use Rattle.std.specs.Prelude.{◌≡◌, MatchOption, slice_get};
ghost use Rattle.go_decl_core.specs.Table.{IsAt, IsNowhere, Rise};

use std::marker::Model;

/// What is declared.
#[derive(Clone, Copy, Debug, PartialEq, Eq)]
pub enum DeclKind {
    Const,
    Var,
    Type,
    Func,
    /// A method of a type, or of an interface type.
    Method,
    /// A field of a struct type.
    Field,
    /// A receiver, a parameter or a result.
    Param,
}

/// An identifier that a file declares outside function bodies.
#[derive(Clone, Copy, Debug, PartialEq, Eq)]
pub struct Place {
    /// The offset in bytes of the identifier, from the file's start.
    pub at: usize,
    pub kind: DeclKind,
}

/// The identifiers that a file declares outside function bodies, in order of offset. An identifier's number is its place in
/// this list, from 0. Contracts see the list.
pub struct Places {
    pub(crate) places: Vec<Place>,
}

impl Drop for Places {
    fn drop(self) {
        let Places { places: _ } = self;
    }
}

impl Model for Places {
    ghost use Rattle.std.specs.Prelude.{List};
    ghost use Rattle.go_decl_core.specs.declared.places.Place.{Place as ThePlace};
    ghost use Rattle.go_decl_core.specs.Table.{Rise};

    ghost Value = { List ThePlace };

    ghost view = { λ t. t.places.items };

    ghost invariant = { λ t. Rise t.places.items };
}

impl Places {
    /// The identifiers, in order of offset.
    pub fn places(&self) -> &[Place]
        ensures value { result.now ≡ self.now }
        ensures rising { Rise self.now }
    {
        self.places.as_slice()
    }

    /// The identifier with a number, or none where the file has no such number.
    pub fn place(&self, number: usize) -> Option<Place>
        ensures { result ≡ slice_get self.now number }
    {
        self.places.get(number).copied()
    }

    /// The number of the identifier that stands at an offset in bytes from the file's start, or none where none of the
    /// list's identifiers stands there.
    pub fn number(&self, offset: usize) -> Option<usize>
        ensures { MatchOption result (IsNowhere self.now offset) (IsAt self.now offset) }
    {
        self.places
            .binary_search_by_key(&offset, |place| place.at)
            .ok()
    }
}
