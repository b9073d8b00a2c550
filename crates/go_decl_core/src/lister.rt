//! The list of places that a walk over a file makes.
ghost use Rattle.std.specs.Prelude.{◌≡◌, [], ◌∷◌, IsOk};
ghost use Rattle.go_tree_nodes.specs.TypeShapes.{shape_idents, shape_names};
ghost use Rattle.go_decl_core.specs.Outer.{outer, Part, idents_outers, names_outers};
ghost use Rattle.go_decl_core.specs.mirrors.Listing.{Adds};

use crate::places::{DeclKind, Place};
use go_tree_nodes::{Ident, Idents};
use std::alloc::{AllocError, Global};

/// The places that have been listed.
#[derive(Drop)]
pub(crate) struct Lister {
    pub(crate) places: Vec<Place>,
    /// Whether there was memory for each of them. Where there was none, those behind are left out.
    pub(crate) outcome: Result<(), AllocError>,
}

impl Lister {
    /// No place.
    pub(crate) fn new(alloc: Global) -> Lister
        ensures places { result.places.items ≡ [] }
        ensures outcome { IsOk result.outcome }
    {
        Lister {
            places: Vec::new(alloc),
            outcome: Ok(()),
        }
    }

    /// Adds an identifier.
    pub(crate) fn add(&mut self, kind: DeclKind, ident: &Ident)
        ensures { Adds self.old (outer kind Part ident.now ∷ []) self.new }
    {
        let place = Place {
            at: ident.span.start as usize,
            kind,
        };
        if self.outcome.is_ok() && self.places.push(place).is_err() {
            self.outcome = Err(AllocError);
        }
    }

    /// Adds identifiers.
    pub(crate) fn add_idents(&mut self, kind: DeclKind, idents: &Idents)
        ensures { Adds self.old (idents_outers kind Part (shape_idents idents.now)) self.new }
    {
        self.add(kind, &idents.first);
        for next in &idents.more {
            self.add(kind, &next.ident);
        }
    }

    /// Adds the names of an entry of a parameter list, where it has any.
    pub(crate) fn add_names(&mut self, names: &Option<Idents>)
        ensures { Adds self.old (names_outers (shape_names names.now)) self.new }
    {
        match names {
            None => {}
            Some(names) => self.add_idents(DeclKind::Param, names),
        }
    }
}
