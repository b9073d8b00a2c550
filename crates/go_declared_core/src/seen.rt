//! The names of a package block as other packages see them.
ghost use Rattle.std.specs.Prelude.{◌≡◌, ◌↔◌, [], IfOk, IsTrue, OnOk, map, slice_get};
ghost use Rattle.std.specs.Option.{option_map};
ghost use Rattle.go_block_core.specs.Exports.{name_and_decl};
ghost use Rattle.go_block_core.specs.Tables.{has, in_block, with_first};
ghost use Rattle.go_declared_core.specs.Packages.{as_seen, names_seen};

use go_block_core::{DeclRef, NamedDecl};
use go_collections_core::name_table::NameTable;
use go_collections_core::text_core::is_exported;
use std::alloc::{AllocError, Global};
use std::marker::Model;

/// The names of a package block as other packages see them, each once and with its declaration where it is exported. Contracts see the list of
/// both.
pub(crate) struct SeenNames {
    names: NameTable<Option<DeclRef>>,
}

impl Drop for SeenNames {
    fn drop(self) {
        let SeenNames { names: _ } = self;
    }
}

impl Model for SeenNames {
    ghost use Rattle.std.specs.Prelude.{ℕ, List, Option};
    ghost use Rattle.go_term_core.specs.decl_core.declared.keys.DeclRef.{DeclRef as TheDeclRef};
    ghost use Rattle.go_declared_core.specs.codes.FaceCodes.{coded_names};

    ghost Value = { List (List ℕ × Option TheDeclRef) };

    ghost coded = { coded_names };

    ghost view = { λ s. s.names.names };
}

// A name as other packages see it: with its declaration where it is exported.
fn as_seen(named: &NamedDecl) -> Option<DeclRef>
    ensures { result ≡ as_seen named.now.name named.now.decl }
{
    if is_exported(named.name.as_str()) {
        Some(named.decl)
    } else {
        None
    }
}

impl SeenNames {
    // No names.
    fn new(alloc: Global) -> SeenNames
        ensures { result ≡ [] }
    {
        SeenNames {
            names: NameTable::new(alloc),
        }
    }

    // Whether a name is there.
    fn has(&self, name: &str) -> bool
        ensures { result ≡ has self.now name.now }
    {
        self.names.find(name).is_some()
    }

    // Adds a name, unless it is there.
    fn add(&mut self, alloc: Global, named: &NamedDecl) -> Result<(), AllocError>
        ensures { OnOk result (self.new ≡ with_first self.old named.now.name (as_seen named.now.name named.now.decl)) }
    {
        let name = named.name.as_str();
        if self.has(name) {
            return Ok(());
        }
        self.names.add(alloc, name, as_seen(named))?;
        Ok(())
    }

    /// The names of a package block. The time that it takes is linear in them, but for look-ups.
    ///
    /// # Errors
    ///
    /// `AllocError` where memory is wanting.
    pub(crate) fn of(alloc: Global, block: Vec<NamedDecl>) -> Result<SeenNames, AllocError>
        ensures { IfOk result (λ names. names ≡ names_seen (map name_and_decl block.items)) }
    {
        let mut names = SeenNames::new(alloc);
        for named in block {
            names.add(alloc, &named)?;
        }
        Ok(names)
    }

    /// What a name is seen as, where it is there.
    pub(crate) fn find(&self, name: &str) -> Option<Option<DeclRef>>
        ensures { result ≡ in_block self.now name.now }
    {
        self.names.find(name).copied()
    }

    // The name at a place with what it is seen as, and none past the end.
    fn name_at(&self, place: usize) -> Option<(&str, Option<DeclRef>)>
        ensures { option_map (λ e. (e.0.now, e.1)) result ≡ slice_get self.now place }
    {
        match self.names.entries().get(place) {
            Some((name, decl)) => Some((name.as_str(), *decl)),
            None => None,
        }
    }

    // Whether others have the same at a place.
    fn is_same_at(&self, other: &SeenNames, place: usize) -> bool
        ensures { IsTrue result ↔ (slice_get self.now place ≡ slice_get other.now place) }
    {
        match (self.name_at(place), other.name_at(place)) {
            (Some((name, decl)), Some((other, declared))) => name == other && decl == declared,
            (None, None) => true,
            (Some(_), None) | (None, Some(_)) => false,
        }
    }

    /// Whether others have the same names in the same order.
    pub(crate) fn is_same(&self, other: &SeenNames) -> bool
        ensures { IsTrue result ↔ (self.now ≡ other.now) }
    {
        if self.names.len() != other.names.len() {
            return false;
        }
        for place in 0..self.names.len() {
            if !self.is_same_at(other, place) {
                return false;
            }
        }
        true
    }
}
