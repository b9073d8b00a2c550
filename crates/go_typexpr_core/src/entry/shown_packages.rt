//! What packages show to those that import them, by their paths.
ghost use Rattle.std.specs.Prelude.{◌≡◌, [], OnOk, OnErr};
ghost use Rattle.go_typexpr_core.specs.entry.Showing.{shown_in, with_shown};
ghost use Rattle.go_typexpr_core.specs.entry.mirrors.Indexing.{number_of};

use crate::entry::file_names::ImportedNames;
use go_graph_core::collections_core::NameTable;
use go_path_core::ImportPath;
use go_path_core::text_core::is_exported;
use go_scope_core::block_core::{DeclKey, DeclRef, Exports};
use go_term_core::TypeTerm;
use std::alloc::{AllocError, Global};
use std::marker::Model;

/// What packages show, by their paths. For each package it holds one handle of what the package shows, and copies no name. Contracts see what
/// the packages show, in the order in which their paths were added first.
pub struct ShownPackages {
    packages: Vec<Exports>,
    /// The number of the package of each path.
    numbers: NameTable<usize>,
}

impl Drop for ShownPackages {
    fn drop(self) {
        let ShownPackages {
            packages: _,
            numbers: _,
        } = self;
    }
}

impl Model for ShownPackages {
    ghost use Rattle.std.specs.Prelude.{List};
    ghost use Rattle.std.specs.Coded.{coded_list};
    ghost use Rattle.go_scope_core.specs.block_core.Exports.{ExportsModel, coded_exports};
    ghost use Rattle.go_typexpr_core.specs.entry.mirrors.Indexing.{AreNumbered};

    ghost Value = { List ExportsModel };

    ghost coded = { coded_list coded_exports };

    ghost view = { λ s. s.packages.items };

    ghost invariant = { λ s. AreNumbered s.numbers.names s.packages.items };
}

impl ShownPackages {
    /// No packages.
    pub fn new(alloc: Global) -> ShownPackages
        ensures { result ≡ [] }
    {
        ShownPackages {
            packages: Vec::new(alloc),
            numbers: NameTable::new(alloc),
        }
    }

    // The number of the package of a path.
    fn number(&self, path: &ImportPath) -> Option<usize>
        ensures { result ≡ number_of self.now path.now }
    {
        self.numbers.find(path.as_str()).copied()
    }

    /// Adds what a package shows, behind the other packages or in place of what was there under the package's path. The time that it takes does not
    /// depend on how many names the package shows.
    ///
    /// # Errors
    ///
    /// `AllocError` where memory is wanting; what is shown is then as it was.
    pub fn add(&mut self, exports: Exports) -> Result<(), AllocError>
        ensures ok { OnOk result (self.new ≡ with_shown self.old exports) }
        ensures err { OnErr result (self.new ≡ self.old) }
    {
        let alloc = *self.packages.allocator();
        if let Some(number) = self.number(exports.path()) {
            self.packages[number] = exports;
            return Ok(());
        }
        self.packages.reserve(1)?;
        let number = self.packages.len();
        self.numbers.add(alloc, exports.path().as_str(), number)?;
        self.packages.push(exports)?;
        Ok(())
    }
}

impl ImportedNames for ShownPackages {
    ghost use Rattle.go_typexpr_core.specs.entry.Meanings.{declared_alone};
    ghost use Rattle.go_typexpr_core.specs.entry.Showing.{shown_in};

    ghost shows = { λ s. declared_alone (shown_in s) };

    /// The declaration of a name that the package of a path shows: an exported one. It takes no memory.
    fn shown(&self, path: &ImportPath, name: &str) -> Option<DeclRef> {
        if !is_exported(name) {
            return None;
        }
        match self.number(path) {
            Some(number) => self.packages[number].decl(name),
            None => None,
        }
    }

    /// The type of the declaration itself, also where it is an alias.
    fn target(&self, _alloc: Global, key: &DeclKey) -> Result<TypeTerm, AllocError> {
        Ok(TypeTerm::Defined(key.share()?))
    }
}
