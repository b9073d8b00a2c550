//! The blocks of a package.
ghost use Rattle.std.specs.Prelude.{◌≡◌, IfOk, map, option_copied};
ghost use Rattle.go_block_core.specs.Exports.{name_and_decl, exported_names};
ghost use Rattle.go_block_core.specs.Tables.{in_block, names_in};
ghost use Rattle.go_block_core.specs.Blocks.{file_binding, file_has, held_in};

use crate::binding::Binding;
use crate::exports::NamedDecl;
use crate::fault::BlockFault;
use crate::package_block::{exported_of, names_of};
use crate::table::{has, names_in, names_without};
use go_decl_core::DeclRef;
use go_graph_core::collections_core::NameTable;
use std::alloc::{AllocError, Global};
use std::marker::Model;

/// The package block and the file blocks of a package, and the faults in them. Contracts see it as these three.
pub struct Blocks {
    pub(crate) package: NameTable<DeclRef>,
    pub(crate) files: Vec<NameTable<Binding>>,
    pub(crate) faults: Vec<BlockFault>,
}

impl Drop for Blocks {
    fn drop(self) {
        let Blocks {
            package: _,
            files: _,
            faults: _,
        } = self;
    }
}

impl Model for Blocks {
    ghost use Rattle.std.specs.Prelude.{map};
    ghost use Rattle.go_block_core.specs.Tables.{block_of};
    ghost use Rattle.go_block_core.specs.Blocks.{BlocksModel, coded_blocks, blocks_model};

    ghost Value = { BlocksModel };

    ghost coded = { coded_blocks };

    ghost view = { λ b. blocks_model (block_of b.package) (map block_of b.files.items) b.faults.items };
}

impl Blocks {
    /// The declaration of a name in the package block.
    pub fn package(&self, name: &str) -> Option<DeclRef>
        ensures { result ≡ in_block self.now.names name.now }
    {
        self.package.find(name).copied()
    }

    /// The names of the package block with their declarations, in order of file and number.
    ///
    /// # Errors
    ///
    /// `AllocError` for want of memory.
    pub fn names(&self, alloc: Global) -> Result<Vec<NamedDecl>, AllocError>
        ensures { IfOk result (λ names. map name_and_decl names.items ≡ self.now.names) }
    {
        names_of(alloc, &self.package)
    }

    /// The exported names of the package block with their declarations, in order of file and number.
    ///
    /// # Errors
    ///
    /// `AllocError` for want of memory.
    pub(crate) fn exported(&self, alloc: Global) -> Result<Vec<NamedDecl>, AllocError>
        ensures { IfOk result (λ names. map name_and_decl names.items ≡ exported_names self.now.names) }
    {
        exported_of(alloc, &self.package)
    }

    /// The names of the package block, in order of file and number.
    ///
    /// # Errors
    ///
    /// `AllocError` for want of memory.
    pub fn package_names(&self, alloc: Global) -> Result<Vec<&str>, AllocError>
        ensures { IfOk result (λ names. map (λ n. n.now) names.items ≡ names_in self.now.names) }
    {
        names_in(alloc, &self.package)
    }

    /// The binding of a name in the block of a file, by the file's number. A name of the package block has none.
    pub fn file(&self, file: usize, name: &str) -> Option<&Binding>
        ensures { option_copied result ≡ file_binding self.now file name.now }
    {
        if has(&self.package, name) {
            return None;
        }
        self.in_file(file, name)
    }

    /// What the block of a file has at a name, by the file's number, whatever the package block has.
    pub fn in_file(&self, file: usize, name: &str) -> Option<&Binding>
        ensures { option_copied result ≡ file_has self.now file name.now }
    {
        match self.files.get(file) {
            Some(table) => table.find(name),
            None => None,
        }
    }

    /// The names that hold in the block of a file, by the file's number, in order of the places of their imports:
    /// those that the package block has not. A number that no file has has none.
    ///
    /// # Errors
    ///
    /// `AllocError` for want of memory.
    pub fn file_names(&self, alloc: Global, file: usize) -> Result<Vec<&str>, AllocError>
        ensures { IfOk result (λ names. map (λ n. n.now) names.items ≡ names_in (held_in self.now file)) }
    {
        match self.files.get(file) {
            Some(table) => names_without(alloc, table, &self.package),
            None => Ok(Vec::new(alloc)),
        }
    }

    /// The faults, in order of file, offset and rule. A place has each rule at most once.
    pub fn faults(&self) -> &[BlockFault]
        ensures { result.now ≡ self.now.faults }
    {
        self.faults.as_slice()
    }
}
