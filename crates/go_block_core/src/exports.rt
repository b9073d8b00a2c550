//! What a package shows to those that import it.
ghost use Rattle.std.specs.Prelude.{◌≡◌, IfOk, map};
ghost use Rattle.go_block_core.specs.Exports.{name_and_decl};
ghost use Rattle.go_block_core.specs.Blocks.{exports_of};
ghost use Rattle.go_block_core.specs.Tables.{in_block};

use crate::block::Blocks;
use crate::name_order::{decl_of, order_of};
use go_decl_core::DeclRef;
use go_decl_core::path_core::ImportPath;
use go_graph_core::Package;
use go_tree_nodes::text_core::Name;
use std::alloc::{AllocError, Global};
use std::marker::Model;
use std::sync::Arc;

/// A name of a package block, and its declaration.
pub struct NamedDecl {
    pub name: Name,
    pub decl: DeclRef,
}

impl Drop for NamedDecl {
    fn drop(self) {
        let NamedDecl { name: _, decl: _ } = self;
    }
}

/// What a package shows.
#[derive(Drop)]
struct ExportsContent {
    path: ImportPath,
    name: Name,
    names: Vec<NamedDecl>,
    /// The places of the names, in order of spelling.
    order: Vec<usize>,
}

/// What a package shows to those that import it: its path, the name in its clauses, and the exported names of its
/// package block with their declarations. A handle over one shared pointer; contracts see the three.
pub struct Exports {
    content: Arc<ExportsContent>,
}

impl Drop for Exports {
    fn drop(self) {
        let Exports { content: _ } = self;
    }
}

impl Model for Exports {
    ghost use Rattle.std.specs.Prelude.{map};
    ghost use Rattle.std.specs.Arc.{arc_value};
    ghost use Rattle.go_block_core.specs.Exports.{ExportsModel, coded_exports, exports_model, name_and_decl};
    ghost use Rattle.go_block_core.specs.mirrors.Orders.{IsNameOrder};

    ghost Value = { ExportsModel };

    ghost coded = { coded_exports };

    ghost view = { λ e. exports_model (arc_value e.content).path (arc_value e.content).name (map name_and_decl (arc_value e.content).names.items) };

    ghost invariant = { λ e. IsNameOrder (map name_and_decl (arc_value e.content).names.items) (arc_value e.content).order.items };
}

impl Exports {
    /// What a package shows that has these blocks. An identifier is exported where it begins with an upper-case
    /// letter and is declared in the package block (the Go specification, "Exported identifiers").
    ///
    /// # Errors
    ///
    /// `AllocError` for want of memory.
    pub fn of(alloc: Global, package: &Package, blocks: &Blocks) -> Result<Exports, AllocError>
        ensures { IfOk result (λ exports. exports ≡ exports_of «package».now blocks.now) }
    {
        let path = package.path().share()?;
        let name = Name::from_text(alloc, package.name())?;
        let names = blocks.exported(alloc)?;
        let order = order_of(alloc, names.as_slice())?;
        let content = ExportsContent {
            path,
            name,
            names,
            order,
        };
        Ok(Exports {
            content: Arc::new(alloc, content)?,
        })
    }

    /// The same once more. It takes no memory.
    ///
    /// # Errors
    ///
    /// `AllocError` where it has too many owners.
    pub fn share(&self) -> Result<Exports, AllocError>
        ensures { IfOk result (λ exports. exports ≡ self.now) }
    {
        Ok(Exports {
            content: Arc::try_clone(&self.content)?,
        })
    }

    /// The path of the package.
    pub fn path(&self) -> &ImportPath
        ensures { result.now ≡ self.now.path }
    {
        &self.content.path
    }

    /// The name in the clauses of the package.
    pub fn name(&self) -> &Name
        ensures { result.now ≡ self.now.name }
    {
        &self.content.name
    }

    /// The exported names of the package block with their declarations, in order of file and number.
    pub fn names(&self) -> &[NamedDecl]
        ensures { map name_and_decl result.now ≡ self.now.names }
    {
        self.content.names.as_slice()
    }

    /// The declaration of an exported name, and of two the first. It takes no memory, and time by the logarithm of the number of names.
    pub fn decl(&self, name: &str) -> Option<DeclRef>
        ensures { result ≡ in_block self.now.names name.now }
    {
        decl_of(
            self.content.names.as_slice(),
            self.content.order.as_slice(),
            name,
        )
    }
}
