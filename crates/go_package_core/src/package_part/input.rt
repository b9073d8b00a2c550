//! What a package's part is made from.
ghost use Rattle.std.specs.Prelude.{◌≡◌, ◌↔◌, IfOk, IsTrue, map};
ghost use Rattle.go_block_core.specs.graph_core.Packages.{trees_of};
ghost use Rattle.go_block_core.specs.graph_core.Workspaces.{AreAllRead};
ghost use Rattle.go_block_core.specs.Naming.{HaveOneEach, imported_in};
ghost use Rattle.go_package_core.specs.package_part.Inputs.{AreOfOthers, IsInput, input_with, path_in};

use crate::package_part::same::same_imports;
use crate::package_part::shared::shared_imports;
use go_block_core::Imported;
use go_block_core::graph_core::Package;
use go_path_core::ImportPath;
use go_report_core::summary_core::ReachedSummaries;
use std::alloc::{AllocError, Global};
use std::marker::Model;
use std::sync::Arc;

// What is shared of an input.
#[derive(Drop)]
struct InputContent {
    source: Package,
    imports: Vec<Vec<Imported>>,
    reached: ReachedSummaries,
}

/// What the part of a package is made from: its files, what their imports come to, and what the packages tell that it reaches. A handle over one
/// shared pointer; trees and summaries are shared with the workspace and with other inputs. Contracts see the three.
///
/// The Go specification, "Import declarations".
pub struct PartInput {
    content: Arc<InputContent>,
}

impl Drop for PartInput {
    fn drop(self) {
        let PartInput { content: _ } = self;
    }
}

impl Model for PartInput {
    ghost use Rattle.std.specs.Prelude.{map};
    ghost use Rattle.std.specs.Arc.{arc_value};
    ghost use Rattle.go_block_core.specs.Naming.{imported_in};
    ghost use Rattle.go_package_core.specs.package_part.Inputs.{InputModel, IsInput, coded_input, input_with};

    ghost Value = { InputModel };

    ghost coded = { coded_input };

    ghost view = { λ i. input_with (arc_value i.content).source (map imported_in (arc_value i.content).imports.items) (arc_value i.content).reached };

    ghost invariant = { λ i. IsInput (input_with (arc_value i.content).source (map imported_in (arc_value i.content).imports.items) (arc_value i.content).reached) };
}

impl PartInput {
    /// The input of a package. `imports` has for each file, in order of name, what its imports come to, in order of place; `reached` what the
    /// packages tell that passing imports lead to, in any number of steps, each once.
    ///
    /// # Errors
    ///
    /// `AllocError` where memory is wanting.
    pub fn new(
        alloc: Global,
        source: Package,
        imports: Vec<Vec<Imported>>,
        reached: ReachedSummaries,
    ) -> Result<PartInput, AllocError>
        requires imports { HaveOneEach (trees_of source.1) (map imported_in imports.items) }
        requires reached { AreOfOthers source.0 reached }
        ensures { IfOk result (λ i. i ≡ input_with source (map imported_in imports.items) reached) }
    {
        // All of each summary is of one package.
        let _count = reached.len();
        let content = InputContent {
            source,
            imports,
            reached,
        };
        Ok(PartInput {
            content: Arc::new(alloc, content)?,
        })
    }

    /// The same input once more. It takes no memory.
    ///
    /// # Errors
    ///
    /// `AllocError` where it has too many owners.
    pub fn share(&self) -> Result<PartInput, AllocError>
        ensures { IfOk result (λ i. i ≡ self.now) }
    {
        Ok(PartInput {
            content: Arc::try_clone(&self.content)?,
        })
    }

    /// The input of another package of the same path, each file of which has as many imports as the file of this one in its place: what imports come
    /// to and what is reached are as here, and shared. So what is made of a package with other trees is made over what this one sees.
    ///
    /// # Errors
    ///
    /// `AllocError` where memory is wanting.
    pub fn with_package(&self, alloc: Global, source: Package) -> Result<PartInput, AllocError>
        requires path { source.0 ≡ path_in self.now }
        requires imports { HaveOneEach (trees_of source.1) self.now.imports }
        ensures { IfOk result (λ i. i ≡ input_with source self.now.imports self.now.reached) }
    {
        let imports = shared_imports(alloc, self.imports())?;
        let reached = self.reached().share(alloc)?;
        let input = PartInput::new(alloc, source, imports, reached)?;
        Ok(input)
    }

    /// The input of the same package where other packages tell something else: what its imports come to is as here, and shared.
    ///
    /// # Errors
    ///
    /// `AllocError` where memory is wanting.
    pub fn with_reached(
        &self,
        alloc: Global,
        reached: ReachedSummaries,
    ) -> Result<PartInput, AllocError>
        requires { AreOfOthers (path_in self.now) reached }
        ensures { IfOk result (λ i. i ≡ input_with self.now.source self.now.imports reached) }
    {
        let imports = shared_imports(alloc, self.imports())?;
        let source = self.package().share()?;
        let input = PartInput::new(alloc, source, imports, reached)?;
        Ok(input)
    }

    /// The path of the package.
    pub fn path(&self) -> &ImportPath
        ensures { result.now ≡ path_in self.now }
    {
        self.content.source.path()
    }

    /// The package: its files with their trees.
    pub fn package(&self) -> &Package
        ensures { result.now ≡ self.now.source }
    {
        &self.content.source
    }

    /// What the imports of each file come to: the files in order of name, the imports of each in order of place.
    pub fn imports(&self) -> &[Vec<Imported>]
        ensures value { map imported_in result.now ≡ self.now.imports }
        ensures well { IsInput self.now }
    {
        self.content.imports.as_slice()
    }

    /// What the packages tell that the package reaches by passing imports, each once.
    pub fn reached(&self) -> &ReachedSummaries
        ensures value { result.now ≡ self.now.reached }
        ensures well { IsInput self.now }
    {
        &self.content.reached
    }

    /// Whether two inputs, each file of which has the content that its text has, are the same: packages, what imports come to, and what the packages
    /// tell that are reached, in order. A text has one tree at most, so of files names, texts and faults are compared. It takes no memory; the time
    /// that it takes is linear in the one and in the other.
    pub fn is_same(&self, other: &PartInput) -> bool
        requires own { AreAllRead self.now.source }
        requires other { AreAllRead other.now.source }
        ensures { IsTrue result ↔ (self.now ≡ other.now) }
    {
        same_imports(self.imports(), other.imports())
            && self.package().source().is_same(other.package().source())
            && self.reached().is_same(other.reached())
    }
}
