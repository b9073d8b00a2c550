//! Summaries.
ghost use Rattle.std.specs.Prelude.{◌≡◌, ◌↔◌, IfOk, IsTrue};
ghost use Rattle.go_declared_core.specs.graph_core.Workspaces.{names_of_files};
ghost use Rattle.go_declared_core.specs.block_core.declared.imports.Imported.TheVariants as imported;
ghost use Rattle.go_summary_core.specs.Summaries.{IsOfOne, path_of, summary_of};

use crate::alike::{same_exports, same_faces, same_names, same_types};
use go_declared_core::PackageFaces;
use go_declared_core::block_core::{Blocks, Exports, Imported};
use go_declared_core::graph_core::{Package, SourceFile};
use go_table_core::PackageTypes;
use go_table_core::path_core::ImportPath;
use go_term_core::text_core::{Name, add};
use std::alloc::{AllocError, Global};
use std::marker::Model;
use std::sync::Arc;

/// What is shared of a summary.
#[derive(Drop)]
struct SummaryContent {
    exports: Exports,
    types: PackageTypes,
    faces: PackageFaces,
    files: Vec<Name>,
}

/// What a package tells those that reach it by imports: its path, the name in its clauses, its exported names with their declarations and
/// faces, every other name of its package block only spelled, all types that it declares with their members, and the names of its files. A
/// handle over one shared pointer. It holds keys and no offset, so that an edit of a body leaves it the same.
///
/// The Go specification, "Exported identifiers", "Import declarations".
pub struct Summary {
    content: Arc<SummaryContent>,
}

impl Drop for Summary {
    fn drop(self) {
        let Summary { content: _ } = self;
    }
}

impl Model for Summary {
    ghost use Rattle.std.specs.Arc.{arc_value};
    ghost use Rattle.go_summary_core.specs.Summaries.{IsOfOne, SummaryModel, summary_with};
    ghost use Rattle.go_summary_core.specs.codes.SummaryCodes.{coded_summary};

    ghost Value = { SummaryModel };

    ghost coded = { coded_summary };

    ghost view = { λ s. summary_with (arc_value s.content).exports (arc_value s.content).types (arc_value s.content).faces (arc_value s.content).files.items };

    ghost invariant = { λ s. IsOfOne (summary_with (arc_value s.content).exports (arc_value s.content).types (arc_value s.content).faces (arc_value s.content).files.items) };
}

/// The names of files, in order.
fn names_of(alloc: Global, files: &[SourceFile]) -> Result<Vec<Name>, AllocError>
    ensures { IfOk result (λ names. names.items ≡ names_of_files files.now) }
{
    let mut names = Vec::with_capacity(alloc, files.len())?;
    for file in files {
        let name = Name::from_text(alloc, file.name())?;
        add(&mut names, name)?;
    }
    Ok(names)
}

/// What a package tells that has these blocks, types and faces. Types and faces are shared with whoever has them besides. The time that it takes
/// is linear in the names of the package block and in the files.
///
/// # Errors
///
/// `AllocError` where memory is wanting.
pub fn summarize(
    alloc: Global,
    package: &Package,
    blocks: &Blocks,
    types: PackageTypes,
    faces: PackageFaces,
) -> Result<Summary, AllocError>
    requires types { types.path ≡ «package».now.0 }
    requires faces { faces.path ≡ «package».now.0 }
    ensures { IfOk result (λ s. s ≡ summary_of «package».now blocks.now types faces) }
{
    // The types of a package are its own.
    let _entries = types.types();
    let exports = Exports::of(alloc, package, blocks)?;
    let files = names_of(alloc, package.files())?;
    let content = SummaryContent {
        exports,
        types,
        faces,
        files,
    };
    Ok(Summary {
        content: Arc::new(alloc, content)?,
    })
}

impl Summary {
    /// The same summary once more. It takes no memory.
    ///
    /// # Errors
    ///
    /// `AllocError` where it has too many owners.
    pub fn share(&self) -> Result<Summary, AllocError>
        ensures { IfOk result (λ s. s ≡ self.now) }
    {
        Ok(Summary {
            content: Arc::try_clone(&self.content)?,
        })
    }

    /// The path of the package. All of the summary is of this package.
    pub fn path(&self) -> &ImportPath
        ensures value { result.now ≡ path_of self.now }
        ensures own { IsOfOne self.now }
    {
        self.content.exports.path()
    }

    /// The path of the package, the name in its clauses, and its exported names with their declarations.
    pub fn exports(&self) -> &Exports
        ensures { result.now ≡ self.now.exports }
    {
        &self.content.exports
    }

    /// All types that the package declares, with their methods.
    pub fn types(&self) -> &PackageTypes
        ensures { result.now ≡ self.now.types }
    {
        &self.content.types
    }

    /// The names of the package block as others see them, and what the exported declarations are.
    pub fn faces(&self) -> &PackageFaces
        ensures { result.now ≡ self.now.faces }
    {
        &self.content.faces
    }

    /// The names of the package's files, in byte order.
    pub fn files(&self) -> &[Name]
        ensures { result.now ≡ self.now.files }
    {
        self.content.files.as_slice()
    }

    /// Whether two summaries tell the same. It takes no memory; the time that it takes is linear in the one and in the other.
    pub fn is_same(&self, other: &Summary) -> bool
        ensures { IsTrue result ↔ (self.now ≡ other.now) }
    {
        same_exports(self.exports(), other.exports())
            && same_names(self.files(), other.files())
            && same_types(self.types(), other.types())
            && same_faces(self.faces(), other.faces())
    }
}

/// What an import comes to that no rule refuses: what the package exports that it names. It takes no memory.
///
/// # Errors
///
/// `AllocError` where what the package exports has too many owners.
///
/// The Go specification, "Import declarations".
pub fn import_view(summary: &Summary) -> Result<Imported, AllocError>
    ensures { IfOk result (λ i. i ≡ imported.«Package» summary.now.exports) }
{
    Ok(Imported::Package(summary.exports().share()?))
}
