//! Packages that are assembled from files.
ghost use Rattle.std.specs.Prelude.{◌≡◌, ◌<◌, length, option_map, slice_get, Some, IfOk};
ghost use Rattle.go_tree_nodes.specs.Shapes.{file_of};
ghost use Rattle.go_graph_core.specs.mirrors.Clauses.{clause_has_name};
ghost use Rattle.go_graph_core.specs.mirrors.Flaws.{has_flaw, IsFirstFault, IsFlaw};
ghost use Rattle.go_graph_core.specs.Packages.{IsAssembly, IsPackageName, IsAssembled, IsNameOf, IsTreeAt, trees_of, tree_shown, assembly_shown};
ghost use Rattle.go_graph_core.specs.Workspaces.{IsPackage};
ghost use Rattle.go_tree_nodes.specs.Spelling.{IsPlaced};

use crate::source::SourceFile;
use crate::workspace::PackageSource;
use go_collections_core::text_core::Rule;
use go_path_core::ImportPath;
use go_tree_nodes::{File, Ident};
use std::alloc::AllocError;
use std::marker::Model;

/// Why files are no package.
#[derive(Clone, Copy, Debug, PartialEq, Eq)]
pub struct KFault {
    /// K4 where a file has no tree, K3 where the name in a package clause is `_`, and K2 where it differs from
    /// the first file's.
    pub rule: Rule,
    /// The number of the file in order of name, from 0.
    pub file: usize,
    /// The offset in bytes of the clause's name, and 0 at K4.
    pub offset: usize,
}

/// A package: files with trees, and one name in all their package clauses. It is a handle, as its source is. Contracts see it as
/// its source, the path and the files in order of name.
pub struct Package {
    source: PackageSource,
}

impl Drop for Package {
    fn drop(self) {
        let Package { source: _ } = self;
    }
}

impl Model for Package {
    ghost use Rattle.go_graph_core.specs.Packages.{IsAssembled};
    ghost use Rattle.go_graph_core.specs.Workspaces.{PackageModel, coded_package};

    ghost Value = { PackageModel };

    ghost coded = { coded_package };

    ghost view = { λ p. p.source };

    ghost invariant = { λ p. IsAssembled p.source.1 };
}

impl Package {
    /// The same package, once more. It takes no memory.
    ///
    /// # Errors
    ///
    /// `AllocError` where the package has too many owners.
    pub fn share(&self) -> Result<Package, AllocError>
        ensures { IfOk result (λ p. p ≡ self.now) }
    {
        Ok(Package {
            source: self.source.share()?,
        })
    }

    /// The name of the package, which stands in each of its clauses.
    pub fn name(&self) -> &str
        ensures { IsPackageName (trees_of self.now.1) result.now }
    {
        clause_name(self.source.files())
    }

    /// The path of the package.
    pub fn path(&self) -> &ImportPath
        ensures { result.now ≡ self.now.0 }
    {
        self.source.path()
    }

    /// The files of the package, at least one, in byte order of name.
    pub fn files(&self) -> &[SourceFile]
        ensures files { result.now ≡ self.now.1 }
        ensures assembled { IsAssembled self.now.1 }
        ensures well { IsPackage self.now }
    {
        self.source.files()
    }

    /// The tree of the file of this number, from 0 in byte order of name. Its tokens follow one another.
    pub fn tree(&self, file: usize) -> &File
        requires { file < length self.now.1 }
        ensures tree { option_map tree_shown (slice_get (trees_of self.now.1) file) ≡ Some (file_of result.now) }
        ensures content { IsTreeAt self.now.1 file (file_of result.now) }
        ensures placed { IsPlaced (file_of result.now) }
    {
        let files = self.source.files();
        match files[file].tree() {
            Ok(tree) => tree,
            // Each file of an assembled package has a tree.
            Err(_) => unreachable!(),
        }
    }

    /// The path and the files of the package.
    pub fn source(&self) -> &PackageSource
        ensures { result.now ≡ self.now }
    {
        &self.source
    }
}

/// The name in the clauses of files that are assembled.
pub(crate) fn clause_name(files: &[SourceFile]) -> &str
    requires { IsAssembled files.now }
    ensures { IsNameOf result.now files.now }
{
    match files[0].clause() {
        Some(clause) => clause.name.as_str(),
        None => unreachable!(),
    }
}

/// What may be wrong with the package clause of a file.
#[derive(Clone, Copy)]
enum ClauseFlaw<'a> {
    /// There is none, since the file has no tree.
    Missing,
    /// Its name is this one.
    Named(&'a str),
    /// Its name is another than this.
    NotNamed(&'a str),
}

/// Whether a package clause has a flaw.
fn has_flaw(clause: Option<&Ident>, flaw: ClauseFlaw<'_>) -> bool
    ensures { result ≡ has_flaw flaw.entry (option_map (λ id. id.now) clause.entry) }
{
    match flaw {
        ClauseFlaw::Missing => clause.is_none(),
        ClauseFlaw::Named(name) => is_named(clause, name),
        ClauseFlaw::NotNamed(name) => !is_named(clause, name),
    }
}

/// Whether there is a package clause, of this name.
fn is_named(clause: Option<&Ident>, name: &str) -> bool
    ensures { result ≡ clause_has_name name.now (option_map (λ id. id.now) clause.entry) }
{
    match clause {
        Some(clause) => clause.name.as_str() == name,
        None => false,
    }
}

/// The first file whose package clause has a flaw, as a fault by a rule.
fn first_fault(files: &[SourceFile], flaw: ClauseFlaw<'_>, rule: Rule) -> Option<KFault>
    ensures { IsFirstFault files.now flaw.entry rule result }
{
    for (file, source) in files.iter().enumerate() {
        let clause = source.clause();
        if has_flaw(clause, flaw) {
            let offset = match clause {
                Some(name) => name.span.start as usize,
                None => 0,
            };
            return Some(KFault { rule, file, offset });
        }
    }
    None
}

/// Why files are no package, if they are none.
pub(crate) fn assembly_fault(files: &[SourceFile]) -> Option<KFault>
    requires { 0 < length files.now }
    ensures { IsFlaw files.now result }
{
    if let Some(fault) = first_fault(files, ClauseFlaw::Missing, Rule::K4) {
        return Some(fault);
    }
    if let Some(fault) = first_fault(files, ClauseFlaw::Named("_"), Rule::K3) {
        return Some(fault);
    }
    let Some(clause) = files[0].clause() else {
        unreachable!()
    };
    first_fault(files, ClauseFlaw::NotNamed(clause.name.as_str()), Rule::K2)
}

/// Assembles a package from its files. Who wants to keep the source shares it first.
///
/// A package clause "begins each source file and defines the package to which the file belongs". Its name
/// "must not be the blank identifier", and a set of files "sharing the same PackageName form the
/// implementation of a package" (the Go specification, "Package clause").
///
/// # Errors
///
/// The first of these rules that a file breaks, at the first file that breaks it:
///
/// - `Rule::K4` where a file has no tree, at offset 0.
/// - `Rule::K3` where the name in a clause is `_`, at that name.
/// - `Rule::K2` where the name in a clause is not that of the first file, at that name.
pub fn assemble(source: PackageSource) -> Result<Package, KFault>
    ensures assembly { IsAssembly source.1 (assembly_shown result) }
    // The package is the source.
    ensures source { IfOk result (λ p. p ≡ source) }
{
    match assembly_fault(source.files()) {
        Some(fault) => Err(fault),
        None => Ok(Package { source }),
    }
}
