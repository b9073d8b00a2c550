//! Workspaces.
ghost use Rattle.std.specs.Prelude.{◌≡◌, ◌<◌, ◌≤◌, ◌+◌, ◌↔◌, [], length, All, IsTrue, OnOk, IfErr, IfOk, OnErr, vec_len, vec_capacity};
ghost use Rattle.std.specs.BTreeMap.{insert_entry, is_at};
ghost use Rattle.std.specs.List.Sorted.{IsStrictlySortedBy};
ghost use Rattle.std.specs.Map.{keys_of, remove_entry};
ghost use Rattle.go_graph_core.specs.mirrors.Positions.{IsPosition};
ghost use Rattle.go_graph_core.specs.Sources.{IsRead, IsPlacedSource};
ghost use Rattle.go_graph_core.specs.Workspaces.{by_bytes, names_of_files, IsWorkspace, IsPackage, AreAllRead, HaveDistinctNames, given_files, texts_of_files, AreReadFrom, Puts, Replaces, put_all, packages_inside, is_path_inside};

use crate::source::SourceFile;
use go_collections_core::text_core::Rule;
use go_parse_core::parse_reader::add;
use go_path_core::{ImportPath, Module};
use std::alloc::{AllocError, Global};
use std::marker::Model;
use std::sync::Arc;

/// What a package holds.
#[derive(Drop)]
struct PackageContent {
    path: ImportPath,
    files: Vec<SourceFile>,
}

/// A package of a workspace: its path and its files, at least one, in order of name. It is a handle: what is shared has one
/// content. Contracts see it as these two.
pub struct PackageSource {
    content: Arc<PackageContent>,
}

impl Drop for PackageSource {
    fn drop(self) {
        let PackageSource { content: _ } = self;
    }
}

impl Model for PackageSource {
    ghost use Rattle.std.specs.Arc.{arc_value};
    ghost use Rattle.go_graph_core.specs.Workspaces.{PackageModel, coded_package, IsPackage};

    ghost Value = { PackageModel };

    ghost coded = { coded_package };

    ghost view = { λ p. ((arc_value p.content).path, (arc_value p.content).files.items) };

    ghost invariant = { λ p. IsPackage ((arc_value p.content).path, (arc_value p.content).files.items) };
}

impl PackageSource {
    /// A package of these files, in byte order of name, at least one, and no two of one name.
    ///
    /// # Errors
    ///
    /// `AllocError` for want of memory.
    pub fn new(
        alloc: Global,
        path: ImportPath,
        files: Vec<SourceFile>,
    ) -> Result<PackageSource, AllocError>
        requires some { 0 < length files.items }
        requires order { IsStrictlySortedBy by_bytes (names_of_files files.items) }
        ensures { IfOk result (λ p. p ≡ (path, files.items)) }
    {
        pass_over(&files);
        let content = Arc::new(alloc, PackageContent { path, files })?;
        Ok(PackageSource { content })
    }

    /// The package's path.
    pub fn path(&self) -> &ImportPath
        ensures { result.now ≡ self.now.0 }
    {
        &self.content.path
    }

    /// The package's files, at least one, in byte order of name.
    pub fn files(&self) -> &[SourceFile]
        ensures files { result.now ≡ self.now.1 }
        ensures well { IsPackage self.now }
    {
        self.content.files.as_slice()
    }

    /// The same package, once more. It takes no memory.
    ///
    /// # Errors
    ///
    /// `AllocError` where the package has too many owners.
    pub fn share(&self) -> Result<PackageSource, AllocError>
        ensures { IfOk result (λ p. p ≡ self.now) }
    {
        Ok(PackageSource {
            content: Arc::try_clone(&self.content)?,
        })
    }

    /// Whether two packages, each file of which has the content that its text has, are the same. Paths, and names, texts and
    /// faults of files, are compared.
    pub fn is_same(&self, other: &PackageSource) -> bool
        requires own { AreAllRead self.now }
        requires other { AreAllRead other.now }
        ensures { IsTrue result ↔ (self.now ≡ other.now) }
    {
        self.path().as_str() == other.path().as_str() && are_same_files(self.files(), other.files())
    }
}

/// Goes over files, so that it is known of each that its tree is placed.
fn pass_over(files: &[SourceFile])
    ensures { All IsPlacedSource files.now }
{
    for file in files {
        let _tree = file.tree();
    }
}

/// Whether two lists of files, each with the content that its text has, are the same.
fn are_same_files(files: &[SourceFile], others: &[SourceFile]) -> bool
    requires own { All IsRead files.now }
    requires other { All IsRead others.now }
    ensures { IsTrue result ↔ (files.now ≡ others.now) }
{
    if files.len() != others.len() {
        return false;
    }
    for file in 0..files.len() {
        if !files[file].is_same(&others[file]) {
            return false;
        }
    }
    true
}

/// Packages in byte order of path. Contracts see them as the list of their paths and files.
pub struct Workspace {
    packages: Vec<PackageSource>,
}

impl Drop for Workspace {
    fn drop(self) {
        let Workspace { packages: _ } = self;
    }
}

impl Model for Workspace {
    ghost use Rattle.std.specs.Prelude.{List};
    ghost use Rattle.std.specs.Coded.{coded_list};
    ghost use Rattle.go_graph_core.specs.Workspaces.{PackageModel, coded_package, IsReadWorkspace};

    ghost Value = { List PackageModel };

    ghost coded = { coded_list coded_package };

    ghost view = { λ w. w.packages.items };

    ghost invariant = { λ w. IsReadWorkspace w.packages.items };
}

impl Workspace {
    /// A workspace without packages.
    pub fn empty(alloc: Global) -> Workspace
        ensures { result ≡ [] }
    {
        Workspace {
            packages: Vec::new(alloc),
        }
    }

    /// The packages, in byte order of path. A package's number is its place among them.
    pub fn packages(&self) -> &[PackageSource]
        ensures packages { result.now ≡ self.now }
        ensures well { IsWorkspace self.now }
        ensures read { All AreAllRead self.now }
    {
        self.packages.as_slice()
    }

    /// Reads files by their names and texts, and puts them in the place of the files of the path. Without
    /// files there is no package of that path any more, and no memory is taken.
    ///
    /// # Errors
    ///
    /// `Rule::M0` for want of memory. The workspace is then as it was.
    pub fn put(
        &mut self,
        alloc: Global,
        path: &ImportPath,
        files: Vec<(String, String)>,
    ) -> Result<(), Rule>
        requires { HaveDistinctNames (given_files files.items) }
        ensures ok { OnOk result (Puts self.old path.now (given_files files.items) self.new) }
        ensures err { IfErr result (λ rule. (rule ≡ Rule.M0) × (self.new ≡ self.old)) }
        ensures memory { OnErr result (0 < length files.items) }
    {
        let Ok(files) = read_files(alloc, files) else {
            return Err(Rule::M0);
        };
        self.put_read(alloc, path, files)
    }

    /// Puts files that were read, each of another name, in the place of the files of the path. A file that other workspaces have too is shared with
    /// them. Without files there is no package of that path any more, and no memory is taken.
    ///
    /// # Errors
    ///
    /// `Rule::M0` for want of memory. The workspace is then as it was.
    pub fn put_read(
        &mut self,
        alloc: Global,
        path: &ImportPath,
        files: Vec<SourceFile>,
    ) -> Result<(), Rule>
        requires names { HaveDistinctNames (texts_of_files files.items) }
        requires read { All IsRead files.items }
        ensures ok { OnOk result (Puts self.old path.now (texts_of_files files.items) self.new) }
        ensures err { IfErr result (λ rule. (rule ≡ Rule.M0) × (self.new ≡ self.old)) }
        ensures memory { OnErr result (0 < length files.items) }
    {
        if files.is_empty() {
            remove_package(&mut self.packages, path);
            return Ok(());
        }
        let at = position_of(self.packages.as_slice(), path.as_str());
        let Ok(path) = path.share() else {
            return Err(Rule::M0);
        };
        let Ok(source) = PackageSource::new(alloc, path, in_order(files)) else {
            return Err(Rule::M0);
        };
        if let Err(AllocError) = put_at(&mut self.packages, at, source) {
            return Err(Rule::M0);
        }
        Ok(())
    }

    /// Puts the packages that another workspace has inside a module in the place of those inside it. The
    /// others stay. The packages that are put are shared.
    ///
    /// # Errors
    ///
    /// `Rule::M0` for want of memory, or where a package has too many owners. The workspace is then as it was.
    /// A call that has no package to share never answers it.
    pub fn replace(&mut self, own: &Module, from: &Workspace) -> Result<(), Rule>
        ensures ok { OnOk result (Replaces own.now self.old from.now self.new) }
        ensures err { IfErr result (λ rule. (rule ≡ Rule.M0) × (self.new ≡ self.old)) }
        ensures memory { OnErr result (0 < length (packages_inside own.now from.now)) }
    {
        let alloc = *self.packages.allocator();
        let Ok(inside) = share_inside(alloc, own, from.packages()) else {
            return Err(Rule::M0);
        };
        if let Err(AllocError) = self.packages.reserve(inside.len()) {
            return Err(Rule::M0);
        }
        self.packages.retain(|package| !lies_inside(package, own));
        put_each(&mut self.packages, inside);
        Ok(())
    }

    /// An equal value, whose packages are shared.
    ///
    /// # Errors
    ///
    /// `AllocError` for want of memory, or where a package has too many owners. A copy of no packages never answers it.
    pub fn copy(&self, alloc: Global) -> Result<Workspace, AllocError>
        ensures same { IfOk result (λ w. w ≡ self.now) }
        ensures memory { OnErr result (0 < length self.now) }
    {
        let mut packages = Vec::with_capacity(alloc, self.packages.len())?;
        for package in &self.packages {
            add(&mut packages, package.share()?)?;
        }
        Ok(Workspace { packages })
    }
}

/// Where the package of a path stands among packages in order, or where it would stand.
fn position_of(packages: &[PackageSource], path: &str) -> Result<usize, usize>
    requires { IsStrictlySortedBy by_bytes (keys_of packages.now) }
    ensures { IsPosition packages.now path.now result }
{
    packages.binary_search_by(|package| package.path().as_str().cmp(path))
}

/// Puts a package at its place, over the one of its path or between its neighbours.
fn put_at(
    packages: &mut Vec<PackageSource>,
    at: Result<usize, usize>,
    source: PackageSource,
) -> Result<(), AllocError>
    requires order { IsStrictlySortedBy by_bytes (keys_of packages.old.items) }
    requires position { IsPosition packages.old.items source.0 at }
    ensures ok { OnOk result (packages.new.items ≡ insert_entry by_bytes packages.old.items source.0 source.1) }
    ensures err { OnErr result (packages.new.items ≡ packages.old.items) }
    ensures len { vec_len packages.new ≤ vec_len packages.old + 1 }
    ensures capacity { vec_capacity packages.old ≤ vec_capacity packages.new }
    ensures full { OnErr result (vec_capacity packages.old ≤ vec_len packages.old) }
{
    match at {
        Ok(at) => packages[at] = source,
        Err(at) => packages.insert(at, source)?,
    }
    Ok(())
}

/// Removes the package of a path, if there is one.
fn remove_package(packages: &mut Vec<PackageSource>, path: &ImportPath)
    requires { IsStrictlySortedBy by_bytes (keys_of packages.old.items) }
    ensures { packages.new.items ≡ remove_entry (is_at (by_bytes path.now)) packages.old.items }
{
    let Ok(at) = position_of(packages.as_slice(), path.as_str()) else {
        return;
    };
    packages.remove(at);
}

/// Whether a package lies inside a module.
fn lies_inside(package: &PackageSource, own: &Module) -> bool
    ensures { result ≡ is_path_inside own.now «package».now.0 }
{
    own.contains(package.path())
}

/// The packages that lie inside a module, shared, in their order.
///
/// # Errors
///
/// `AllocError` for want of memory, or where a package has too many owners. A call that has no package to share never answers
/// it.
fn share_inside(
    alloc: Global,
    own: &Module,
    packages: &[PackageSource],
) -> Result<Vec<PackageSource>, AllocError>
    ensures inside { IfOk result (λ inside. inside.items ≡ packages_inside own.now packages.now) }
    ensures memory { OnErr result (0 < length (packages_inside own.now packages.now)) }
{
    let mut inside = Vec::new(alloc);
    for package in packages {
        if lies_inside(package, own) {
            add(&mut inside, package.share()?)?;
        }
    }
    Ok(inside)
}

/// Puts packages into their places.
fn put_each(packages: &mut Vec<PackageSource>, from: Vec<PackageSource>)
    requires order { IsStrictlySortedBy by_bytes (keys_of packages.old.items) }
    requires room { vec_len packages.old + vec_len from ≤ vec_capacity packages.old }
    ensures { packages.new.items ≡ put_all packages.old.items from.items }
{
    for package in from {
        let at = position_of(packages.as_slice(), package.path().as_str());
        match put_at(packages, at, package) {
            Ok(()) => {}
            // There is room for each of them.
            Err(AllocError) => unreachable!(),
        }
    }
}

/// Reads files, each by its name and text.
///
/// # Errors
///
/// `AllocError` for want of memory. No files want none.
pub fn read_files(
    alloc: Global,
    files: Vec<(String, String)>,
) -> Result<Vec<SourceFile>, AllocError>
    ensures texts { IfOk result (λ v. texts_of_files v.items ≡ given_files files.items) }
    ensures read { IfOk result (λ v. All IsRead v.items) }
    ensures memory { OnErr result (0 < length files.items) }
{
    let mut sources = Vec::with_capacity(alloc, files.len())?;
    for (name, text) in files {
        add(&mut sources, SourceFile::read(alloc, name, text)?)?;
    }
    Ok(sources)
}

/// Files in byte order of name.
fn in_order(files: Vec<SourceFile>) -> Vec<SourceFile>
    requires names { HaveDistinctNames (texts_of_files files.items) }
    requires read { All IsRead files.items }
    ensures { AreReadFrom (texts_of_files files.items) result.items }
{
    let mut files = files;
    files.sort_unstable_by(|one, other| one.name().cmp(other.name()));
    files
}
