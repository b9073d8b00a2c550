//! Snapshots.
ghost use Rattle.std.specs.Prelude.{◌≡◌, ◌≤◌, ℕ, List, [], All, IfErr, IfOk, MatchOption, None, Some, length, map, replicate, slice_get, slice_set, vec_capacity};
ghost use Rattle.std.specs.List.Sorted.{IsPermutation, IsStrictlySortedBy};
ghost use Rattle.go_graph_core.specs.Imports.{IsNumbered};
ghost use Rattle.go_graph_core.specs.Sources.{SourceModel};
ghost use Rattle.go_graph_core.specs.Workspaces.{IsWorkspace, by_bytes, names_of_files};
ghost use Rattle.go_report_core.specs.usage.Used.{FileUse};
ghost use Rattle.go_emit_core.specs.package_core.PackagePartParts.{PartModel};
ghost use Rattle.go_snap_core.specs.whole_workspace.Inputs.{AreParts};
ghost use Rattle.go_object_core.specs.Objects.{object_shown};
ghost use Rattle.go_emit_core.specs.Emitted.{objects_of};
ghost use Rattle.go_snap_core.specs.Snapshots.{ArePartsOf, HasNoFile, IsAnswerAt, IsFileAt, IsPartAt, IsSnapshot, file_in_shown, snapshot_with};
ghost use Rattle.go_emit_core.specs.package_core.PackagePartSlots.{somes};

use crate::fault::{PlacedFault, faults_of};
use crate::found::FileIn;
use crate::make::{package_of, part_of};
use crate::whole_workspace::parts_are_whole;
use go_emit_core::emit_all;
use go_emit_core::package_core::{Part, PartInput, Parts};
use go_graph_core::{PackageSource, SourceFile, Workspace};
use go_object_core::Object;
use go_path_core::ImportPath;
use go_report_core::answer::{Answer, Site};
use go_tree_core::OccId;
use std::alloc::{AllocError, Global};
use std::marker::Model;

/// A workspace with the parts of its assembled packages, and all faults. Contracts see the three, and that they are what the trees of all packages
/// give.
pub struct Snapshot {
    sources: Workspace,
    /// By the numbers of packages; none where files are not assembled.
    parts: Parts,
    faults: Vec<PlacedFault>,
}

impl Drop for Snapshot {
    fn drop(self) {
        let Snapshot {
            sources: _,
            parts: _,
            faults: _,
        } = self;
    }
}

impl Model for Snapshot {
    ghost use Rattle.std.specs.Coded.{codes};
    ghost use Rattle.go_graph_core.specs.Workspaces.{coded_package};
    ghost use Rattle.go_names_core.specs.block_core.Blocks.{coded_blocks};
    ghost use Rattle.go_emit_core.specs.declared_core.codes.FaceCodes.{coded_face, coded_operand};
    ghost use Rattle.go_report_core.specs.summary_core.codes.SummaryCodes.{coded_summary};
    ghost use Rattle.go_emit_core.specs.package_core.PackagePartInputs.{coded_input};
    ghost use Rattle.go_snap_core.specs.Snapshots.{IsSnapshot, SnapshotModel, snapshot_with};

    ghost Value = { SnapshotModel };

    ghost coded = { Prim.hlevel (codes, coded_package, coded_input, coded_blocks, coded_face, coded_operand, coded_summary) };

    ghost view = { λ s. snapshot_with s.sources s.parts s.faults.items };

    ghost invariant = { λ s. IsSnapshot s.sources s.parts s.faults.items };
}

// The number of the file of a name among files in byte order of name.
fn file_of(files: &[SourceFile], name: &str) -> Option<usize>
    requires { IsStrictlySortedBy by_bytes (names_of_files files.now) }
    ensures { MatchOption result (All (λ f. f.name ≡ name.now → ⊥) files.now) (λ number. (f : SourceModel) × (slice_get files.now number ≡ Some f) × (f.name ≡ name.now)) }
{
    files.binary_search_by(|file| file.name().cmp(name)).ok()
}

impl Snapshot {
    /// A workspace with the parts of its assembled packages, by the numbers of packages, and with its faults.
    pub(crate) fn new(sources: Workspace, parts: Parts, faults: Vec<PlacedFault>) -> Snapshot
        requires { IsSnapshot sources parts faults.items }
        ensures { result ≡ snapshot_with sources parts faults.items }
    {
        Snapshot {
            sources,
            parts,
            faults,
        }
    }

    /// The workspace that the snapshot is of. Its clause `whole` says what every call on a snapshot rests on: the parts and the faults are what the trees
    /// of all packages give.
    pub fn sources(&self) -> &Workspace
        ensures value { result.now ≡ self.now.sources }
        ensures whole { IsSnapshot self.now.sources self.now.parts self.now.faults }
    {
        &self.sources
    }

    /// The parts of the packages, by their numbers in byte order of path; none where the files of a package are not assembled.
    pub fn parts(&self) -> &[Option<Part>]
        ensures { result.now ≡ self.now.parts }
    {
        self.parts.as_slice()
    }

    // The part of the assembled package of a path, of which no other package is.
    fn find(&self, path: &ImportPath) -> Option<&Part>
        ensures well { IsWorkspace self.now.sources }
        ensures part { MatchOption result ((p : PartModel) → ¬ IsPartAt self.now.sources self.now.parts path.now p) (λ p. IsPartAt self.now.sources self.now.parts path.now p.now) }
    {
        part_of(self.sources(), self.parts(), path.as_str())
    }

    /// The part of the assembled package of a path; `None` for any other path.
    pub fn part(&self, path: &ImportPath) -> Option<&Part>
        ensures { MatchOption result ((p : PartModel) → ¬ IsPartAt self.now.sources self.now.parts path.now p) (λ p. IsPartAt self.now.sources self.now.parts path.now p.now) }
    {
        self.find(path)
    }

    /// What the part of the assembled package of a path was made from; `None` for any other path.
    pub fn input(&self, path: &ImportPath) -> Option<&PartInput>
        ensures { MatchOption result ((p : PartModel) → ¬ IsPartAt self.now.sources self.now.parts path.now p) (λ i. (p : PartModel) × IsPartAt self.now.sources self.now.parts path.now p × (i.now ≡ p.input)) }
    {
        let part = self.find(path)?;
        Some(part.input())
    }

    /// What an occurrence has, by its number among those of the file of a name in the package of a path: its declaration, or the first rule that it
    /// breaks. `None` where there is no such occurrence.
    ///
    /// The Go specification, "Declarations and scope", "Qualified identifiers", "Selectors".
    pub fn outcome(&self, path: &ImportPath, file: &str, occurrence: OccId) -> Option<&Answer>
        ensures { MatchOption result ((u : FileUse) → ¬ IsAnswerAt self.now.sources self.now.parts path.now file.now occurrence.0 u) (λ answer. IsAnswerAt self.now.sources self.now.parts path.now file.now occurrence.0 answer.now) }
    {
        let part = self.find(path)?;
        let number = file_of(part.input().package().files(), file)?;
        let made = part.content().files.get(number)?;
        made.answers.answers.get(occurrence.0)
    }

    /// The file of a name in the assembled package of a path: its number in the package, its source with its tree, and what the part of the package has
    /// of it. `None` where there is no such package, and where it has no file of that name. The time is logarithmic in the packages and in the files.
    pub fn file(&self, path: &ImportPath, name: &str) -> Option<FileIn<'_>>
        ensures { MatchOption result (HasNoFile self.now.sources self.now.parts path.now name.now) (λ f. IsFileAt self.now.sources self.now.parts path.now name.now (file_in_shown f)) }
    {
        let part = self.find(path)?;
        let package = part.input().package();
        let files = package.files();
        let number = file_of(files, name)?;
        let tree = package.tree(number);
        let content = part.content();
        Some(FileIn {
            part,
            number,
            source: &files[number],
            tree,
            made: &content.files[number],
        })
    }

    /// All faults: the rules that occurrences break, and those that are broken beside; by package, file, offset, and the bytes of the rule's
    /// number, each once. Packages and files are known by their numbers in the workspace.
    pub fn faults(&self) -> &[PlacedFault]
        ensures { result.now ≡ self.now.faults }
    {
        self.faults.as_slice()
    }

    /// The objects of the packages, in byte order of path: of each assembled package of which nothing is reported. Each is made over what all packages
    /// tell. The time is linear in the workspace, but for a logarithm.
    ///
    /// The Go specification, "Packages", "Function declarations", "Method declarations".
    ///
    /// # Errors
    ///
    /// `AllocError` where memory is wanting.
    pub fn objects(&self, alloc: Global) -> Result<Vec<Object<Site>>, AllocError>
        ensures { IfOk result (λ objects. map object_shown objects.items ≡ objects_of (somes self.now.parts)) }
    {
        // Packages of a workspace have different paths.
        let sources = self.sources();
        let _packages = sources.packages();
        let objects = emit_all(alloc, self.parts())?;
        Ok(objects)
    }
}

/// Puts a part to the number of its package.
fn put_part(packages: &[PackageSource], part: Part, slots: &mut Parts)
    requires well { IsWorkspace packages.now }
    requires many { length slots.old ≡ length packages.now }
    ensures many { length slots.new ≡ length slots.old }
    ensures put { (number : ℕ) (files : List SourceModel) → IsNumbered packages.now part.input.source.0 number files → slots.new ≡ slice_set slots.old number (Some part) }
{
    match package_of(packages, part.path().as_str()) {
        Some(number) => slots.put(number, part),
        None => {}
    }
}

/// Puts parts to the numbers of their packages.
fn put_parts(packages: &[PackageSource], parts: &mut Vec<Part>, slots: &mut Parts)
    requires well { IsWorkspace packages.now }
    requires none { slots.old ≡ replicate (length packages.now) None }
    requires parts { ArePartsOf packages.now parts.old.items }
    ensures many { length slots.new ≡ length slots.old }
    ensures parts { AreParts packages.now slots.new }
    ensures same { IsPermutation parts.old.items (somes slots.new) }
    ensures empty { parts.new.items ≡ [] }
    ensures room { length parts.old.items ≤ vec_capacity parts.new }
{
    while let Some(part) = parts.pop() {
        put_part(packages, part, slots);
    }
}

/// The snapshot of a workspace, of the parts of its assembled packages, by the numbers of these: what `compile` gives. It takes memory for the faults
/// alone.
///
/// # Errors
///
/// The workspace and the parts, where memory is wanting.
pub fn join_parts(
    alloc: Global,
    workspace: Workspace,
    parts: Parts,
) -> Result<Snapshot, (Workspace, Parts)>
    requires { AreParts workspace parts }
    ensures sources { IfOk result (λ s. s.sources ≡ workspace) }
    ensures parts { IfOk result (λ s. s.parts ≡ parts) }
    ensures given_back { IfErr result (λ back. (back.0 ≡ workspace) × (back.1 ≡ parts)) }
{
    parts_are_whole();
    // Packages stand in order of path.
    let _packages = workspace.packages();
    match faults_of(alloc, &workspace, parts.as_slice()) {
        Ok(faults) => Ok(Snapshot::new(workspace, parts, faults)),
        Err(AllocError) => Err((workspace, parts)),
    }
}

/// The snapshot of a workspace, of the parts of its assembled packages, each once, in any order: what `compile` gives.
///
/// # Errors
///
/// The workspace, and the parts in order of path, where memory is wanting.
pub fn join(
    alloc: Global,
    workspace: Workspace,
    parts: Vec<Part>,
) -> Result<Snapshot, (Workspace, Vec<Part>)>
    requires { ArePartsOf workspace parts.items }
    ensures sources { IfOk result (λ s. s.sources ≡ workspace) }
    ensures parts { IfOk result (λ s. IsPermutation parts.items (somes s.parts)) }
    ensures given_back { IfErr result (λ back. (back.0 ≡ workspace) × IsPermutation parts.items back.1.items) }
{
    let mut parts = parts;
    let Ok(mut slots) = Parts::none(alloc, workspace.packages().len()) else {
        return Err((workspace, parts));
    };
    put_parts(workspace.packages(), &mut parts, &mut slots);
    match join_parts(alloc, workspace, slots) {
        Ok(snapshot) => Ok(snapshot),
        Err((given, unjoined)) => {
            unjoined.take_back(&mut parts);
            Err((given, parts))
        }
    }
}
