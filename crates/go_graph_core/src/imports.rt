//! Imports, and the packages that they name.
ghost use Rattle.std.specs.Prelude.{◌≡◌, IfOk, OnOk, OnErr};
ghost use Rattle.std.specs.List.{AllZip};
ghost use Rattle.std.specs.Map.{keys_of};
ghost use Rattle.go_tree_nodes.specs.token_core.Values.{IsPlain};
ghost use Rattle.go_tree_nodes.specs.Shapes.{shape_import_specs};
ghost use Rattle.go_tree_nodes.specs.Terminals.{value_of};
ghost use Rattle.go_graph_core.specs.Workspaces.{IsWorkspace};
ghost use Rattle.go_graph_core.specs.Imports.{import_texts, texts_in, IsTarget};
ghost use Rattle.go_graph_core.specs.mirrors.Targets.{IsStanding, HaveStandings, Adds, AreTargets, ArePackageTargets};

use crate::assembly::{assembly_fault, clause_name};
use crate::path_table::PathTable;
use crate::source::SourceFile;
use crate::workspace::PackageSource;
use go_collections_core::text_core::Rule;
use go_parse_core::parse_reader::add;
use go_path_core::{ImportPath, PathText, may_import_text};
use go_tree_nodes::{ImportSpec, ImportSpecs};
use std::alloc::{AllocError, Global};
use std::str;

/// The place of an import in a workspace: three numbers from 0.
#[derive(Clone, Copy, Debug, PartialEq, Eq)]
pub struct ImportAt {
    /// The number of the package, in byte order of path.
    pub package: usize,
    /// The number of the file in its package, in byte order of name.
    pub file: usize,
    /// The number of the import in its file, in order of place.
    pub import: usize,
}

/// What an import comes to.
#[derive(Clone, Copy, Debug, PartialEq, Eq)]
pub enum ImportOutcome {
    /// The package of this number.
    Package(usize),
    /// None, by the first rule that the import breaks.
    Refused(Rule),
}

/// What a package is to those that import it.
#[derive(Clone, Copy)]
pub(crate) enum Standing {
    /// Assembled, and of another name than `main`.
    Library,
    /// Assembled, and of the name `main`.
    Main,
    /// Not assembled.
    Faulty,
}

/// What a package is to those that import it.
fn standing_of(source: &PackageSource) -> Standing
    ensures { IsStanding source.now result }
{
    let files = source.files();
    match assembly_fault(files) {
        Some(_) => Standing::Faulty,
        None => {
            if clause_name(files) == "main" {
                Standing::Main
            } else {
                Standing::Library
            }
        }
    }
}

/// What each package is to those that import it.
pub(crate) fn standings(
    alloc: Global,
    packages: &[PackageSource],
) -> Result<Vec<Standing>, AllocError>
    ensures { IfOk result (λ standings. HaveStandings packages.now standings.items) }
{
    let mut standings = Vec::with_capacity(alloc, packages.len())?;
    for source in packages {
        standings.push(standing_of(source))?;
    }
    Ok(standings)
}

/// What an import of a path comes to, cycles left aside.
fn path_target(
    packages: &[PackageSource],
    paths: &PathTable<'_>,
    standings: &[Standing],
    from: &ImportPath,
    path: &PathText<'_>,
) -> ImportOutcome
    requires well { IsWorkspace packages.now }
    requires paths { paths.now ≡ keys_of packages.now }
    requires standings { HaveStandings packages.now standings.now }
    ensures { IsTarget packages.now from.now path.now result }
{
    let number = paths.number(path.as_str());
    if !may_import_text(from, path) {
        return ImportOutcome::Refused(Rule::I3);
    }
    let Some(number) = number else {
        return ImportOutcome::Refused(Rule::I2);
    };
    match standings[number] {
        Standing::Faulty => ImportOutcome::Refused(Rule::I6),
        Standing::Main => ImportOutcome::Refused(Rule::I5),
        Standing::Library => ImportOutcome::Package(number),
    }
}

/// What an import of a text comes to, cycles left aside.
fn text_target(
    packages: &[PackageSource],
    paths: &PathTable<'_>,
    standings: &[Standing],
    from: &ImportPath,
    text: &str,
) -> ImportOutcome
    requires well { IsWorkspace packages.now }
    requires paths { paths.now ≡ keys_of packages.now }
    requires standings { HaveStandings packages.now standings.now }
    ensures { IsTarget packages.now from.now text.now result }
{
    match PathText::read(text) {
        Ok(path) => path_target(packages, paths, standings, from, &path),
        Err(_) => ImportOutcome::Refused(Rule::I1),
    }
}

/// What an import of these bytes comes to, cycles left aside.
fn target(
    packages: &[PackageSource],
    paths: &PathTable<'_>,
    standings: &[Standing],
    from: &ImportPath,
    text: &[u8],
) -> ImportOutcome
    requires well { IsWorkspace packages.now }
    requires paths { paths.now ≡ keys_of packages.now }
    requires standings { HaveStandings packages.now standings.now }
    ensures { IsTarget packages.now from.now text.now result }
{
    let Ok(text) = str::from_utf8(text) else {
        return ImportOutcome::Refused(Rule::I1);
    };
    text_target(packages, paths, standings, from, text)
}

/// What an import comes to, cycles left aside.
fn spec_target(
    alloc: Global,
    packages: &[PackageSource],
    paths: &PathTable<'_>,
    standings: &[Standing],
    from: &ImportPath,
    spec: &ImportSpec,
) -> Result<ImportOutcome, AllocError>
    requires well { IsWorkspace packages.now }
    requires paths { paths.now ≡ keys_of packages.now }
    requires standings { HaveStandings packages.now standings.now }
    ensures target { IfOk result (IsTarget packages.now from.now (value_of spec.now.path)) }
    // An import that is written plainly needs no memory.
    ensures memory { OnErr result (¬ IsPlain spec.now.path.spelled) }
{
    match spec.path.plain() {
        Some(text) => Ok(text_target(packages, paths, standings, from, text)),
        None => {
            let text = spec.path.value(alloc)?;
            Ok(target(packages, paths, standings, from, &text))
        }
    }
}

/// Adds what the imports of one declaration come to.
fn add_targets(
    targets: &mut Vec<ImportOutcome>,
    alloc: Global,
    packages: &[PackageSource],
    paths: &PathTable<'_>,
    standings: &[Standing],
    from: &ImportPath,
    specs: &ImportSpecs,
) -> Result<(), AllocError>
    requires well { IsWorkspace packages.now }
    requires paths { paths.now ≡ keys_of packages.now }
    requires standings { HaveStandings packages.now standings.now }
    ensures { OnOk result (Adds (IsTarget packages.now from.now) (texts_in (shape_import_specs specs.now)) targets.old.items targets.new.items) }
{
    match specs {
        ImportSpecs::One(spec) => {
            targets.push(spec_target(alloc, packages, paths, standings, from, spec)?)?;
        }
        ImportSpecs::Group(_, lines, _) => {
            targets.reserve(lines.len())?;
            for line in lines {
                targets.push(spec_target(alloc, packages, paths, standings, from, &line.spec)?)?;
            }
        }
    }
    Ok(())
}

/// What the imports of a file come to, in order.
fn file_targets(
    alloc: Global,
    packages: &[PackageSource],
    paths: &PathTable<'_>,
    standings: &[Standing],
    from: &ImportPath,
    file: &SourceFile,
) -> Result<Vec<ImportOutcome>, AllocError>
    requires well { IsWorkspace packages.now }
    requires paths { paths.now ≡ keys_of packages.now }
    requires standings { HaveStandings packages.now standings.now }
    ensures { IfOk result (λ targets. AllZip (IsTarget packages.now from.now) (import_texts file.now) targets.items) }
{
    let mut targets = Vec::new(alloc);
    let Ok(tree) = file.tree() else {
        return Ok(targets);
    };
    for import in &tree.imports {
        add_targets(
            &mut targets,
            alloc,
            packages,
            paths,
            standings,
            from,
            &import.specs,
        )?;
    }
    Ok(targets)
}

/// What the imports of a package come to, for each file.
fn package_targets(
    alloc: Global,
    packages: &[PackageSource],
    paths: &PathTable<'_>,
    standings: &[Standing],
    source: &PackageSource,
) -> Result<Vec<Vec<ImportOutcome>>, AllocError>
    requires well { IsWorkspace packages.now }
    requires paths { paths.now ≡ keys_of packages.now }
    requires standings { HaveStandings packages.now standings.now }
    ensures { IfOk result (λ targets. ArePackageTargets packages.now source.now targets.items) }
{
    let from = source.path();
    let mut targets = Vec::with_capacity(alloc, source.files().len())?;
    for file in source.files() {
        add(
            &mut targets,
            file_targets(alloc, packages, paths, standings, from, file)?,
        )?;
    }
    Ok(targets)
}

/// What all imports come to, cycles left aside, for each package and each file, by a table of the packages' paths.
fn targets_by(
    alloc: Global,
    packages: &[PackageSource],
    paths: &PathTable<'_>,
    standings: &[Standing],
) -> Result<Vec<Vec<Vec<ImportOutcome>>>, AllocError>
    requires well { IsWorkspace packages.now }
    requires paths { paths.now ≡ keys_of packages.now }
    requires standings { HaveStandings packages.now standings.now }
    ensures { IfOk result (λ targets. AreTargets packages.now targets.items) }
{
    let mut targets = Vec::with_capacity(alloc, packages.len())?;
    for source in packages {
        add(
            &mut targets,
            package_targets(alloc, packages, paths, standings, source)?,
        )?;
    }
    Ok(targets)
}

/// What all imports come to, cycles left aside, for each package and each file.
pub(crate) fn targets(
    alloc: Global,
    packages: &[PackageSource],
    standings: &[Standing],
) -> Result<Vec<Vec<Vec<ImportOutcome>>>, AllocError>
    requires well { IsWorkspace packages.now }
    requires standings { HaveStandings packages.now standings.now }
    ensures { IfOk result (λ targets. AreTargets packages.now targets.items) }
{
    let paths = PathTable::of(alloc, packages)?;
    targets_by(alloc, packages, &paths, standings)
}
