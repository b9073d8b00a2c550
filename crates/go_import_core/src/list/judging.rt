//! What an import comes to.
ghost use Rattle.std.specs.Prelude.{◌≡◌, ◌<◌, List, IfOk, MatchOption, length};
ghost use Rattle.std.specs.List.Sorted.{IsStrictlySortedBy};
ghost use Rattle.std.specs.Map.{keys_of};
ghost use Rattle.go_graph_core.specs.Imports.{HasNoPackage, IsNumbered, IsTarget};
ghost use Rattle.go_graph_core.specs.Sources.{SourceModel};
ghost use Rattle.go_graph_core.specs.Workspaces.{IsWorkspace, by_bytes};
ghost use Rattle.go_import_core.specs.list.Importing.{IsJudgedAt};
ghost use Rattle.go_import_core.specs.list.mirrors.Marks.{IsWithin, MarkCycles, Settles};
ghost use Rattle.go_import_core.specs.list.mirrors.Standings.{ComesTo};

use crate::list::reaching::leads_to;
use crate::list::standing::standing_of;
use go_digraph_core::cycle::leading_to;
use go_graph_core::{ImportOutcome, PackageSource, Workspace, plan_imports};
use go_path_core::text_core::Rule;
use go_path_core::{ImportPath, PathText, may_import_text};
use std::alloc::{AllocError, Global};

/// The number of the package of a path among packages in byte order of path; `None` where there is none of that path. The time is logarithmic in
/// the packages.
pub fn number_of(packages: &[PackageSource], path: &str) -> Option<usize>
    requires { IsStrictlySortedBy by_bytes (keys_of packages.now) }
    ensures { MatchOption result (HasNoPackage packages.now path.now) (λ number. (files : List SourceModel) × IsNumbered packages.now path.now number files) }
{
    packages
        .binary_search_by(|source| source.path().as_str().cmp(path))
        .ok()
}

// What an import of the package of a number comes to, cycles left aside, where the rules before are not broken.
fn outcome_of(packages: &[PackageSource], number: usize) -> Result<ImportOutcome, AllocError>
    requires { number < length packages.now }
    ensures { IfOk result (ComesTo packages.now number) }
{
    let standing = standing_of(&packages[number])?;
    Ok(standing.outcome(number))
}

// What an import of a path comes to, cycles left aside.
fn path_target(
    packages: &[PackageSource],
    from: &ImportPath,
    path: &PathText<'_>,
) -> Result<ImportOutcome, AllocError>
    requires { IsWorkspace packages.now }
    ensures { IfOk result (IsTarget packages.now from.now path.now) }
{
    let text = path.as_str();
    if !may_import_text(from, path) {
        return Ok(ImportOutcome::Refused(Rule::I3));
    }
    match number_of(packages, text) {
        Some(number) => outcome_of(packages, number),
        None => Ok(ImportOutcome::Refused(Rule::I2)),
    }
}

/// What an import of a text comes to, cycles left aside.
pub(crate) fn target(
    packages: &[PackageSource],
    from: &ImportPath,
    text: &str,
) -> Result<ImportOutcome, AllocError>
    requires { IsWorkspace packages.now }
    ensures { IfOk result (IsTarget packages.now from.now text.now) }
{
    match PathText::read(text) {
        Ok(path) => path_target(packages, from, &path),
        Err(_) => Ok(ImportOutcome::Refused(Rule::I1)),
    }
}

/// A mark for each package: whether an import of it in the package of a number would lie on a cycle.
pub(crate) fn cycle_marks(
    alloc: Global,
    workspace: &Workspace,
    own: usize,
) -> Result<Vec<bool>, AllocError>
    requires { own < length workspace.now }
    ensures many { IfOk result (λ marks. length marks.items ≡ length workspace.now) }
    ensures marks { IfOk result (λ marks. MarkCycles workspace.now own marks.items) }
{
    let plan = plan_imports(alloc, workspace)?;
    leading_to(alloc, plan.edges(), workspace.packages().len(), own)
}

// What an import comes to that comes to this with cycles left aside.
fn settled(
    alloc: Global,
    workspace: &Workspace,
    own: usize,
    target: ImportOutcome,
) -> Result<ImportOutcome, AllocError>
    requires own { own < length workspace.now }
    requires within { IsWithin workspace.now target }
    ensures { IfOk result (Settles workspace.now own target) }
{
    match target {
        ImportOutcome::Package(number) => {
            if leads_to(alloc, workspace, number, own)? {
                Ok(ImportOutcome::Refused(Rule::I4))
            } else {
                Ok(target)
            }
        }
        ImportOutcome::Refused(_) => Ok(target),
    }
}

/// What an import of a text in the package of a number comes to, or would come to where the package lacks it: the package of the number, or the
/// first of these rules that it breaks.
///
/// - `Rule::I1` where the text is no path.
/// - `Rule::I3` where the package may not import the path.
/// - `Rule::I2` where there is no package of the path.
/// - `Rule::I6` where that package is not assembled.
/// - `Rule::I5` where its name is `main`.
/// - `Rule::I4` where imports that break none of these lead from that package to the one that imports it, or where it is this one.
///
/// The time is linear in the imports of the packages that the imported one leads to, each of which is looked up by its path, and a byte is written
/// for each package of the workspace.
///
/// # Errors
///
/// `AllocError` where memory is wanting.
pub fn judge_import(
    alloc: Global,
    workspace: &Workspace,
    own: usize,
    text: &str,
) -> Result<ImportOutcome, AllocError>
    requires { own < length workspace.now }
    ensures { IfOk result (IsJudgedAt workspace.now own text.now) }
{
    let packages = workspace.packages();
    let target = target(packages, packages[own].path(), text)?;
    settled(alloc, workspace, own, target)
}
