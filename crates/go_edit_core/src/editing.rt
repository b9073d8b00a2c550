//! The snapshot after an edit.
ghost use Rattle.std.specs.Prelude.{◌≡◌, IfOk, MatchOption, ⊤};
ghost use Rattle.go_graph_core.specs.Packages.{IsAssembled, trees_of};
ghost use Rattle.go_names_core.specs.block_core.Naming.{HaveOneEach};
ghost use Rattle.go_emit_core.specs.package_core.PackagePartInputs.{path_in};
ghost use Rattle.go_snap_core.specs.whole_workspace.Inputs.{AreParts};
ghost use Rattle.go_snap_core.specs.make.Keeping.{AreKept};
ghost use Rattle.go_snap_core.specs.Snapshots.{IsSnapshot};
ghost use Rattle.go_edit_core.specs.Edits.{DifferAt, IsEdited, IsEditedAt, TellsOther};

use crate::comparing::{Change, change_of, have_same_heads};
use crate::keeping::{have_parts, shared_parts, unmark};
use go_emit_core::package_core::{Part, Parts, compile_part};
use go_graph_core::{PackageSource, Workspace, assemble};
use go_import_core::head::outcomes_stay;
use go_snap_core::{Recompiled, Snapshot, join_parts, recompile};
use std::alloc::{AllocError, Global};

/// The snapshot of a workspace whose packages have these parts, with an account of which are kept.
fn joined(
    alloc: Global,
    workspace: &Workspace,
    parts: Parts,
    kept: Vec<bool>,
) -> Result<Recompiled, AllocError>
    requires { AreParts workspace.now parts }
    ensures sources { IfOk result (λ r. r.snapshot.sources ≡ workspace.now) }
    ensures whole { IfOk result (λ r. IsSnapshot workspace.now r.snapshot.parts r.snapshot.faults) }
    ensures parts { IfOk result (λ r. r.snapshot.parts ≡ parts) }
    ensures kept { IfOk result (λ r. r.kept ≡ kept) }
{
    let current = workspace.copy(alloc)?;
    let Ok(snapshot) = join_parts(alloc, current, parts) else {
        return Err(AllocError);
    };
    // Its parts and its faults are what the trees of all packages give.
    let _sources = snapshot.sources();
    Ok(Recompiled { snapshot, kept })
}

/// The snapshot of a workspace that an earlier one is of.
fn unchanged(
    alloc: Global,
    workspace: &Workspace,
    earlier: &Snapshot,
) -> Result<Recompiled, AllocError>
    requires { earlier.now.sources ≡ workspace.now }
    ensures sources { IfOk result (λ r. r.snapshot.sources ≡ workspace.now) }
    ensures whole { IfOk result (λ r. IsSnapshot workspace.now r.snapshot.parts r.snapshot.faults) }
    ensures kept { IfOk result (λ r. AreKept earlier.now.parts r.snapshot.parts r.kept.items) }
{
    // The earlier parts are those of its packages.
    let _sources = earlier.sources();
    let parts = shared_parts(alloc, earlier.parts())?;
    let kept = have_parts(alloc, earlier.parts())?;
    let made = joined(alloc, workspace, parts, kept)?;
    Ok(made)
}

/// The part of an edited package over what its earlier part was made from, if it tells what that told.
fn edited_part(
    alloc: Global,
    package: &PackageSource,
    earlier: &Part,
) -> Result<Option<Part>, AllocError>
    requires assembled { IsAssembled «package».now.1 }
    requires path { «package».now.0 ≡ path_in earlier.now.input }
    requires imports { HaveOneEach (trees_of «package».now.1) earlier.now.input.imports }
    ensures { IfOk result (λ found. MatchOption found (TellsOther «package».now earlier.now) (IsEdited «package».now earlier.now)) }
{
    let Ok(package) = assemble(package.share()?) else {
        unreachable!()
    };
    let input = earlier.input().with_package(alloc, package)?;
    let part = compile_part(alloc, &input)?;
    if part.summary().is_same(earlier.summary()) {
        Ok(Some(part))
    } else {
        Ok(None)
    }
}

/// The part of the package of a number in which alone a workspace differs from an earlier one, if the files have the same heads, and it tells what it told.
fn part_at(
    alloc: Global,
    workspace: &Workspace,
    earlier: &Snapshot,
    number: usize,
) -> Result<Option<Part>, AllocError>
    requires { DifferAt earlier.now.sources workspace.now number }
    ensures { IfOk result (λ found. MatchOption found ⊤ (IsEditedAt earlier.now.sources workspace.now earlier.now.parts number)) }
{
    let sources = earlier.sources();
    let parts = earlier.parts();
    let Some(part) = &parts[number] else {
        return Ok(None);
    };
    let heads = have_same_heads(alloc, sources, workspace, number)?;
    if !heads {
        return Ok(None);
    }
    let packages = workspace.packages();
    let found = edited_part(alloc, &packages[number], part)?;
    Ok(found)
}

/// The snapshot of a workspace that differs from an earlier one in the package of a number alone, where it has this part.
fn with_part(
    alloc: Global,
    workspace: &Workspace,
    earlier: &Snapshot,
    number: usize,
    part: Part,
) -> Result<Recompiled, AllocError>
    requires alone { DifferAt earlier.now.sources workspace.now number }
    requires edited { IsEditedAt earlier.now.sources workspace.now earlier.now.parts number part }
    ensures sources { IfOk result (λ r. r.snapshot.sources ≡ workspace.now) }
    ensures whole { IfOk result (λ r. IsSnapshot workspace.now r.snapshot.parts r.snapshot.faults) }
    ensures kept { IfOk result (λ r. AreKept earlier.now.parts r.snapshot.parts r.kept.items) }
{
    outcomes_stay();
    // Packages stand in order of path, and the earlier parts are those of their packages.
    let sources = earlier.sources();
    let _earlier = sources.packages();
    let _packages = workspace.packages();
    let mut parts = shared_parts(alloc, earlier.parts())?;
    parts.put(number, part);
    let mut kept = have_parts(alloc, earlier.parts())?;
    unmark(&mut kept, number);
    let made = joined(alloc, workspace, parts, kept)?;
    Ok(made)
}

/// The snapshot of a workspace that differs from an earlier one in the package of a number alone. It is checked alone, where it tells what it told.
fn edited(
    alloc: Global,
    workspace: &Workspace,
    earlier: &Snapshot,
    number: usize,
) -> Result<Recompiled, AllocError>
    requires { DifferAt earlier.now.sources workspace.now number }
    ensures sources { IfOk result (λ r. r.snapshot.sources ≡ workspace.now) }
    ensures whole { IfOk result (λ r. IsSnapshot workspace.now r.snapshot.parts r.snapshot.faults) }
    ensures kept { IfOk result (λ r. AreKept earlier.now.parts r.snapshot.parts r.kept.items) }
{
    match part_at(alloc, workspace, earlier, number)? {
        Some(part) => with_part(alloc, workspace, earlier, number, part),
        None => recompile(alloc, workspace, earlier),
    }
}

/// The snapshot of a workspace, over an earlier one of any workspace: what `recompile` gives, with the same account of which packages keep their parts.
/// Where one package alone has other texts, its files have the same heads (package clause and imports), and it tells what it told, as after an edit of a
/// body, it is checked alone: nothing is planned, and the inputs of other packages are neither made nor compared. The time is then linear in the packages,
/// in their texts, which are compared, and in what the edited one reaches.
///
/// The Go specification, "Packages", "Import declarations", "Exported identifiers".
///
/// # Errors
///
/// `AllocError` where memory is wanting. The earlier snapshot is as it was in any case.
pub fn recompile_edit(
    alloc: Global,
    workspace: &Workspace,
    earlier: &Snapshot,
) -> Result<Recompiled, AllocError>
    ensures sources { IfOk result (λ r. r.snapshot.sources ≡ workspace.now) }
    ensures whole { IfOk result (λ r. IsSnapshot workspace.now r.snapshot.parts r.snapshot.faults) }
    ensures kept { IfOk result (λ r. AreKept earlier.now.parts r.snapshot.parts r.kept.items) }
{
    let sources = earlier.sources();
    let before = sources.packages();
    let packages = workspace.packages();
    let change = change_of(before, packages);
    match change {
        Change::Nothing => unchanged(alloc, workspace, earlier),
        Change::One(number) => edited(alloc, workspace, earlier, number),
        Change::More => recompile(alloc, workspace, earlier),
    }
}
