//! The parts of a workspace.
ghost use Rattle.std.specs.Prelude.{◌≡◌, ◌↔◌, ◌<◌, ◌++◌, [], false, All, IfOk, IsTrue, None, OnOk, Some, length, replicate, slice_set};
ghost use Rattle.go_graph_core.specs.Plans.{AreReached, IsPlan};
ghost use Rattle.go_graph_core.specs.Workspaces.{AreAllRead, IsWorkspace};
ghost use Rattle.go_body_core.specs.table_core.Tables.{AreOthers};
ghost use Rattle.go_body_core.specs.typexpr_core.EntryShowing.{shown_in, with_shown};
ghost use Rattle.go_emit_core.specs.declared_core.Packages.{with_faces};
ghost use Rattle.go_emit_core.specs.package_core.PackagePartInputs.{path_in};
ghost use Rattle.go_emit_core.specs.package_core.PackagePartParts.{ContentOf, IsMade, IsPart, seen_with};
ghost use Rattle.go_snap_core.specs.whole_workspace.Inputs.{AreParts};
ghost use Rattle.go_snap_core.specs.whole_workspace.mirrors.Steps.{IsNext, IsRight};
ghost use Rattle.go_snap_core.specs.make.Keeping.{AreKept, AreMarked, WasThere, WasTold};
ghost use Rattle.go_snap_core.specs.make.Telling.{told_of};

use crate::make::inputs::input_of;
use crate::make::kept::{earlier_part, is_told_again, keep};
use crate::make::marks::Marks;
use crate::make::told::Told;
use crate::whole_workspace::{check_is_local, imports_bind_theirs};
use go_digraph_core::reach::Reached;
use go_emit_core::package_core::{Part, PartInput, Parts, compile_over};
use go_graph_core::{Plan, Workspace, plan_imports};
use go_report_core::summary_core::{View, view_of};
use std::alloc::{AllocError, Global};

/// The part of an input, over what is seen, to which the types of the package are added.
fn new_part(alloc: Global, input: PartInput, seen: &mut View) -> Result<Part, AllocError>
    requires others { AreOthers (path_in input) seen.old.types }
    requires alone { (c : ContentOf) → IsMade input (seen_with seen.old.types (shown_in seen.old.shown) seen.old.faces) c → IsPart input c }
    ensures input { IfOk result (λ p. p.input ≡ input) }
    ensures made { IfOk result (λ p. IsPart p.input p.content) }
    ensures types { IfOk result (λ p. seen.new.types ≡ seen.old.types ++ p.content.summary.types.entries) }
    ensures shown { seen.new.shown ≡ seen.old.shown }
    ensures faces { seen.new.faces ≡ seen.old.faces }
{
    let content = compile_over(alloc, &input, seen)?;
    let part = Part::new(alloc, input, content)?;
    Ok(part)
}

/// The part of the package of a number, which is the next one of the plan, where these are the parts of those before it, this they tell, this is seen
/// of them, and these tell what they told earlier; and whether it was there among the earlier parts. The types of the package are added to what is seen.
fn next_part(
    alloc: Global,
    workspace: &Workspace,
    plan: &Plan,
    reached: &Reached,
    number: usize,
    parts: &[Option<Part>],
    told: &Told,
    seen: &mut View,
    again: &[bool],
    sources: &Workspace,
    earlier: &[Option<Part>],
) -> Result<(Part, bool), AllocError>
    requires well { IsWorkspace workspace.now }
    requires read { All AreAllRead workspace.now }
    requires plan { IsPlan workspace.now plan.now }
    requires reached { AreReached plan.now reached.now }
    requires many { length reached.now ≡ length plan.now.outcomes }
    requires told { told.now ≡ told_of parts.now }
    requires again { AreMarked earlier.now parts.now again.now }
    requires next { IsNext workspace.now plan.now parts.now number seen.old.types seen.old.shown seen.old.faces }
    requires earlier { AreParts sources.now earlier.now }
    ensures right { IfOk result (λ p. IsRight workspace.now parts.now number p.0) }
    ensures kept { IfOk result (λ p. IsTrue p.1 ↔ WasThere earlier.now p.0) }
    ensures types { IfOk result (λ p. seen.new.types ≡ seen.old.types ++ p.0.content.summary.types.entries) }
    ensures shown { seen.new.shown ≡ seen.old.shown }
    ensures faces { seen.new.faces ≡ seen.old.faces }
{
    check_is_local();
    imports_bind_theirs();
    let input = input_of(alloc, workspace, plan, reached, number, parts, told)?;
    let found = earlier_part(alloc, reached, number, &input, again, sources, earlier)?;
    match found {
        Some(part) => {
            let kept = keep(part, seen)?;
            Ok((kept, true))
        }
        None => {
            let made = new_part(alloc, input, seen)?;
            Ok((made, false))
        }
    }
}

/// Whether an earlier part tells what a part tells. One that was there is not compared.
fn tells_again(part: &Part, kept: bool, sources: &Workspace, earlier: &[Option<Part>]) -> bool
    requires kept { IsTrue kept → WasThere earlier.now part.now }
    requires earlier { AreParts sources.now earlier.now }
    ensures { IsTrue result ↔ WasTold earlier.now part.now.content.summary }
{
    if kept {
        return true;
    }
    is_told_again(part.summary(), sources, earlier)
}

/// Adds what the package of a number shows to what is seen, in which its types are, and what it tells to what is told.
fn learn(seen: &mut View, told: &mut Told, number: usize, part: &Part) -> Result<(), AllocError>
    requires { number < length told.old }
    ensures types { seen.new.types ≡ seen.old.types }
    ensures shown { OnOk result (seen.new.shown ≡ with_shown seen.old.shown part.now.content.summary.exports) }
    ensures faces { OnOk result (seen.new.faces ≡ with_faces seen.old.faces part.now.content.summary.faces) }
    ensures told { OnOk result (told.new ≡ slice_set told.old number (Some part.now.content.summary)) }
{
    let summary = part.summary();
    seen.faces.add(summary.faces().share()?)?;
    seen.shown.add(summary.exports().share()?)?;
    told.add(number, summary.share()?)
}

/// Makes the parts of the assembled packages of a workspace, where there is none yet, and keeps of the earlier ones those whose inputs are the same.
fn make_all(
    alloc: Global,
    workspace: &Workspace,
    sources: &Workspace,
    earlier: &[Option<Part>],
    parts: &mut Parts,
    told: &mut Told,
    marks: &mut Marks,
    seen: &mut View,
) -> Result<(), AllocError>
    requires well { IsWorkspace workspace.now }
    requires read { All AreAllRead workspace.now }
    requires earlier { AreParts sources.now earlier.now }
    requires none { parts.old ≡ replicate (length workspace.now) None }
    requires told { told.old ≡ replicate (length workspace.now) None }
    requires again { length marks.old.again.items ≡ length workspace.now }
    requires kept { marks.old.kept.items ≡ replicate (length workspace.now) false }
    requires types { seen.old.types ≡ [] }
    requires shown { seen.old.shown ≡ [] }
    requires faces { seen.old.faces ≡ [] }
    ensures parts { OnOk result (AreParts workspace.now parts.new) }
    ensures kept { OnOk result (AreKept earlier.now parts.new marks.new.kept.items) }
{
    let plan = plan_imports(alloc, workspace)?;
    let reached = plan.reached(alloc)?;
    for number in plan.order() {
        let (part, kept) = next_part(
            alloc,
            workspace,
            &plan,
            &reached,
            *number,
            parts.as_slice(),
            told,
            seen,
            marks.again(),
            sources,
            earlier,
        )?;
        let again = tells_again(&part, kept, sources, earlier);
        learn(seen, told, *number, &part)?;
        marks.set(*number, again, kept);
        parts.put(*number, part);
    }
    Ok(())
}

/// Makes them, where nothing is seen yet.
fn make_seen(
    alloc: Global,
    workspace: &Workspace,
    sources: &Workspace,
    earlier: &[Option<Part>],
    parts: &mut Parts,
    told: &mut Told,
    marks: &mut Marks,
) -> Result<(), AllocError>
    requires well { IsWorkspace workspace.now }
    requires read { All AreAllRead workspace.now }
    requires earlier { AreParts sources.now earlier.now }
    requires none { parts.old ≡ replicate (length workspace.now) None }
    requires told { told.old ≡ replicate (length workspace.now) None }
    requires again { length marks.old.again.items ≡ length workspace.now }
    requires kept { marks.old.kept.items ≡ replicate (length workspace.now) false }
    ensures parts { OnOk result (AreParts workspace.now parts.new) }
    ensures kept { OnOk result (AreKept earlier.now parts.new marks.new.kept.items) }
{
    let mut seen = view_of(alloc, &[])?;
    make_all(
        alloc, workspace, sources, earlier, parts, told, marks, &mut seen,
    )
}

/// Makes them, where nothing is told yet. Says of each package whether its part was there.
fn make_told(
    alloc: Global,
    workspace: &Workspace,
    sources: &Workspace,
    earlier: &[Option<Part>],
    parts: &mut Parts,
) -> Result<Vec<bool>, AllocError>
    requires earlier { AreParts sources.now earlier.now }
    requires none { parts.old ≡ replicate (length workspace.now) None }
    ensures parts { OnOk result (AreParts workspace.now parts.new) }
    ensures kept { IfOk result (λ kept. AreKept earlier.now parts.new kept.items) }
{
    let mut told = Told::new(alloc, workspace.packages().len())?;
    let mut marks = Marks::new(alloc, workspace.packages().len())?;
    let made = make_seen(
        alloc, workspace, sources, earlier, parts, &mut told, &mut marks,
    );
    let kept = marks.into_kept();
    made?;
    Ok(kept)
}

/// The parts of the assembled packages of a workspace, by their numbers, where another workspace has the parts `earlier`; and of each package, by its
/// number, whether its part is one of those. A part is kept, with its input, where the package's input is the one that it was made from: then nothing
/// is checked again. Of a package that is made again what it tells is compared once with what it told earlier, so that an edit of a body leaves the
/// packages alone that import it.
///
/// The parts are those that `parts_of` gives.
///
/// The Go specification, "Packages", "Import declarations".
///
/// # Errors
///
/// `AllocError` where memory is wanting.
pub fn parts_again(
    alloc: Global,
    workspace: &Workspace,
    sources: &Workspace,
    earlier: &[Option<Part>],
) -> Result<(Parts, Vec<bool>), AllocError>
    requires { AreParts sources.now earlier.now }
    ensures well { IfOk result (λ _. IsWorkspace workspace.now) }
    ensures parts { IfOk result (λ made. AreParts workspace.now made.0) }
    ensures kept { IfOk result (λ made. AreKept earlier.now made.0 made.1.items) }
{
    let packages = workspace.packages();
    let mut parts = Parts::none(alloc, packages.len())?;
    let kept = make_told(alloc, workspace, sources, earlier, &mut parts)?;
    Ok((parts, kept))
}

/// The parts of the assembled packages of a workspace, by their numbers: each is made once, behind those of the packages that it imports, and from
/// what the packages tell that it reaches.
///
/// The Go specification, "Packages", "Import declarations".
///
/// # Errors
///
/// `AllocError` where memory is wanting.
pub fn parts_of(alloc: Global, workspace: &Workspace) -> Result<Parts, AllocError>
    ensures well { IfOk result (λ _. IsWorkspace workspace.now) }
    ensures parts { IfOk result (λ parts. AreParts workspace.now parts) }
{
    let nothing = Workspace::empty(alloc);
    let (parts, _kept) = parts_again(alloc, workspace, &nothing, &[])?;
    Ok(parts)
}
