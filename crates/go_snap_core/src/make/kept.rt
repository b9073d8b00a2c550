//! Which parts are there already, where a workspace was compiled before.
ghost use Rattle.std.specs.Prelude.{◌≡◌, ◌<◌, ◌↔◌, ◌++◌, ℕ, All, IfOk, IsTrue, MatchOption, OnOk, length, map, slice_get};
ghost use Rattle.std.specs.Option.{option_map};
ghost use Rattle.go_graph_core.specs.Workspaces.{AreAllRead};
ghost use Rattle.go_body_core.specs.table_core.Tables.{AreOthers};
ghost use Rattle.go_report_core.specs.summary_core.Summaries.{path_of};
ghost use Rattle.go_emit_core.specs.package_core.PackagePartParts.{PartModel};
ghost use Rattle.go_snap_core.specs.whole_workspace.Inputs.{AreParts};
ghost use Rattle.go_snap_core.specs.make.Keeping.{AreMarkedFor, WasThere, WasTold};
ghost use Rattle.go_snap_core.specs.make.mirrors.Marking.{AllMarked, LookAlike};

use crate::make::search::part_of;
use go_digraph_core::reach::Reached;
use go_emit_core::package_core::{Part, PartInput, same_imports};
use go_graph_core::Workspace;
use go_report_core::summary_core::{ReachedSummaries, Summary, View};
use std::alloc::{AllocError, Global};

/// Whether all these numbers are marked.
fn all_marked(numbers: &[usize], marks: &[bool]) -> bool
    requires { All (λ (n : ℕ). n < length marks.now) numbers.now }
    ensures { IsTrue result ↔ AllMarked marks.now numbers.now }
{
    for number in numbers {
        if !marks[*number] {
            return false;
        }
    }
    true
}

/// Whether two lists have summaries of one package at a number, or none both.
fn is_same_path(one: &ReachedSummaries, other: &ReachedSummaries, number: usize) -> bool
    ensures { IsTrue result ↔ (option_map path_of (slice_get one.now number) ≡ option_map path_of (slice_get other.now number)) }
{
    match (one.get(number), other.get(number)) {
        (Some(one), Some(other)) => one.path().is_same(other.path()),
        (None, None) => true,
        (Some(_), None) => false,
        (None, Some(_)) => false,
    }
}

/// Whether two lists have summaries of the same packages in order. What these tell is not compared.
fn same_paths(one: &ReachedSummaries, other: &ReachedSummaries) -> bool
    ensures { IsTrue result ↔ (map path_of one.now ≡ map path_of other.now) }
{
    if one.len() != other.len() {
        return false;
    }
    for number in 0..one.len() {
        if !is_same_path(one, other, number) {
            return false;
        }
    }
    true
}

/// Whether two inputs are of the same package, whose imports come to the same, and which reaches the same packages, those of these numbers, which
/// are all marked. What is reached is not compared. The time is linear in the one input and in the other, but for what their summaries tell.
fn look_alike(input: &PartInput, other: &PartInput, numbers: &[usize], marks: &[bool]) -> bool
    requires own { AreAllRead input.now.source }
    requires other { AreAllRead other.now.source }
    requires within { All (λ (n : ℕ). n < length marks.now) numbers.now }
    ensures { IsTrue result ↔ LookAlike marks.now numbers.now input.now other.now }
{
    all_marked(numbers, marks)
        && same_paths(input.reached(), other.reached())
        && same_imports(input.imports(), other.imports())
        && input.package().source().is_same(other.package().source())
}

/// The part that was made of this input, if there is one among those of an earlier workspace. Of each package that the one of a number reaches a mark
/// by its number says whether it tells what it told earlier (`is_told_again`), so that what is reached is not compared. The time is linear in the
/// package and in what it reaches, but for what this tells.
///
/// # Errors
///
/// `AllocError` where memory is wanting.
pub fn earlier_part<'a>(
    alloc: Global,
    reached: &Reached,
    number: usize,
    input: &PartInput,
    again: &[bool],
    sources: &Workspace,
    earlier: &'a [Option<Part>],
) -> Result<Option<&'a Part>, AllocError>
    requires own { AreAllRead input.now.source }
    requires again { AreMarkedFor reached.now earlier.now again.now number input.now.reached }
    requires earlier { AreParts sources.now earlier.now }
    ensures { IfOk result (λ found. MatchOption found ((p : PartModel) → WasThere earlier.now p → p.input ≡ input.now → ⊥) (λ p. WasThere earlier.now p.now × (p.now.input ≡ input.now))) }
{
    let Some(part) = part_of(sources, earlier, input.path().as_str()) else {
        return Ok(None);
    };
    let Some(set) = reached.of(number) else {
        unreachable!()
    };
    let numbers = set.list(alloc)?;
    if look_alike(input, part.input(), &numbers, again) {
        Ok(Some(part))
    } else {
        Ok(None)
    }
}

/// An earlier part once more. Its types are added to what is seen.
///
/// # Errors
///
/// `AllocError` where memory is wanting.
pub(crate) fn keep(part: &Part, seen: &mut View) -> Result<Part, AllocError>
    requires { AreOthers part.now.content.summary.types.path seen.old.types }
    ensures part { IfOk result (λ p. p ≡ part.now) }
    ensures types { OnOk result (seen.new.types ≡ seen.old.types ++ part.now.content.summary.types.entries) }
    ensures shown { seen.new.shown ≡ seen.old.shown }
    ensures faces { seen.new.faces ≡ seen.old.faces }
{
    seen.types.add(part.summary().types().share()?)?;
    part.share()
}

/// Whether a part of an earlier workspace tells what is told here. One part at most is compared: that of the same path. The time is linear in what the
/// two tell, but for a logarithm of the packages.
pub fn is_told_again(summary: &Summary, sources: &Workspace, earlier: &[Option<Part>]) -> bool
    requires { AreParts sources.now earlier.now }
    ensures { IsTrue result ↔ WasTold earlier.now summary.now }
{
    match part_of(sources, earlier, summary.path().as_str()) {
        Some(part) => summary.is_same(part.summary()),
        None => false,
    }
}
