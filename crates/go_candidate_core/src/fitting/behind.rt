//! The names that fit behind the name of a package.
ghost use Rattle.std.specs.Prelude.{◌≡◌, ◌↔◌, ℕ, List, true, All, Contains, IfOk, IfErr, filter, map, string_bytes};
ghost use Rattle.std.specs.List.Sorted.{IsStrictlySortedBy};
ghost use Rattle.go_graph_core.specs.Workspaces.{by_bytes};
ghost use Rattle.go_cursor_core.specs.scope_stack.Blocks.{names_in};
ghost use Rattle.go_expr_core.specs.denote_core.Selectors as selectors;
ghost use Rattle.go_summary_core.specs.shown.Shown.{texts};
ghost use Rattle.go_summary_core.specs.Views.{faces_told};
ghost use Rattle.go_candidate_core.specs.fitting.Fitting as fitting;
ghost use Rattle.go_candidate_core.specs.fitting.Fitting.{ShowsItsExports};
ghost use Rattle.go_candidate_core.specs.fitting.mirrors.Steps as steps;

use crate::fitting::listing::{in_order, owned};
use crate::fitting::things::{fits, thing_of_face, told_by};
use go_expr_core::denote_core::Stand;
use go_summary_core::declared_core::{PackageFaces, ShownFace};
use go_summary_core::{ReachedSummaries, Summary};
use go_table_core::path_core::ImportPath;
use go_tree_nodes::Usage;
use go_tree_nodes::text_core::{Rule, is_blank};
use std::alloc::{AllocError, Global};

// Where a name stands by which a selector is used so.
fn place_of(usage: Usage) -> Stand
    ensures { result ≡ selectors.usage_place usage }
{
    match usage {
        Usage::Type => Stand::Type,
        Usage::Value => Stand::Value,
        Usage::Callee => Stand::Callee,
    }
}

// Whether what a package shows may stand so.
fn fits_shown(shown: &ShownFace<'_>, usage: Usage) -> bool
    ensures { result ≡ fitting.fits_shown usage shown.now }
{
    match shown {
        ShownFace::Absent => false,
        ShownFace::Hidden => false,
        ShownFace::Shown(_, face) => fits(place_of(usage), thing_of_face(face)),
    }
}

// Whether a name of a package may stand so.
fn fits_name(faces: &PackageFaces, usage: Usage, name: &str) -> Result<bool, AllocError>
    ensures { IfOk result (λ b. b ≡ steps.fits_name faces.now usage name.now) }
{
    if is_blank(name) {
        return Ok(false);
    }
    let shown = faces.shown(name)?;
    Ok(fits_shown(&shown, usage))
}

// The exported names of a package that may stand so.
fn fitting_names<'s>(
    alloc: Global,
    summary: &'s Summary,
    usage: Usage,
) -> Result<Vec<&'s str>, AllocError>
    ensures { IfOk result (λ kept. texts kept.items ≡ filter (steps.fits_name summary.now.faces usage) (names_in summary.now.exports.names)) }
{
    let faces = summary.faces();
    let mut kept = Vec::new(alloc);
    for named in summary.exports().names() {
        let name = named.name.as_str();
        if fits_name(faces, usage, name)? {
            kept.push(name)?;
        }
    }
    Ok(kept)
}

// The same, as they are answered.
fn answered(alloc: Global, summary: &Summary, usage: Usage) -> Result<Vec<String>, AllocError>
    ensures order { IfOk result (λ found. IsStrictlySortedBy by_bytes (map string_bytes found.items)) }
    ensures each { IfOk result (λ found. (name : List ℕ) → Contains (map string_bytes found.items) name ↔ Contains (filter (steps.fits_name summary.now.faces usage) (names_in summary.now.exports.names)) name) }
{
    let mut kept = fitting_names(alloc, summary, usage)?;
    in_order(&mut kept);
    owned(alloc, &kept)
}

/// The names that have a declaration behind the name of the package of a path, in a selector that is used so, where the packages that are reached tell
/// this: in byte order, each once.
///
/// # Errors
///
/// M0 where memory is wanting.
pub fn names_behind(
    alloc: Global,
    reached: &ReachedSummaries,
    path: &ImportPath,
    usage: Usage,
) -> Result<Vec<String>, Rule>
    requires { All ShowsItsExports reached.now }
    ensures order { IfOk result (λ found. IsStrictlySortedBy by_bytes (map string_bytes found.items)) }
    ensures each { IfOk result (λ found. (name : List ℕ) → Contains (map string_bytes found.items) name ↔ (fitting.fits_behind (faces_told reached.now) path.now usage name ≡ true)) }
    ensures err { IfErr result (λ rule. rule ≡ Rule.M0) }
{
    match told_by(reached, path) {
        None => Ok(Vec::new(alloc)),
        Some(summary) => match answered(alloc, summary, usage) {
            Ok(found) => Ok(found),
            Err(AllocError) => Err(Rule::M0),
        },
    }
}
