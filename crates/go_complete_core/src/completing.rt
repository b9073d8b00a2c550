//! The names that could stand in place of an identifier.
ghost use Rattle.std.specs.Prelude.{◌≡◌, [], All, Contains, IfOk, IfErr};
ghost use Rattle.std.specs.Option.{option_map};
ghost use Rattle.go_tree_nodes.specs.Shapes.{file_of, shape};
ghost use Rattle.go_package_core.specs.summary_core.Views.{faces_told};
ghost use Rattle.go_cursor_core.specs.Opened.{file_names};
ghost use Rattle.go_cursor_core.specs.Shown.{spot_shown};
ghost use Rattle.go_cursor_core.specs.Spots.{spot_seen};
ghost use Rattle.go_candidate_core.specs.fitting.Fitting as alone;
ghost use Rattle.go_candidate_core.specs.fitting.Fitting.{ShowsItsExports};
ghost use Rattle.go_complete_core.specs.place.Completed.{Completes};
ghost use Rattle.go_complete_core.specs.place.Completions.{texts_of};
ghost use Rattle.go_complete_core.specs.mirrors.Answering.{AreAnswered, AreBehindName, AreBehindSome, name_of};

use go_candidate_core::context::scopes_with;
use go_candidate_core::fitting::{fits_alone, names_alone, names_behind, package_named};
use go_cursor_core::denote_core::Stand;
use go_cursor_core::{FoundSpot, Spot};
use go_names_core::scope_core::Scopes;
use go_package_core::package_part::Part;
use go_package_core::summary_core::ReachedSummaries;
use go_tree_nodes::text_core::Rule;
use go_tree_nodes::{Expr, File, Ident, Usage};
use std::alloc::Global;

// The name that an expression is.
fn name_of(expr: &Expr) -> Option<&Ident>
    ensures { option_map (λ x. x.now) result ≡ name_of (shape expr.now) }
{
    match expr {
        Expr::Name(ident) => Some(ident),
        Expr::Integer(_, _) => None,
        Expr::Text(_) => None,
        Expr::Paren(_, _, _) => None,
        Expr::Unary(_, _, _) => None,
        Expr::Binary(_) => None,
        Expr::Select(_) => None,
        Expr::Call(_) => None,
        Expr::Literal(_) => None,
        Expr::StructLiteral(_) => None,
    }
}

// Whether a name has a declaration where it stands alone so.
fn has_declaration(
    scopes: &Scopes<'_>,
    reached: &ReachedSummaries,
    stand: Stand,
    ident: &Ident,
) -> Result<bool, Rule>
    ensures ok { IfOk result (λ b. b ≡ alone.fits_alone scopes.now (faces_told reached.now) stand ident.now.name) }
    ensures err { IfErr result (λ rule. rule ≡ Rule.M0) }
{
    match fits_alone(scopes, reached, stand, ident.name.as_str()) {
        Ok(fits) => Ok(fits),
        Err(_) => Err(Rule::M0),
    }
}

// The names behind a name and a dot.
fn behind_name(
    alloc: Global,
    scopes: &Scopes<'_>,
    reached: &ReachedSummaries,
    usage: Usage,
    stand: Stand,
    ident: &Ident,
) -> Result<Option<Vec<String>>, Rule>
    requires { All ShowsItsExports reached.now }
    ensures ok { IfOk result (λ names. AreBehindName scopes.now (faces_told reached.now) usage stand ident.now (option_map texts_of names)) }
    ensures err { IfErr result (λ rule. rule ≡ Rule.M0) }
{
    if !has_declaration(scopes, reached, stand, ident)? {
        return Ok(Some(Vec::new(alloc)));
    }
    match package_named(scopes, ident.name.as_str()) {
        None => Ok(None),
        Some(path) => {
            let names = names_behind(alloc, reached, path, usage)?;
            Ok(Some(names))
        }
    }
}

// The names behind an operand and a dot.
fn behind_operand(
    alloc: Global,
    scopes: &Scopes<'_>,
    reached: &ReachedSummaries,
    usage: Usage,
    stand: Stand,
    operand: &Expr,
) -> Result<Option<Vec<String>>, Rule>
    requires { All ShowsItsExports reached.now }
    ensures ok { IfOk result (λ names. AreBehindSome scopes.now (faces_told reached.now) usage stand (name_of (shape operand.now)) (option_map texts_of names)) }
    ensures err { IfErr result (λ rule. rule ≡ Rule.M0) }
{
    match name_of(operand) {
        None => Ok(None),
        Some(ident) => behind_name(alloc, scopes, reached, usage, stand, ident),
    }
}

// The names at a spot, where locals are open.
fn names_at(
    alloc: Global,
    scopes: &Scopes<'_>,
    reached: &ReachedSummaries,
    spot: Spot<'_>,
) -> Result<Option<Vec<String>>, Rule>
    requires { All ShowsItsExports reached.now }
    ensures ok { IfOk result (λ names. AreAnswered scopes.now (faces_told reached.now) (spot_shown spot.entry) (option_map texts_of names)) }
    ensures err { IfErr result (λ rule. rule ≡ Rule.M0) }
{
    match spot {
        Spot::Name(stand) => {
            let names = names_alone(alloc, scopes, reached, stand)?;
            Ok(Some(names))
        }
        Spot::Behind(usage, stand, operand) => {
            behind_operand(alloc, scopes, reached, usage, stand, operand)
        }
        Spot::BehindName(qualifier) => behind_name(
            alloc,
            scopes,
            reached,
            Usage::Type,
            Stand::TypeDot,
            qualifier,
        ),
        Spot::Key(_, _, _) => Ok(None),
    }
}

/// The names that have a declaration in place of an identifier of the file of a number and a tree: in byte order, each once. `None` where what a name
/// has there depends on a type: behind a value, and for the key of an element of a composite literal.
///
/// The time is linear in the names that are in scope, or that the package exports, and in those of the locals, but for an order of those that are
/// answered.
///
/// # Errors
///
/// M0 where memory is wanting.
pub fn names_there(
    alloc: Global,
    part: &Part,
    number: usize,
    tree: &File,
    found: &FoundSpot<'_>,
) -> Result<Option<Vec<String>>, Rule>
    requires spot { Contains (file_names (file_of tree.now)) (spot_seen found.now) }
    requires exports { All ShowsItsExports part.now.input.reached }
    ensures ok { IfOk result (λ names. Completes part.now number (file_of tree.now) (spot_seen found.now) (option_map texts_of names)) }
    ensures err { IfErr result (λ rule. rule ≡ Rule.M0) }
{
    let _tree = tree;
    let content = part.content();
    let reached = part.input().reached();
    let scopes = scopes_with(alloc, &content.blocks, number, &found.open)?;
    names_at(alloc, &scopes, reached, found.spot)
}
