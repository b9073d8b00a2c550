//! The names that fit alone.
ghost use Rattle.std.specs.Prelude.{◌≡◌, ◌↔◌, ℕ, List, true, Contains, IfOk, IfErr, filter, map, string_bytes};
ghost use Rattle.std.specs.List.Sorted.{IsStrictlySortedBy};
ghost use Rattle.std.specs.Option.{option_map};
ghost use Rattle.go_graph_core.specs.Workspaces.{by_bytes};
ghost use Rattle.go_cursor_core.specs.scope_stack.Blocks.{found_in};
ghost use Rattle.go_inline_core.specs.scope_core.Scopes.{denoted_of, scope_blocks};
ghost use Rattle.go_summary_core.specs.shown.Shown.{texts};
ghost use Rattle.go_summary_core.specs.Views.{faces_told};
ghost use Rattle.go_candidate_core.specs.fitting.Fitting as fitting;
ghost use Rattle.go_candidate_core.specs.fitting.mirrors.Steps.{key_of_target, key_at};

use crate::context::stands_alone;
use crate::fitting::listing::{in_order, owned};
use crate::fitting::things::exported_fits;
use go_expr_core::denote_core::Stand;
use go_inline_core::block_core::Target;
use go_inline_core::scope_core::{InScope, Scopes};
use go_summary_core::ReachedSummaries;
use go_table_core::path_core::ImportPath;
use go_term_core::decl_core::DeclKey;
use go_tree_nodes::text_core::{Rule, is_blank};
use std::alloc::{AllocError, Global};

// The declaration that a dot import binds.
fn key_of_target(target: &Target) -> Option<&DeclKey>
    ensures { option_map (λ k. k.now) result ≡ key_of_target target.now }
{
    match target {
        Target::Package(_) => None,
        Target::Refused(_) => None,
        Target::Exported(key) => Some(key),
    }
}

// The declaration that a name stands for which a dot import binds.
fn key_named<'a>(scopes: &Scopes<'a>, name: &str) -> Option<&'a DeclKey>
    ensures { option_map (λ k. k.now) result ≡ key_at (found_in (scope_blocks scopes.now) name.now) }
{
    match scopes.find(name) {
        None => None,
        Some(InScope::Universe(_)) => None,
        Some(InScope::Package(_)) => None,
        Some(InScope::File(binding)) => key_of_target(&binding.target),
        Some(InScope::Local(_)) => None,
    }
}

// The path of the package that an import binds.
fn path_of_target(target: &Target) -> Option<&ImportPath>
    ensures { option_map (λ path. path.now) result ≡ fitting.path_of_target target.now }
{
    match target {
        Target::Package(path) => Some(path),
        Target::Refused(_) => None,
        Target::Exported(_) => None,
    }
}

/// The path of the package that a name stands for, with these blocks open. Takes no memory.
pub fn package_named<'a>(scopes: &Scopes<'a>, name: &str) -> Option<&'a ImportPath>
    ensures { option_map (λ path. path.now) result ≡ fitting.package_at (found_in (scope_blocks scopes.now) name.now) }
{
    match scopes.find(name) {
        None => None,
        Some(InScope::Universe(_)) => None,
        Some(InScope::Package(_)) => None,
        Some(InScope::File(binding)) => path_of_target(&binding.target),
        Some(InScope::Local(_)) => None,
    }
}

/// Whether a name has a declaration where it stands alone so, with these blocks open, where the packages that are reached tell this.
///
/// # Errors
///
/// `AllocError` where memory is wanting.
pub fn fits_alone(
    scopes: &Scopes<'_>,
    reached: &ReachedSummaries,
    stand: Stand,
    name: &str,
) -> Result<bool, AllocError>
    ensures { IfOk result (λ b. b ≡ fitting.fits_alone scopes.now (faces_told reached.now) stand name.now) }
{
    if is_blank(name) {
        return Ok(false);
    }
    match key_named(scopes, name) {
        None => Ok(stands_alone(scopes, stand, name)),
        Some(key) => exported_fits(reached, key, stand),
    }
}

// Those of some names that fit alone.
fn fitting_alone<'s>(
    alloc: Global,
    names: &[&'s str],
    scopes: &Scopes<'_>,
    reached: &ReachedSummaries,
    stand: Stand,
) -> Result<Vec<&'s str>, AllocError>
    ensures { IfOk result (λ kept. texts kept.items ≡ filter (fitting.fits_alone scopes.now (faces_told reached.now) stand) (texts names.now)) }
{
    let mut kept = Vec::new(alloc);
    for name in names {
        if fits_alone(scopes, reached, stand, name)? {
            kept.push(*name)?;
        }
    }
    Ok(kept)
}

// The same, as they are answered.
fn answered(
    alloc: Global,
    names: &[&str],
    scopes: &Scopes<'_>,
    reached: &ReachedSummaries,
    stand: Stand,
) -> Result<Vec<String>, AllocError>
    ensures order { IfOk result (λ found. IsStrictlySortedBy by_bytes (map string_bytes found.items)) }
    ensures each { IfOk result (λ found. (name : List ℕ) → Contains (map string_bytes found.items) name ↔ Contains (filter (fitting.fits_alone scopes.now (faces_told reached.now) stand) (texts names.now)) name) }
{
    let mut kept = fitting_alone(alloc, names, scopes, reached, stand)?;
    in_order(&mut kept);
    owned(alloc, &kept)
}

/// The names that have a declaration where they stand alone so, with these blocks open, where the packages that are reached tell this: in byte order,
/// each once.
///
/// # Errors
///
/// M0 where memory is wanting.
pub fn names_alone(
    alloc: Global,
    scopes: &Scopes<'_>,
    reached: &ReachedSummaries,
    stand: Stand,
) -> Result<Vec<String>, Rule>
    ensures order { IfOk result (λ found. IsStrictlySortedBy by_bytes (map string_bytes found.items)) }
    ensures each { IfOk result (λ found. (name : List ℕ) → Contains (map string_bytes found.items) name ↔ (fitting.fits_alone scopes.now (faces_told reached.now) stand name ≡ true)) }
    ensures err { IfErr result (λ rule. rule ≡ Rule.M0) }
{
    let all = scopes.names(alloc)?;
    match answered(alloc, &all, scopes, reached, stand) {
        Ok(found) => Ok(found),
        Err(AllocError) => Err(Rule::M0),
    }
}
