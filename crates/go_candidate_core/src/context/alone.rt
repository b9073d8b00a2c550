//! The names that may stand alone at a place.
ghost use Rattle.std.specs.Prelude.{◌≡◌, ℕ, ◌↔◌, List, [], true, IfOk, IfErr, Contains, map, filter};
ghost use Rattle.go_inline_core.specs.scope_core.Scopes.{scope_blocks};
ghost use Rattle.go_cursor_core.specs.scope_stack.Blocks.{all_names, list_names};
ghost use Rattle.go_candidate_core.specs.context.Alone as alone;

use crate::context::things::{fits, thing_of};
use go_cursor_core::scope_stack::DeclId;
use go_expr_core::denote_core::Stand;
use go_inline_core::block_core::Blocks;
use go_inline_core::scope_core::Scopes;
use go_tree_nodes::Ident;
use go_tree_nodes::text_core::Rule;
use std::alloc::Global;

/// Whether a name has a declaration where it stands alone so, with these blocks open. Takes no memory.
///
/// A name that is refused there has none: no block has it, a refused import binds it, it is predeclared and not usable, or it stands
/// for another thing than is wanted.
pub fn stands_alone(scopes: &Scopes<'_>, stand: Stand, name: &str) -> bool
    ensures { result ≡ alone.stands_alone scopes.now stand name.now }
{
    match scopes.find(name) {
        None => false,
        Some(found) => match thing_of(found) {
            None => false,
            Some(thing) => fits(stand, thing),
        },
    }
}

/// The names that have a declaration where they stand alone so, with these blocks open, each once.
///
/// # Errors
///
/// M0 where memory is wanting.
pub fn names_alone<'s>(
    alloc: Global,
    scopes: &'s Scopes<'_>,
    stand: Stand,
) -> Result<Vec<&'s str>, Rule>
    ensures value { IfOk result (λ names. map (λ n. n.now) names.items ≡ filter (alone.stands_alone scopes.now stand) (list_names [] (all_names (scope_blocks scopes.now)))) }
    ensures each { IfOk result (λ names. (name : List ℕ) → Contains (map (λ n. n.now) names.items) name ↔ (alone.stands_alone scopes.now stand name ≡ true)) }
    ensures err { IfErr result (λ rule. rule ≡ Rule.M0) }
{
    let all = scopes.names(alloc)?;
    let mut names = Vec::new(alloc);
    for name in &all {
        if stands_alone(scopes, stand, name) && names.push(*name).is_err() {
            return Err(Rule::M0);
        }
    }
    Ok(names)
}

/// The blocks that are open in a file of a package, by the file's number in order of name, from 0, with these locals in one block of a function.
///
/// # Errors
///
/// M0 where memory is wanting.
pub fn scopes_with<'b>(
    alloc: Global,
    blocks: &'b Blocks,
    file: usize,
    locals: &[&Ident],
) -> Result<Scopes<'b>, Rule>
    ensures value { IfOk result (λ s. alone.HasLocals blocks.now file (map (λ x. x.now) locals.now) s) }
    ensures err { IfErr result (λ rule. rule ≡ Rule.M0) }
{
    let mut scopes = Scopes::begin(alloc, blocks, file);
    scopes.enter()?;
    for (number, ident) in locals.iter().enumerate() {
        let name = ident.name.as_str();
        if !scopes.is_taken(name) {
            scopes.declare(name, DeclId(number))?;
        }
    }
    Ok(scopes)
}
