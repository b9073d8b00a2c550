//! The keys of the other elements of a composite literal.
ghost use Rattle.std.specs.Prelude.{◌≡◌, ◌==◌, ◌++◌, [], if◌then◌else◌, length, IfOk, OnOk, map};
ghost use Rattle.go_tree_nodes.specs.Shapes.{items_of, shape_key};
ghost use Rattle.go_cursor_core.specs.Contexts.{other_keys};
ghost use Rattle.go_expr_core.specs.denote_core.CompositeLiterals.{keys_among};
ghost use Rattle.go_expr_core.specs.Elements.{all_keys, is_mixed, key_names, keys_of};
ghost use Rattle.go_candidate_core.specs.at_place.mirrors.Keys.{key_unless, keys_but};

use go_expr_core::denote_core::{Keys, keys_among};
use go_tree_nodes::text_core::add;
use go_tree_nodes::{Item, Key};
use std::alloc::{AllocError, Global};

// Adds a key, where there is one that is not left out.
fn add_key<'t>(
    is_left_out: bool,
    key: &'t Option<Box<Key>>,
    names: &mut Vec<&'t str>,
) -> Result<(), AllocError>
    ensures { OnOk result (map (λ n. n.now) names.new.items ≡ map (λ n. n.now) names.old.items ++ key_unless is_left_out (shape_key key.now)) }
{
    if is_left_out {
        return Ok(());
    }
    match key {
        None => Ok(()),
        Some(key) => add(names, key.name.name.as_str()),
    }
}

/// The keys of elements, but for that of the element of a number.
///
/// # Errors
///
/// `AllocError` where memory is wanting.
pub(crate) fn other_keys<'t>(
    alloc: Global,
    items: &'t [Item],
    at: usize,
) -> Result<Vec<&'t str>, AllocError>
    ensures { IfOk result (λ names. map (λ n. n.now) names.items ≡ other_keys at (items_of items.now)) }
{
    let mut names = Vec::new(alloc);
    for (number, item) in items.iter().enumerate() {
        add_key(number == at, &item.key, &mut names)?;
    }
    Ok(names)
}

// The keys of elements.
fn all_keys<'t>(alloc: Global, items: &'t [Item]) -> Result<Vec<&'t str>, AllocError>
    ensures { IfOk result (λ names. map (λ n. n.now) names.items ≡ all_keys (items_of items.now)) }
{
    let mut names = Vec::new(alloc);
    for item in items {
        add_key(false, &item.key, &mut names)?;
    }
    Ok(names)
}

// Whether some of so many elements have keys and some have not.
fn is_mixed_by(items: &[Item], names: &[&str]) -> bool
    ensures { result ≡ is_mixed (keys_among (length items.now) (length names.now)) }
{
    match keys_among(items.len(), names.len()) {
        Keys::Some => true,
        Keys::All | Keys::None => false,
    }
}

/// Whether some elements have keys and some have not.
///
/// # Errors
///
/// `AllocError` where memory is wanting.
pub(crate) fn is_mixed(alloc: Global, items: &[Item]) -> Result<bool, AllocError>
    ensures { IfOk result (λ mixed. mixed ≡ is_mixed (keys_of (items_of items.now))) }
{
    let names = all_keys(alloc, items)?;
    Ok(is_mixed_by(items, &names))
}
