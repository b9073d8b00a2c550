//! Names in byte order.
ghost use Rattle.std.specs.Prelude.{◌≡◌, ◌↔◌, ℕ, List, Contains, IfOk, map, string_bytes};
ghost use Rattle.std.specs.List.Sorted.{IsStrictlySortedBy};
ghost use Rattle.go_graph_core.specs.Workspaces.{by_bytes};
ghost use Rattle.go_summary_core.specs.shown.Shown.{texts};

use std::alloc::{AllocError, Global};

/// Puts texts in byte order, and leaves each once.
pub(crate) fn in_order(names: &mut Vec<&str>)
    ensures order { IsStrictlySortedBy by_bytes (texts names.new.items) }
    ensures same { (name : List ℕ) → Contains (texts names.new.items) name ↔ Contains (texts names.old.items) name }
{
    names.sort_unstable();
    names.dedup();
}

/// Texts of their own.
///
/// # Errors
///
/// `AllocError` where memory is wanting.
pub(crate) fn owned(alloc: Global, names: &[&str]) -> Result<Vec<String>, AllocError>
    ensures { IfOk result (λ all. map string_bytes all.items ≡ texts names.now) }
{
    let mut all = Vec::new(alloc);
    for name in names {
        let text = String::from_str(alloc, name)?;
        all.push(text)?;
    }
    Ok(all)
}
