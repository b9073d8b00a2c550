//! Spellings that stand in a list more than once.
ghost use Rattle.std.specs.Prelude.{◌≡◌, ℕ, List, ◌∷◌, IfOk, OnOk, map, not};
ghost use Rattle.go_denote_core.specs.composite.Repeats.{has_name};
ghost use Rattle.go_denote_core.specs.composite.mirrors.Sets.{HasRepeats, Notes};

use std::alloc::{AllocError, Global};
use std::collections::BTreeSet;

// Adds a name to a set, unless it is there, and answers whether it was not.
fn insert<'a>(names: &mut BTreeSet<&'a str>, name: &'a str) -> Result<bool, AllocError>
    ensures added { IfOk result (λ is_new. is_new ≡ not (has_name name.now (map (λ n. n.now) names.old.keys))) }
    ensures seen { OnOk result ((n : List ℕ) → has_name n (map (λ n. n.now) names.new.keys) ≡ has_name n (name.now ∷ map (λ n. n.now) names.old.keys)) }
{
    match names.insert(name) {
        Ok(is_new) => Ok(is_new),
        Err(_) => Err(AllocError),
    }
}

// Adds a name to the names seen; where it was there, to those seen again.
fn note<'a>(
    seen: &mut BTreeSet<&'a str>,
    again: &mut BTreeSet<&'a str>,
    name: &'a str,
) -> Result<(), AllocError>
    ensures { OnOk result (Notes (map (λ n. n.now) seen.old.keys) (map (λ n. n.now) again.old.keys) name.now (map (λ n. n.now) seen.new.keys) (map (λ n. n.now) again.new.keys)) }
{
    if insert(seen, name)? {
        return Ok(());
    }
    insert(again, name)?;
    Ok(())
}

/// The names that stand in a list more than once.
pub(crate) fn names_again<'a>(
    alloc: Global,
    names: &[&'a str],
) -> Result<BTreeSet<&'a str>, AllocError>
    ensures { IfOk result (λ again. HasRepeats (map (λ n. n.now) again.keys) (map (λ n. n.now) names.now)) }
{
    let mut seen = BTreeSet::new(alloc);
    let mut again = BTreeSet::new(alloc);
    for name in names {
        note(&mut seen, &mut again, *name)?;
    }
    Ok(again)
}
