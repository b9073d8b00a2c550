//! The names that keys of a composite literal may have.
ghost use Rattle.std.specs.Prelude.{◌≡◌, ◌<◌, ◌∷◌, ◌++◌, ◌↔◌, ◌&&◌, ℕ, List, Contains, IfOk, OnOk, Some, length, map, not, option_map, slice_get};
ghost use Rattle.std.specs.List.Sorted.{IsStrictlySortedBy};
ghost use Rattle.go_expr_core.specs.denote_core.CompositeKeys.{key_rule};
ghost use Rattle.go_expr_core.specs.denote_core.CompositeLiterals as literals;
ghost use Rattle.go_expr_core.specs.denote_core.CompositeLook.{FieldOf, literal_look_of};
ghost use Rattle.go_expr_core.specs.denote_core.CompositeRepeats.{has_name};
ghost use Rattle.go_expr_core.specs.denote_core.CompositeMirrors.Sets.{HasNames};
ghost use Rattle.go_expr_core.specs.Elements.{key_context};
ghost use Rattle.go_candidate_core.specs.after_dot.Names.{AreNames, by_bytes, is_declared};
ghost use Rattle.go_candidate_core.specs.after_dot.mirrors.Kept.{named_if};
ghost use Rattle.go_candidate_core.specs.after_dot.mirrors.Keyed as keyed;

use go_expr_core::denote_core::Literals;
use go_expr_core::operand_core::TypeForm;
use go_tree_nodes::text_core::{add, is_blank};
use std::alloc::{AllocError, Global};
use std::collections::BTreeSet;

// Adds a name to a set, unless it is there, and answers whether it was not.
fn insert<'a>(names: &mut BTreeSet<&'a str>, name: &'a str) -> Result<bool, AllocError>
    ensures added { IfOk result (λ is_new. is_new ≡ not (has_name name.now (map (λ n. n.now) names.old.keys))) }
    ensures seen { OnOk result (HasNames (map (λ n. n.now) names.new.keys) (name.now ∷ map (λ n. n.now) names.old.keys)) }
{
    match names.insert(name) {
        Ok(is_new) => Ok(is_new),
        Err(_) => Err(AllocError),
    }
}

// The set of some names.
fn set_of<'a>(alloc: Global, names: &[&'a str]) -> Result<BTreeSet<&'a str>, AllocError>
    ensures { IfOk result (λ set. HasNames (map (λ n. n.now) set.keys) (map (λ n. n.now) names.now)) }
{
    let mut set = BTreeSet::new(alloc);
    for name in names {
        insert(&mut set, *name)?;
    }
    Ok(set)
}

// Whether all of this holds: it is new, it is no other, it is not blank, it is visible.
fn passes(is_new: bool, is_other: bool, is_blank: bool, is_visible: bool) -> bool
    ensures { result ≡ ((is_new && not is_other) && not is_blank) && is_visible }
{
    is_new && !is_other && !is_blank && is_visible
}

// Adds a name, if it is to be.
fn add_if<'n>(is_left: bool, names: &mut Vec<&'n str>, name: &'n str) -> Result<(), AllocError>
    ensures { OnOk result (map (λ n. n.now) names.new.items ≡ map (λ n. n.now) names.old.items ++ named_if is_left name.now) }
{
    if is_left {
        add(names, name)?;
    }
    Ok(())
}

// Whether a field is visible whose name neither other keys nor names seen have. Its name is seen then.
fn is_left<'n, E: Literals>(
    env: &E,
    t: &E::Type,
    at: usize,
    name: &'n str,
    others: &BTreeSet<&str>,
    seen: &mut BTreeSet<&'n str>,
) -> Result<bool, AllocError>
    requires within { at < length ((E.literals env.now).fields t.now) }
    requires named { option_map (λ f. f.name) (slice_get ((E.literals env.now).fields t.now) at) ≡ Some name.now }
    ensures left { IfOk result (λ left. (f : FieldOf E.Type E.Decl) → slice_get ((E.literals env.now).fields t.now) at ≡ Some f → left ≡ keyed.is_left (map (λ n. n.now) seen.old.keys ++ map (λ n. n.now) others.now.keys) f) }
    ensures seen { OnOk result (HasNames (map (λ n. n.now) seen.new.keys ++ map (λ n. n.now) others.now.keys) (name.now ∷ (map (λ n. n.now) seen.old.keys ++ map (λ n. n.now) others.now.keys))) }
{
    let is_new = insert(seen, name)?;
    let is_other = others.contains(name);
    let field = env.field_at(t, at);
    Ok(passes(is_new, is_other, is_blank(name), field.is_visible))
}

// The names of the visible fields of a struct type, which has fields of these names, that no other key has, each once, in their order.
fn names_left<'n, E: Literals>(
    env: &E,
    alloc: Global,
    t: &E::Type,
    fields: &[&'n str],
    others: &BTreeSet<&str>,
) -> Result<Vec<&'n str>, AllocError>
    requires { map (λ n. n.now) fields.now ≡ map (λ f. f.name) ((E.literals env.now).fields t.now) }
    ensures { IfOk result (λ names. map (λ n. n.now) names.items ≡ keyed.keys_left (map (λ n. n.now) others.now.keys) ((E.literals env.now).fields t.now)) }
{
    let mut seen = BTreeSet::new(alloc);
    let mut names = Vec::new(alloc);
    for (at, name) in fields.iter().enumerate() {
        let left = is_left(env, t, at, *name, others, &mut seen)?;
        add_if(left, &mut names, *name)?;
    }
    Ok(names)
}

// The same by the other keys.
fn fields_left<'n, E: Literals>(
    env: &'n E,
    alloc: Global,
    t: &E::Type,
    others: &[&str],
) -> Result<Vec<&'n str>, AllocError>
    ensures { IfOk result (λ names. map (λ n. n.now) names.items ≡ keyed.keys_left (map (λ n. n.now) others.now) ((E.literals env.now).fields t.now)) }
{
    let others = set_of(alloc, others)?;
    let fields = env.field_names(alloc, t)?;
    names_left(env, alloc, t, &fields, &others)
}

// Whether what lies under a type is a struct type.
fn is_struct<E: Literals>(env: &E, t: &E::Type) -> bool
    ensures { result ≡ literals.is_struct ((E.types env.now).form t.now) }
{
    match env.form(t) {
        TypeForm::Struct => true,
        TypeForm::Nothing | TypeForm::Basic(_) | TypeForm::Pointer(_) | TypeForm::Interface => {
            false
        }
    }
}

// The same of a literal: none where its type is no struct type, or some of its elements have no key.
fn some_left<'n, E: Literals>(
    env: &'n E,
    alloc: Global,
    t: &Option<E::Type>,
    is_mixed: bool,
    others: &[&str],
) -> Result<Vec<&'n str>, AllocError>
    ensures { IfOk result (λ names. map (λ n. n.now) names.items ≡ keyed.some_keys (literal_look_of (E.types env.now) (E.names env.now) (E.literals env.now)) t.now is_mixed (map (λ n. n.now) others.now)) }
{
    match t {
        None => Ok(Vec::new(alloc)),
        Some(t) => {
            if is_mixed || !is_struct(env, t) {
                Ok(Vec::new(alloc))
            } else {
                fields_left(env, alloc, t, others)
            }
        }
    }
}

// Puts texts in byte order, and leaves each once.
fn put_in_order(names: &mut Vec<&str>)
    ensures order { IsStrictlySortedBy by_bytes (map (λ n. n.now) names.new.items) }
    ensures same { (name : List ℕ) → Contains (map (λ n. n.now) names.new.items) name ↔ Contains (map (λ n. n.now) names.old.items) name }
{
    names.sort_unstable();
    names.dedup();
}

/// The names that have a declaration as the key of an element of a composite literal, in byte order: by the literal's type, by whether some of its
/// elements have keys and some have not, and by the other keys. They are the fields of a struct type that are visible at the place and that no
/// other key names.
///
/// Time grows with the number of fields and of keys, but for a logarithm. The Go specification, "Composite literals".
///
/// # Errors
///
/// `AllocError` where memory is wanting.
pub fn key_names<'n, E: Literals>(
    env: &'n E,
    alloc: Global,
    t: &Option<E::Type>,
    is_mixed: bool,
    others: &[&str],
) -> Result<Vec<&'n str>, AllocError>
    ensures { IfOk result (λ names. AreNames (λ name. is_declared (key_rule (literal_look_of (E.types env.now) (E.names env.now) (E.literals env.now)) (key_context t.now is_mixed (map (λ n. n.now) others.now)) name)) (map (λ n. n.now) names.items)) }
{
    let mut names = some_left(env, alloc, t, is_mixed, others)?;
    put_in_order(&mut names);
    Ok(names)
}
