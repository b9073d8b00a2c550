//! What is known of the keys of a literal among one another and among the fields of its type.
ghost use Rattle.std.specs.Prelude.{◌≡◌, ℕ, List, Some, None, map, if◌then◌else◌, IfOk, OnOk};
ghost use Rattle.std.specs.Str.{bytes_eq};
ghost use Rattle.go_denote_core.specs.composite.Marks as marks;
ghost use Rattle.go_denote_core.specs.composite.mirrors.Numbers.{asked_mark, first_known, mark_by, mark_with, number_of, searched_mark};

use crate::composite::looks::Literals;
use crate::composite::repeats::names_again;
use crate::composite::things::KeyMark;
use std::alloc::{AllocError, Global};
use std::collections::{BTreeMap, BTreeSet};

/// From how many keys on a table of the fields by their names is made where the place has no index of them; fewer are each looked for.
const TABLE_FROM: usize = 9;

// Adds a name with its number, unless it is there.
fn add_name<'n>(
    numbers: &mut BTreeMap<&'n str, usize>,
    name: &'n str,
    at: usize,
) -> Result<(), AllocError>
    ensures { OnOk result ((n : List ℕ) → number_of numbers.new.entries n ≡ first_known (number_of numbers.old.entries n) (if bytes_eq name.now n then Some at else None)) }
{
    if numbers.contains_key(name) {
        return Ok(());
    }
    match numbers.insert(name, at) {
        Ok(_) => Ok(()),
        Err(_) => Err(AllocError),
    }
}

// Each of some names with the number of the first that is spelled so, from 0.
fn numbers_of<'n>(
    alloc: Global,
    names: &Vec<&'n str>,
) -> Result<BTreeMap<&'n str, usize>, AllocError>
    ensures { IfOk result (λ numbers. (n : List ℕ) → number_of numbers.entries n ≡ marks.name_number_from 0 (map (λ m. m.now) names.now.items) n) }
{
    let mut numbers = BTreeMap::new(alloc);
    for (at, name) in names.iter().enumerate() {
        add_name(&mut numbers, *name, at)?;
    }
    Ok(numbers)
}

// The number of a name.
fn number(numbers: &BTreeMap<&str, usize>, name: &str) -> Option<usize>
    ensures { result ≡ number_of numbers.now.entries name.now }
{
    match numbers.get(name) {
        None => None,
        Some(at) => Some(*at),
    }
}

// The mark of a key, by the keys that are repeated and the numbers of fields.
fn mark_of(again: &BTreeSet<&str>, numbers: &BTreeMap<&str, usize>, name: &str) -> KeyMark
    ensures { result ≡ mark_by (map (λ n. n.now) again.now.keys) numbers.now.entries name.now }
{
    KeyMark {
        is_repeated: again.contains(name),
        field: number(numbers, name),
    }
}

// The marks of some keys.
fn mark_each(
    alloc: Global,
    again: &BTreeSet<&str>,
    numbers: &BTreeMap<&str, usize>,
    names: &[&str],
) -> Result<Vec<KeyMark>, AllocError>
    ensures { IfOk result (λ all. all.items ≡ map (mark_by (map (λ n. n.now) again.now.keys) numbers.now.entries) (map (λ n. n.now) names.now)) }
{
    let mut all = Vec::with_capacity(alloc, names.len())?;
    for name in names {
        all.push(mark_of(again, numbers, *name))?;
    }
    Ok(all)
}

/// The number of the first of some names that is spelled so, from 0, and none where none is. Time grows with their number.
pub fn first_named(names: &Vec<&str>, name: &str) -> Option<usize>
    ensures { result ≡ marks.name_number_from 0 (map (λ m. m.now) names.now.items) name.now }
{
    for (at, other) in names.iter().enumerate() {
        if *other == name {
            return Some(at);
        }
    }
    None
}

// The number of the first field of a literal's type that is spelled so, from 0.
fn asked_number<E: Literals>(
    env: &E,
    alloc: Global,
    t: &Option<E::Type>,
    name: &str,
) -> Result<Option<usize>, AllocError>
    ensures { IfOk result (λ number. number ≡ marks.field_number (marks.type_fields (E.literals env.now) t.now) name.now) }
{
    match t {
        None => Ok(None),
        Some(t) => env.field_number(alloc, t, name),
    }
}

// The mark of a key, by the keys that are repeated and the number of its field.
fn mark_with(again: &BTreeSet<&str>, name: &str, field: Option<usize>) -> KeyMark
    ensures { result ≡ mark_with (map (λ n. n.now) again.now.keys) field name.now }
{
    KeyMark {
        is_repeated: again.contains(name),
        field,
    }
}

// The mark of a key, by the keys that are repeated and the fields of the literal's type.
fn asked_mark<E: Literals>(
    env: &E,
    alloc: Global,
    t: &Option<E::Type>,
    again: &BTreeSet<&str>,
    name: &str,
) -> Result<KeyMark, AllocError>
    ensures { IfOk result (λ mark. mark ≡ asked_mark (map (λ n. n.now) again.now.keys) (marks.type_fields (E.literals env.now) t.now) name.now) }
{
    let field = asked_number(env, alloc, t, name)?;
    Ok(mark_with(again, name, field))
}

// The marks of some keys, each of which is asked for among the fields of the literal's type.
fn ask_each<E: Literals>(
    env: &E,
    alloc: Global,
    t: &Option<E::Type>,
    again: &BTreeSet<&str>,
    names: &[&str],
) -> Result<Vec<KeyMark>, AllocError>
    ensures { IfOk result (λ all. all.items ≡ map (asked_mark (map (λ n. n.now) again.now.keys) (marks.type_fields (E.literals env.now) t.now)) (map (λ n. n.now) names.now)) }
{
    let mut all = Vec::with_capacity(alloc, names.len())?;
    for name in names {
        let mark = asked_mark(env, alloc, t, again, *name)?;
        all.push(mark)?;
    }
    Ok(all)
}

// Whether the place has an index of the fields of a literal's type.
fn is_indexed<E: Literals>(env: &E, t: &Option<E::Type>) -> bool {
    match t {
        None => false,
        Some(t) => env.has_index(t),
    }
}

// The mark of a key, by the keys that are repeated and the names of fields.
fn searched_mark(again: &BTreeSet<&str>, fields: &Vec<&str>, name: &str) -> KeyMark
    ensures { result ≡ searched_mark (map (λ n. n.now) again.now.keys) (map (λ n. n.now) fields.now.items) name.now }
{
    mark_with(again, name, first_named(fields, name))
}

// The marks of some keys, each of which is looked for among the fields.
fn search_each(
    alloc: Global,
    again: &BTreeSet<&str>,
    fields: &Vec<&str>,
    names: &[&str],
) -> Result<Vec<KeyMark>, AllocError>
    ensures { IfOk result (λ all. all.items ≡ map (searched_mark (map (λ n. n.now) again.now.keys) (map (λ n. n.now) fields.now.items)) (map (λ n. n.now) names.now)) }
{
    let mut all = Vec::with_capacity(alloc, names.len())?;
    for name in names {
        all.push(searched_mark(again, fields, *name))?;
    }
    Ok(all)
}

// The spellings of the fields of a literal's type.
fn names_of<'n, E: Literals>(
    env: &'n E,
    alloc: Global,
    t: &Option<E::Type>,
) -> Result<Vec<&'n str>, AllocError>
    ensures { IfOk result (λ names. map (λ n. n.now) names.items ≡ map (λ f. f.name) (marks.type_fields (E.literals env.now) t.now)) }
{
    match t {
        None => Ok(Vec::new(alloc)),
        Some(t) => env.field_names(alloc, t),
    }
}

/// Of each of the keys of a literal, by their spellings in order, whether another is spelled the same, and which field of the literal's
/// type is. But for a logarithm, time grows with the number of keys alone where the place has an index of the fields; else with that of the
/// fields too, and not with their product.
///
/// The Go specification, "Composite literals".
///
/// # Errors
///
/// `AllocError` where memory is wanting.
pub fn key_marks<E: Literals>(
    env: &E,
    alloc: Global,
    t: &Option<E::Type>,
    names: &[&str],
) -> Result<Vec<KeyMark>, AllocError>
    ensures { IfOk result (λ all. all.items ≡ marks.key_marks (marks.type_fields (E.literals env.now) t.now) (map (λ n. n.now) names.now)) }
{
    if names.is_empty() {
        return Ok(Vec::new(alloc));
    }
    let again = names_again(alloc, names)?;
    if is_indexed(env, t) {
        return ask_each(env, alloc, t, &again, names);
    }
    let fields = names_of(env, alloc, t)?;
    if names.len() < TABLE_FROM {
        return search_each(alloc, &again, &fields, names);
    }
    let numbers = numbers_of(alloc, &fields)?;
    mark_each(alloc, &again, &numbers, names)
}
