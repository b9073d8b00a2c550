//! Keys and elements of composite literals, and lists of arguments.
ghost use Rattle.std.specs.Prelude.{◌≡◌, ◌++◌, [], ◌∷◌, map, get_or, IfOk, OnOk};
ghost use Rattle.go_tree_nodes.specs.Shapes.{items_of, shape_key};
ghost use Rattle.go_denote_core.specs.Arguments as arguments;
ghost use Rattle.go_denote_core.specs.Calls as calls;
ghost use Rattle.go_denote_core.specs.Look.{look_of};
ghost use Rattle.go_denote_core.specs.composite.Marks.{type_fields};
ghost use Rattle.go_expr_core.specs.Looks.{everywhere};
ghost use Rattle.go_expr_core.specs.Places as places;
ghost use Rattle.go_expr_core.specs.Elements as elements;
ghost use Rattle.go_expr_core.specs.Faults as all_faults;
ghost use Rattle.go_expr_core.specs.mirrors.Marked as marks;
ghost use Rattle.go_expr_core.specs.mirrors.Turns as turns;

use crate::looks::Exprs;
use crate::notes::{note_fault, note_use};
use crate::places::is_call;
use crate::things::Use;
use go_denote_core::composite::{KeyMark, Keys, key_answer, key_marks, keys_among, misfits};
use go_denote_core::text_core::Rule;
use go_denote_core::{Answer, Denoted, arguments_of, call_answer, is_free};
use go_local_core::Fault;
use go_tree_core::Role;
use go_tree_nodes::{Item, Key};
use std::alloc::{AllocError, Global};

/// Whether there are more than one.
pub(crate) fn is_several(items: &Vec<Item>) -> bool
    ensures { result ≡ places.is_several (items_of items.now.items) }
{
    match items.as_slice() {
        [] => false,
        [_] => false,
        _ => true,
    }
}

/// Whether the only argument is a call.
pub(crate) fn is_lone_call(items: &Vec<Item>) -> bool
    ensures { result ≡ places.is_lone_call (items_of items.now.items) }
{
    match items.as_slice() {
        [item] => is_call(&item.value),
        _ => false,
    }
}

/// What a call has, by what it calls, what its arguments denote, and whether the only one is a call.
pub(crate) fn answer_call<E: Exprs>(
    env: &E,
    alloc: Global,
    callee: &Denoted<E::Type, E::Signature, E::Decl>,
    is_lone_call: bool,
    members: Vec<Denoted<E::Type, E::Signature, E::Decl>>,
) -> Result<Answer<E::Type, E::Signature, E::Decl, E::Path>, AllocError>
    ensures { IfOk result (λ a. a ≡ calls.call_answer (look_of (E.types env.now) (E.names env.now)) callee.now (arguments.is_free is_lone_call members.items) (arguments.arguments_of (look_of (E.types env.now) (E.names env.now)) members.items)) }
{
    let free = is_free(is_lone_call, &members);
    let given = arguments_of(env, alloc, members)?;
    call_answer(env, alloc, callee, free, given)
}

// The spellings of the keys.
fn key_names(alloc: Global, items: &Vec<Item>) -> Result<Vec<&str>, AllocError>
    ensures { IfOk result (λ names. map (λ n. n.now) names.items ≡ elements.all_keys (items_of items.now.items)) }
{
    let mut names = Vec::new(alloc);
    for item in items {
        match &item.key {
            None => {}
            Some(key) => names.push(key.name.name.as_str())?,
        }
    }
    Ok(names)
}

// The mark of an element without a key.
fn unmarked() -> KeyMark
    ensures { result ≡ marks.unmarked }
{
    KeyMark {
        is_repeated: false,
        field: None,
    }
}

// The marks of keys, put to the elements that have them.
fn spread(alloc: Global, known: &[KeyMark], items: &Vec<Item>) -> Result<Vec<KeyMark>, AllocError>
    ensures { IfOk result (λ all. all.items ≡ marks.spread known.now (items_of items.now.items)) }
{
    let mut all = Vec::new(alloc);
    let mut rest = known;
    for item in items {
        match &item.key {
            None => all.push(unmarked())?,
            Some(_) => match rest.split_first() {
                None => all.push(unmarked())?,
                Some((first, more)) => {
                    all.push(*first)?;
                    rest = more;
                }
            },
        }
    }
    Ok(all)
}

/// Which elements of a literal have keys, and the mark of the key of each.
#[derive(Drop)]
pub struct KeyMarks {
    pub keys: Keys,
    pub marks: Vec<KeyMark>,
}

/// The marks of the keys of a literal of a type. Time grows with the number of elements and, where one has a key, with the number of
/// fields.
pub(crate) fn mark_keys<E: Exprs>(
    env: &E,
    alloc: Global,
    t: &Option<E::Type>,
    items: &Vec<Item>,
) -> Result<KeyMarks, AllocError>
    ensures keys { IfOk result (λ m. m.keys ≡ elements.keys_of (items_of items.now.items)) }
    ensures marks { IfOk result (λ m. m.marks.items ≡ marks.marks_of (type_fields (E.literals env.now) t.now) [] (items_of items.now.items)) }
{
    let names = key_names(alloc, items)?;
    let keys = keys_among(items.len(), names.len());
    let known = key_marks(env, alloc, t, &names)?;
    let marks = spread(alloc, &known, items)?;
    Ok(KeyMarks { keys, marks })
}

/// Whether some elements have keys and some have not.
pub(crate) fn is_mixed(keys: Keys) -> bool
    ensures { result ≡ elements.is_mixed keys }
{
    match keys {
        Keys::Some => true,
        Keys::All => false,
        Keys::None => false,
    }
}

/// A mark by its number.
pub(crate) fn mark_at(all: &[KeyMark], at: usize) -> KeyMark
    ensures { result ≡ get_or all.now at marks.unmarked }
{
    match all.get(at) {
        None => unmarked(),
        Some(mark) => *mark,
    }
}

/// Notes what the key of an element has, if it has one, and answers the type of the field that it names.
pub(crate) fn check_key<E: Exprs>(
    env: &E,
    alloc: Global,
    t: &Option<E::Type>,
    is_mixed: bool,
    mark: KeyMark,
    key: &Option<Box<Key>>,
    uses: &mut Vec<Use<E::Decl, E::Path>>,
) -> Result<Option<E::Type>, AllocError>
    ensures target { IfOk result (λ wanted. wanted ≡ turns.key_target_marked (everywhere (E.types env.now) (E.names env.now) (E.literals env.now) (E.written env.now)) t.now is_mixed mark (shape_key key.now)) }
    ensures uses { OnOk result (uses.new.items ≡ uses.old.items ++ turns.key_uses_marked (everywhere (E.types env.now) (E.names env.now) (E.literals env.now) (E.written env.now)) t.now is_mixed mark (shape_key key.now)) }
{
    match key {
        None => Ok(None),
        Some(key) => {
            let answer = key_answer(env, alloc, t, is_mixed, mark, key.name.name.as_str())?;
            note_use(
                uses,
                key.name.span.start as usize,
                Role::Key,
                answer.outcome,
            )?;
            Ok(answer.target)
        }
    }
}

/// Notes an element that is not assignable to the type that is wanted.
pub(crate) fn note_misfit<E: Exprs>(
    env: &E,
    alloc: Global,
    faults: &mut Vec<Fault>,
    offset: usize,
    wanted: &Option<E::Type>,
    denoted: &Denoted<E::Type, E::Signature, E::Decl>,
) -> Result<(), AllocError>
    ensures { (place : _) → OnOk result (faults.new.items ≡ faults.old.items ++ all_faults.fault_at offset (elements.element_rule (everywhere (E.types env.now) (E.names env.now) (E.literals env.now) (E.written env.now)) place wanted.now denoted.now)) }
{
    if misfits(env, alloc, wanted, denoted)? {
        note_fault(faults, offset, Some(Rule::Y4))
    } else {
        Ok(())
    }
}
