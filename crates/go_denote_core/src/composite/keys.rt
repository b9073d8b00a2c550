//! Keys of composite literals.
ghost use Rattle.std.specs.Prelude.{◌≡◌, IfOk};
ghost use Rattle.go_denote_core.specs.composite.Look.{literal_look_of};
ghost use Rattle.go_denote_core.specs.composite.Keys as keys;
ghost use Rattle.go_denote_core.specs.composite.Fields as fields;
ghost use Rattle.go_denote_core.specs.composite.Marks as marks;

use crate::composite::literals::is_struct;
use crate::composite::looks::Literals;
use crate::composite::things::{KeyAnswer, KeyMark, LiteralField, NamedField};
use crate::{Outcome, Selection};
use go_text_core::Rule;
use std::alloc::{AllocError, Global};

// A rule that a key breaks.
fn refused_key<T: Drop, D: Drop, P: Drop>(rule: Rule) -> KeyAnswer<T, D, P>
    ensures { result ≡ keys.refused_key rule }
{
    KeyAnswer {
        outcome: Outcome::Refused(rule),
        target: None,
    }
}

// The field that a key names.
fn field_key<T: Drop, D: Drop, P: Drop>(field: LiteralField<T, D>) -> KeyAnswer<T, D, P>
    ensures { result ≡ keys.field_key field }
{
    KeyAnswer {
        outcome: Outcome::Declared(field.decl),
        target: field.field_type,
    }
}

// The rule that the name of no field breaks, by the member that its selector chooses.
fn missing_rule<T: Drop, S: Drop, D: Drop, P: Drop>(selection: Selection<T, S, D, P>) -> Rule
    ensures { result ≡ keys.missing_rule selection }
{
    match selection {
        Selection::Field(_, _, _, _) => Rule::F3,
        Selection::Missing(_) | Selection::Method(_, _, _, _, _) => Rule::F1,
    }
}

// A field that a name names.
fn shown_field<T: Drop, D: Drop>(field: LiteralField<T, D>) -> NamedField<T, D>
    ensures { result ≡ fields.shown_field field.is_visible field }
{
    if field.is_visible {
        NamedField::Visible(field)
    } else {
        NamedField::Hidden
    }
}

// The field of a number, if there is one.
fn numbered_field<E: Literals>(
    env: &E,
    t: &E::Type,
    number: Option<usize>,
) -> NamedField<E::Type, E::Decl>
    ensures { result ≡ marks.numbered_field ((E.literals env.now).fields t.now) number }
{
    match number {
        None => NamedField::Missing,
        Some(at) => {
            if at < env.field_count(t) {
                shown_field(env.field_at(t, at))
            } else {
                NamedField::Missing
            }
        }
    }
}

// A key other than `_` of a struct type, where each element has one.
fn named_key<E: Literals>(
    env: &E,
    alloc: Global,
    t: &E::Type,
    mark: KeyMark,
    name: &str,
) -> Result<KeyAnswer<E::Type, E::Decl, E::Path>, AllocError>
    ensures { IfOk result (λ answer. answer ≡ marks.marked_key (literal_look_of (E.types env.now) (E.names env.now) (E.literals env.now)) t.now mark name.now) }
{
    match numbered_field(env, t, mark.field) {
        NamedField::Hidden => Ok(refused_key(Rule::F2)),
        NamedField::Missing => Ok(refused_key(missing_rule(env.select(alloc, t, name)?))),
        NamedField::Visible(field) => {
            if mark.is_repeated {
                Ok(refused_key(Rule::F4))
            } else {
                Ok(field_key(field))
            }
        }
    }
}

// A key of a struct type.
fn struct_key<E: Literals>(
    env: &E,
    alloc: Global,
    t: &E::Type,
    is_mixed: bool,
    mark: KeyMark,
    name: &str,
) -> Result<KeyAnswer<E::Type, E::Decl, E::Path>, AllocError>
    ensures { IfOk result (λ answer. answer ≡ marks.marked_struct_key (literal_look_of (E.types env.now) (E.names env.now) (E.literals env.now)) t.now is_mixed mark name.now) }
{
    if is_mixed {
        return Ok(refused_key(Rule::F5));
    }
    if name == "_" {
        return Ok(refused_key(Rule::F1));
    }
    named_key(env, alloc, t, mark, name)
}

/// What a key of a literal has, by its mark, and the type that its element is to be assignable to.
///
/// The first of these rules that it breaks, or else the declaration of the field that it names: F8, the literal's type is refused or
/// no struct type; F5, some elements have keys and some have not; F2, the field of its name is non-exported and of another package;
/// F3, no field of the type is of its name, but a promoted one; F1, no field is of its name, or it is `_`; F4, another key of the
/// literal is spelled the same. The Go specification, "Composite literals".
///
/// # Errors
///
/// `AllocError` where memory is wanting.
pub fn key_answer<E: Literals>(
    env: &E,
    alloc: Global,
    t: &Option<E::Type>,
    is_mixed: bool,
    mark: KeyMark,
    name: &str,
) -> Result<KeyAnswer<E::Type, E::Decl, E::Path>, AllocError>
    ensures { IfOk result (λ answer. answer ≡ marks.marked_answer (literal_look_of (E.types env.now) (E.names env.now) (E.literals env.now)) t.now is_mixed mark name.now) }
{
    match t {
        None => Ok(refused_key(Rule::F8)),
        Some(t) => {
            if is_struct(env, t) {
                struct_key(env, alloc, t, is_mixed, mark, name)
            } else {
                Ok(refused_key(Rule::F8))
            }
        }
    }
}
