//! What selectors have.
ghost use Rattle.std.specs.Prelude.{◌≡◌, IfOk};
ghost use Rattle.go_denote_core.specs.Look.{look_of};
ghost use Rattle.go_denote_core.specs.Selectors as selectors;
ghost use Rattle.go_operand_core.specs.Values as values;

use crate::answers::{func_answer, refused, type_answer, value_answer, value_of_type};
use crate::looks::Names;
use crate::things::{Answer, Denoted, Dot, Exported, Outcome, Selection, Stand};
use go_operand_core::{Operand, default_type};
use go_text_core::Rule;
use go_tree_nodes::Usage;
use std::alloc::{AllocError, Global};

/// What stands left of a dot, by what it denotes, and whether it is a name alone.
pub fn dot_of<T: Drop, S: Drop, D: Drop>(is_name: bool, denoted: Denoted<T, S, D>) -> Dot<T, D>
    ensures { result ≡ selectors.dot_of is_name denoted }
{
    match denoted {
        Denoted::Package(decl) => Dot::Package(decl),
        Denoted::Value(operand) => Dot::Value(operand),
        Denoted::Refused => { if is_name { Dot::Refused } else { Dot::Untyped } }
        Denoted::Typeless
        | Denoted::Type(_, _)
        | Denoted::Several(_)
        | Denoted::Nothing
        | Denoted::Func(_, _)
        | Denoted::Builtin(_, _) => Dot::Untyped,
    }
}

fn place_of(usage: Usage) -> Stand
    ensures { result ≡ selectors.usage_place usage }
{
    match usage {
        Usage::Type => Stand::Type,
        Usage::Value => Stand::Value,
        Usage::Callee => Stand::Callee,
    }
}

fn exported_answer<E: Names>(
    env: &E,
    usage: Usage,
    exported: Exported<E::Type, E::Signature, E::Decl>,
) -> Answer<E::Type, E::Signature, E::Decl, E::Path>
    ensures { result ≡ selectors.exported_answer usage exported }
{
    match exported {
        Exported::Absent => refused(Rule::N3),
        Exported::Hidden => refused(Rule::N2),
        Exported::Type(decl, t) => type_answer(env, place_of(usage), decl, t),
        Exported::Func(decl, s) => func_answer(
            place_of(usage),
            env.again_decl(&decl),
            Denoted::Func(decl, s),
        ),
        Exported::Value(decl, value) => value_answer(place_of(usage), decl, value),
    }
}

// A member, by the embedded fields that lead to it.
fn selected<T: Drop, S: Drop, D: Drop, P: Drop>(
    decl: D,
    path: P,
    denoted: Denoted<T, S, D>,
) -> Answer<T, S, D, P>
    ensures { result ≡ selectors.selected decl path denoted }
{
    Answer {
        outcome: Outcome::Selected(decl, path),
        denoted,
    }
}

fn field_answer<T: Drop, S: Drop, D: Drop, P: Drop>(
    usage: Usage,
    decl: D,
    path: P,
    t: Option<T>,
    is_addressable: bool,
) -> Answer<T, S, D, P>
    ensures { result ≡ selectors.field_answer usage decl path t is_addressable }
{
    match usage {
        Usage::Callee => refused(Rule::C1),
        Usage::Type | Usage::Value => selected(decl, path, value_of_type(is_addressable, t)),
    }
}

fn method_answer<E: Names>(
    env: &E,
    usage: Usage,
    decl: E::Decl,
    path: E::Path,
    signature: E::Signature,
    has_receiver: bool,
) -> Answer<E::Type, E::Signature, E::Decl, E::Path>
    ensures { result ≡ selectors.method_answer usage decl path signature has_receiver }
{
    match usage {
        Usage::Type | Usage::Value => refused(Rule::X1),
        Usage::Callee => {
            if has_receiver {
                selected(env.again_decl(&decl), path, Denoted::Func(decl, signature))
            } else {
                refused(Rule::S5)
            }
        }
    }
}

fn member_answer<E: Names>(
    env: &E,
    usage: Usage,
    is_addressable: bool,
    selection: Selection<E::Type, E::Signature, E::Decl, E::Path>,
) -> Answer<E::Type, E::Signature, E::Decl, E::Path>
    ensures { result ≡ selectors.member_answer usage is_addressable selection }
{
    match selection {
        Selection::Missing(rule) => refused(rule),
        Selection::Field(decl, path, t, by_pointer) => {
            field_answer(usage, decl, path, t, by_pointer || is_addressable)
        }
        Selection::Method(decl, path, signature, needs_pointer, by_pointer) => {
            let has_receiver = !needs_pointer || (by_pointer || is_addressable);
            method_answer(env, usage, decl, path, signature, has_receiver)
        }
    }
}

fn value_selector<E: Names>(
    env: &E,
    alloc: Global,
    usage: Usage,
    operand: &Operand<E::Type>,
    name: &str,
) -> Result<Answer<E::Type, E::Signature, E::Decl, E::Path>, AllocError>
    ensures { IfOk result (λ answer. answer ≡ selectors.value_selector (look_of (E.types env.now) (E.names env.now)) usage operand.now.addressable (values.default_type (E.types env.now) operand.now.value_type) name.now) }
{
    match default_type(env, &operand.value_type) {
        None => Ok(refused(Rule::S6)),
        Some(t) => {
            let selection = env.select(alloc, &t, name)?;
            Ok(member_answer(env, usage, operand.addressable, selection))
        }
    }
}

/// What a selector has behind what stands left of its dot, and what it denotes.
///
/// The first of these rules that it breaks, or else its declaration. After a package: S8, it is `_`; N3, the package does not declare
/// it; N2, it is not exported; N5, it denotes a type and the whole is an operand; N6, it denotes no type where one is wanted; C1, it
/// is called and denotes a value; X1, it denotes a function and is not called. After a value: S8; S4, what stands left of the dot has
/// not one type; then the rule by which no member is selected; C1, it is called and denotes a field; X1, it denotes a method and is
/// not called; S5, it denotes a method with a pointer receiver, no pointer is passed, and the operand is not addressable. After a
/// name alone that is refused: S4. A field that has no type is selected, and denotes no value.
///
/// # Errors
///
/// `AllocError` where memory is wanting.
pub fn selector_answer<E: Names>(
    env: &E,
    alloc: Global,
    usage: Usage,
    dot: &Dot<E::Type, E::Decl>,
    name: &str,
) -> Result<Answer<E::Type, E::Signature, E::Decl, E::Path>, AllocError>
    ensures { IfOk result (λ answer. answer ≡ selectors.selector_answer (look_of (E.types env.now) (E.names env.now)) usage dot.now name.now) }
{
    match dot {
        Dot::Refused => Ok(refused(Rule::S4)),
        Dot::Untyped => Ok(refused(if name == "_" { Rule::S8 } else { Rule::S4 })),
        Dot::Package(decl) => {
            if name == "_" {
                return Ok(refused(Rule::S8));
            }
            Ok(exported_answer(env, usage, env.exported(alloc, decl, name)?))
        }
        Dot::Value(operand) => {
            if name == "_" {
                return Ok(refused(Rule::S8));
            }
            value_selector(env, alloc, usage, operand, name)
        }
    }
}
