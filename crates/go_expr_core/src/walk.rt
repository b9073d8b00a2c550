//! The walk over an expression.
ghost use Rattle.std.specs.Prelude.{◌≡◌, ◌<◌, ◌++◌, [], ◌∷◌, length, slice_set, IfOk, OnOk};
ghost use Rattle.go_tree_core.specs.declared.occurrence.Role.TheVariants as roles;
ghost use Rattle.go_denote_core.specs.declared.things.Stand.TheVariants as stands;
ghost use Rattle.go_denote_core.specs.composite.Literals.{literal_denotes as type_denotes};
ghost use Rattle.go_tree_nodes.specs.Shapes.{shape, items_of, shape_key};
ghost use Rattle.go_tree_nodes.specs.Starts as starts;
ghost use Rattle.go_tree_nodes.specs.TypeShapes.{shape_type};
ghost use Rattle.go_denote_core.specs.composite.Marks.{type_fields};
ghost use Rattle.go_denote_core.specs.Arguments as arguments;
ghost use Rattle.go_denote_core.specs.Calls as calls;
ghost use Rattle.go_denote_core.specs.Look.{look_of};
ghost use Rattle.go_expr_core.specs.Operators as operators;
ghost use Rattle.go_expr_core.specs.Looks.{everywhere};
ghost use Rattle.go_expr_core.specs.Places as places;
ghost use Rattle.go_expr_core.specs.Denoting as denoting;
ghost use Rattle.go_expr_core.specs.Uses as all_uses;
ghost use Rattle.go_expr_core.specs.Faults as all_faults;
ghost use Rattle.go_expr_core.specs.TypeUses as type_uses;
ghost use Rattle.go_expr_core.specs.mirrors.Marked as marks;
ghost use Rattle.go_expr_core.specs.mirrors.Turns as turns;

use crate::elements::{
    answer_call, check_key, is_lone_call, is_mixed, is_several, mark_at, mark_keys, note_misfit,
};
use crate::looks::Exprs;
use crate::names::{check_ident, check_selector, check_type_name};
use crate::notes::{close_call, note_fault, note_judged, note_member, note_single, open_call};
use crate::operators::{binary_of, unary_of};
use crate::places::{
    inside, is_literal, is_name, item_start, left_place, start, under_place, whole,
};
use crate::things::{Notes, Use};
use crate::types::check_type;
use go_constant_core::{Constant, ConstantText, natural};
use go_denote_core::composite::{
    KeyMark, Mode, element_target, literal_denotes, literal_mode, literal_rule,
};
use go_denote_core::operand_core::{Operand, ValueType};
use go_denote_core::text_core::Span;
use go_denote_core::{Denoted, Stand, dot_of};
use go_local_core::Fault;
use go_tree_nodes::token_core::Operator;
use go_tree_nodes::{
    Expr, Ident, Item, Key, TextLiteral, TypeExpr, TypeName, type_name_start, type_start,
};
use std::alloc::{AllocError, Global};

fn untyped<T: Drop, S: Drop, D: Drop>(
    value_type: ValueType<T>,
    constant: Constant,
) -> Denoted<T, S, D>
    ensures { result ≡ denoting.untyped_constant value_type constant }
{
    Denoted::Value(Operand {
        value_type,
        constant: Some(constant),
        addressable: false,
    })
}

// A string literal.
fn text_denotes<T: Drop, S: Drop, D: Drop>(
    alloc: Global,
    text: &TextLiteral,
) -> Result<Denoted<T, S, D>, AllocError>
    ensures { IfOk result (λ d. d ≡ denoting.text_denotes text.now) }
{
    let bytes = text.value(alloc)?;
    let constant = ConstantText::new(alloc, bytes)?;
    Ok(untyped(ValueType::UntypedText, Constant::Text(constant)))
}

// Notes the rule of a binary operator, and answers what it denotes.
fn finish_binary<E: Exprs>(
    env: &E,
    alloc: Global,
    faults: &mut Vec<Fault>,
    operator: Operator,
    offset: usize,
    a: Denoted<E::Type, E::Signature, E::Decl>,
    b: Denoted<E::Type, E::Signature, E::Decl>,
) -> Result<Denoted<E::Type, E::Signature, E::Decl>, AllocError>
    ensures denoted { IfOk result (λ d. d ≡ (operators.binary_of (E.types env.now) operator a b).denoted) }
    ensures faults { OnOk result (faults.new.items ≡ faults.old.items ++ all_faults.fault_at offset (operators.binary_of (E.types env.now) operator a b).fault) }
{
    let judged = binary_of(env, alloc, operator, a, b)?;
    note_judged(faults, offset, judged)
}

// Puts what a call has into the place that was kept, and answers what it denotes.
fn finish_call<E: Exprs>(
    env: &E,
    alloc: Global,
    uses: &mut Vec<Use<E::Decl, E::Path>>,
    at: usize,
    opening: Span,
    callee: &Denoted<E::Type, E::Signature, E::Decl>,
    is_lone: bool,
    members: Vec<Denoted<E::Type, E::Signature, E::Decl>>,
) -> Result<Denoted<E::Type, E::Signature, E::Decl>, AllocError>
    requires { at < length uses.old.items }
    ensures denoted { IfOk result (λ d. d ≡ (calls.call_answer (look_of (E.types env.now) (E.names env.now)) callee.now (arguments.is_free is_lone members.items) (arguments.arguments_of (look_of (E.types env.now) (E.names env.now)) members.items)).denoted) }
    ensures uses { OnOk result (uses.new.items ≡ slice_set uses.old.items at (all_uses.made_use opening.start roles.Call (calls.call_answer (look_of (E.types env.now) (E.names env.now)) callee.now (arguments.is_free is_lone members.items) (arguments.arguments_of (look_of (E.types env.now) (E.names env.now)) members.items)).outcome)) }
{
    let answer = answer_call(env, alloc, callee, is_lone, members)?;
    Ok(close_call(uses, at, opening, answer))
}

/// Notes what the identifiers and the calls of an expression have, in order of their places, and the faults of its parts, and
/// answers what it denotes at its place.
///
/// # Errors
///
/// `AllocError` where memory is wanting; then some may be noted.
#[cycle(check)]
pub fn check_expr<E: Exprs>(
    env: &E,
    alloc: Global,
    place: Stand,
    expr: &Expr,
    notes: &mut Notes<E::Decl, E::Path>,
) -> Result<Denoted<E::Type, E::Signature, E::Decl>, AllocError>
    ensures denoted { IfOk result (λ d. d ≡ denoting.denoted (everywhere (E.types env.now) (E.names env.now) (E.literals env.now) (E.written env.now)) place (shape expr.now)) }
    ensures uses { OnOk result (notes.new.uses.items ≡ notes.old.uses.items ++ all_uses.uses (everywhere (E.types env.now) (E.names env.now) (E.literals env.now) (E.written env.now)) place (shape expr.now)) }
    ensures faults { OnOk result (notes.new.faults.items ≡ notes.old.faults.items ++ all_faults.faults (everywhere (E.types env.now) (E.names env.now) (E.literals env.now) (E.written env.now)) place (shape expr.now)) }
{
    match expr {
        Expr::Integer(n, _) => Ok(untyped(ValueType::UntypedInt, natural(*n))),
        Expr::Text(text) => text_denotes(alloc, text),
        Expr::Name(ident) => check_ident(env, alloc, place, ident, &mut notes.uses),
        Expr::Paren(_, inner, _) => check_expr(env, alloc, inside(place), inner, notes),
        Expr::Unary(operator, span, inner) => {
            check_unary(env, alloc, place, *operator, *span, inner, notes)
        }
        Expr::Binary(binary) => {
            let a = check_operand(env, alloc, Stand::Value, &binary.left, notes)?;
            let b = check_operand(env, alloc, Stand::Value, &binary.right, notes)?;
            let offset = start(&binary.left);
            finish_binary(env, alloc, &mut notes.faults, binary.operator, offset, a, b)
        }
        Expr::Select(select) => {
            check_select(env, alloc, place, &select.operand, &select.name, notes)
        }
        Expr::Call(call) => {
            let callee = check_expr(env, alloc, Stand::Callee, &call.callee, notes)?;
            check_called(env, alloc, &callee, call.open, &call.args, notes)
        }
        Expr::Literal(literal) => {
            check_literal(env, alloc, &literal.type_name, &literal.elements, notes)
        }
        Expr::StructLiteral(literal) => {
            check_struct_literal(env, alloc, &literal.elements, &literal.type_expr, notes)
        }
    }
}

/// Notes what a call has, by what is called, whose opening parenthesis is given, and what its arguments have, and their faults, and answers
/// what it denotes. What stands before the parenthesis is noted before.
///
/// The Go specification, "Calls".
///
/// # Errors
///
/// `AllocError` where memory is wanting; then some may be noted.
#[cycle(check)]
pub fn check_called<E: Exprs>(
    env: &E,
    alloc: Global,
    callee: &Denoted<E::Type, E::Signature, E::Decl>,
    opening: Span,
    args: &Vec<Item>,
    notes: &mut Notes<E::Decl, E::Path>,
) -> Result<Denoted<E::Type, E::Signature, E::Decl>, AllocError>
    ensures denoted { IfOk result (λ d. d ≡ (denoting.answer_by (everywhere (E.types env.now) (E.names env.now) (E.literals env.now) (E.written env.now)) callee.now opening (items_of args.now.items)).denoted) }
    ensures uses { OnOk result (notes.new.uses.items ≡ notes.old.uses.items ++ all_uses.made_use opening.start roles.Call (denoting.answer_by (everywhere (E.types env.now) (E.names env.now) (E.literals env.now) (E.written env.now)) callee.now opening (items_of args.now.items)).outcome ∷ all_uses.args_uses (everywhere (E.types env.now) (E.names env.now) (E.literals env.now) (E.written env.now)) (items_of args.now.items)) }
    ensures faults { OnOk result (notes.new.faults.items ≡ notes.old.faults.items ++ all_faults.args_faults (everywhere (E.types env.now) (E.names env.now) (E.literals env.now) (E.written env.now)) (places.is_several (items_of args.now.items)) (items_of args.now.items)) }
{
    let at = notes.uses.len();
    open_call(&mut notes.uses, opening)?;
    let members = check_args(env, alloc, args, notes)?;
    let is_lone = is_lone_call(args);
    finish_call(
        env,
        alloc,
        &mut notes.uses,
        at,
        opening,
        callee,
        is_lone,
        members,
    )
}

// A literal of a type that is named.
#[cycle(check)]
fn check_literal<E: Exprs>(
    env: &E,
    alloc: Global,
    name: &TypeName,
    items: &Vec<Item>,
    notes: &mut Notes<E::Decl, E::Path>,
) -> Result<Denoted<E::Type, E::Signature, E::Decl>, AllocError>
    ensures denoted { IfOk result (λ d. d ≡ type_denotes (denoting.named_type (everywhere (E.types env.now) (E.names env.now) (E.literals env.now) (E.written env.now)) name.now)) }
    ensures uses { OnOk result (notes.new.uses.items ≡ notes.old.uses.items ++ (all_uses.type_name_uses (everywhere (E.types env.now) (E.names env.now) (E.literals env.now) (E.written env.now)) name.now ++ all_uses.elements_uses (everywhere (E.types env.now) (E.names env.now) (E.literals env.now) (E.written env.now)) (denoting.named_type (everywhere (E.types env.now) (E.names env.now) (E.literals env.now) (E.written env.now)) name.now) (items_of items.now.items))) }
    ensures faults { OnOk result (notes.new.faults.items ≡ notes.old.faults.items ++ all_faults.literal_faults (everywhere (E.types env.now) (E.names env.now) (E.literals env.now) (E.written env.now)) (starts.type_name_start name.now) (denoting.named_type (everywhere (E.types env.now) (E.names env.now) (E.literals env.now) (E.written env.now)) name.now) (items_of items.now.items)) }
{
    let t = check_type_name(env, alloc, name, &mut notes.uses)?;
    check_elements(env, alloc, type_name_start(name), t, items, notes)
}

// A literal of a struct type that is written out.
#[cycle(check)]
fn check_struct_literal<E: Exprs>(
    env: &E,
    alloc: Global,
    items: &Vec<Item>,
    tree: &TypeExpr,
    notes: &mut Notes<E::Decl, E::Path>,
) -> Result<Denoted<E::Type, E::Signature, E::Decl>, AllocError>
    ensures denoted { IfOk result (λ d. d ≡ type_denotes (denoting.written_type (everywhere (E.types env.now) (E.names env.now) (E.literals env.now) (E.written env.now)) (shape_type tree.now))) }
    ensures uses { OnOk result (notes.new.uses.items ≡ notes.old.uses.items ++ (type_uses.type_uses (everywhere (E.types env.now) (E.names env.now) (E.literals env.now) (E.written env.now)) (shape_type tree.now) ++ all_uses.elements_uses (everywhere (E.types env.now) (E.names env.now) (E.literals env.now) (E.written env.now)) (denoting.written_type (everywhere (E.types env.now) (E.names env.now) (E.literals env.now) (E.written env.now)) (shape_type tree.now)) (items_of items.now.items))) }
    ensures faults { OnOk result (notes.new.faults.items ≡ notes.old.faults.items ++ ((E.written env.now).faults_of (denoting.named_type (everywhere (E.types env.now) (E.names env.now) (E.literals env.now) (E.written env.now))) (shape_type tree.now) ++ all_faults.literal_faults (everywhere (E.types env.now) (E.names env.now) (E.literals env.now) (E.written env.now)) (starts.type_start (shape_type tree.now)) (denoting.written_type (everywhere (E.types env.now) (E.names env.now) (E.literals env.now) (E.written env.now)) (shape_type tree.now)) (items_of items.now.items))) }
{
    check_type(env, alloc, tree, &mut notes.uses)?;
    env.add_type_faults(alloc, tree, &mut notes.faults)?;
    let t = env.written(alloc, tree)?;
    check_elements(env, alloc, type_start(tree), t, items, notes)
}

/// Notes what the identifiers and the calls of an operand have, and its faults, and answers what it denotes at its place. What is not one
/// value breaks Y3.
///
/// # Errors
///
/// `AllocError` where memory is wanting; then some may be noted.
#[cycle(check)]
pub fn check_operand<E: Exprs>(
    env: &E,
    alloc: Global,
    place: Stand,
    expr: &Expr,
    notes: &mut Notes<E::Decl, E::Path>,
) -> Result<Denoted<E::Type, E::Signature, E::Decl>, AllocError>
    ensures denoted { IfOk result (λ d. d ≡ denoting.denoted (everywhere (E.types env.now) (E.names env.now) (E.literals env.now) (E.written env.now)) place (shape expr.now)) }
    ensures uses { OnOk result (notes.new.uses.items ≡ notes.old.uses.items ++ all_uses.uses (everywhere (E.types env.now) (E.names env.now) (E.literals env.now) (E.written env.now)) place (shape expr.now)) }
    ensures faults { OnOk result (notes.new.faults.items ≡ notes.old.faults.items ++ all_faults.operand_faults (everywhere (E.types env.now) (E.names env.now) (E.literals env.now) (E.written env.now)) place (shape expr.now)) }
{
    let denoted = check_expr(env, alloc, place, expr, notes)?;
    note_single(&mut notes.faults, start(expr), &denoted)?;
    Ok(denoted)
}

#[cycle(check)]
fn check_unary<E: Exprs>(
    env: &E,
    alloc: Global,
    place: Stand,
    operator: Operator,
    span: Span,
    inner: &Expr,
    notes: &mut Notes<E::Decl, E::Path>,
) -> Result<Denoted<E::Type, E::Signature, E::Decl>, AllocError>
    ensures denoted { IfOk result (λ d. d ≡ (denoting.unary_judged (everywhere (E.types env.now) (E.names env.now) (E.literals env.now) (E.written env.now)) place operator (shape inner.now)).denoted) }
    ensures uses { OnOk result (notes.new.uses.items ≡ notes.old.uses.items ++ all_uses.uses (everywhere (E.types env.now) (E.names env.now) (E.literals env.now) (E.written env.now)) (places.under_place operator place) (shape inner.now)) }
    ensures faults { OnOk result (notes.new.faults.items ≡ notes.old.faults.items ++ all_faults.unary_faults (everywhere (E.types env.now) (E.names env.now) (E.literals env.now) (E.written env.now)) place operator span (shape inner.now)) }
{
    let operand = check_operand(env, alloc, under_place(operator, place), inner, notes)?;
    let judged = unary_of(env, alloc, operator, is_literal(inner), operand)?;
    note_judged(&mut notes.faults, span.start as usize, judged)
}

#[cycle(check)]
fn check_select<E: Exprs>(
    env: &E,
    alloc: Global,
    place: Stand,
    operand: &Expr,
    ident: &Ident,
    notes: &mut Notes<E::Decl, E::Path>,
) -> Result<Denoted<E::Type, E::Signature, E::Decl>, AllocError>
    ensures denoted { IfOk result (λ d. d ≡ (denoting.select_answer (everywhere (E.types env.now) (E.names env.now) (E.literals env.now) (E.written env.now)) place (shape operand.now) ident.now).denoted) }
    ensures uses { OnOk result (notes.new.uses.items ≡ notes.old.uses.items ++ all_uses.select_uses (everywhere (E.types env.now) (E.names env.now) (E.literals env.now) (E.written env.now)) place (shape operand.now) ident.now) }
    ensures faults { OnOk result (notes.new.faults.items ≡ notes.old.faults.items ++ all_faults.faults (everywhere (E.types env.now) (E.names env.now) (E.literals env.now) (E.written env.now)) (places.left_place place (shape operand.now)) (shape operand.now)) }
{
    let left = check_expr(env, alloc, left_place(place, operand), operand, notes)?;
    let dot = dot_of(is_name(operand), left);
    check_selector(env, alloc, whole(place), &dot, ident, &mut notes.uses)
}

// The arguments of a call.
#[cycle(check)]
fn check_args<E: Exprs>(
    env: &E,
    alloc: Global,
    items: &Vec<Item>,
    notes: &mut Notes<E::Decl, E::Path>,
) -> Result<Vec<Denoted<E::Type, E::Signature, E::Decl>>, AllocError>
    ensures denoted { IfOk result (λ ds. ds.items ≡ denoting.denoted_items (everywhere (E.types env.now) (E.names env.now) (E.literals env.now) (E.written env.now)) (items_of items.now.items)) }
    ensures uses { OnOk result (notes.new.uses.items ≡ notes.old.uses.items ++ all_uses.args_uses (everywhere (E.types env.now) (E.names env.now) (E.literals env.now) (E.written env.now)) (items_of items.now.items)) }
    ensures faults { OnOk result (notes.new.faults.items ≡ notes.old.faults.items ++ all_faults.args_faults (everywhere (E.types env.now) (E.names env.now) (E.literals env.now) (E.written env.now)) (places.is_several (items_of items.now.items)) (items_of items.now.items)) }
{
    let several = is_several(items);
    let mut members = Vec::new(alloc);
    for item in items {
        let denoted = check_member(env, alloc, several, &item.value, notes)?;
        members.push(denoted)?;
    }
    Ok(members)
}

/// A member of a list of expressions.
#[cycle(check)]
pub(crate) fn check_member<E: Exprs>(
    env: &E,
    alloc: Global,
    several: bool,
    expr: &Expr,
    notes: &mut Notes<E::Decl, E::Path>,
) -> Result<Denoted<E::Type, E::Signature, E::Decl>, AllocError>
    ensures denoted { IfOk result (λ d. d ≡ denoting.denoted (everywhere (E.types env.now) (E.names env.now) (E.literals env.now) (E.written env.now)) stands.«Value» (shape expr.now)) }
    ensures uses { OnOk result (notes.new.uses.items ≡ notes.old.uses.items ++ all_uses.uses (everywhere (E.types env.now) (E.names env.now) (E.literals env.now) (E.written env.now)) stands.«Value» (shape expr.now)) }
    ensures faults { OnOk result (notes.new.faults.items ≡ notes.old.faults.items ++ all_faults.member_faults (everywhere (E.types env.now) (E.names env.now) (E.literals env.now) (E.written env.now)) several (shape expr.now)) }
{
    let denoted = check_expr(env, alloc, Stand::Value, expr, notes)?;
    note_member(&mut notes.faults, start(expr), several, &denoted)?;
    Ok(denoted)
}

// The elements of a literal of a type whose first byte is at an offset, and what the literal denotes.
#[cycle(check)]
fn check_elements<E: Exprs>(
    env: &E,
    alloc: Global,
    offset: usize,
    t: Option<E::Type>,
    items: &Vec<Item>,
    notes: &mut Notes<E::Decl, E::Path>,
) -> Result<Denoted<E::Type, E::Signature, E::Decl>, AllocError>
    ensures denoted { IfOk result (λ d. d ≡ type_denotes t) }
    ensures uses { OnOk result (notes.new.uses.items ≡ notes.old.uses.items ++ all_uses.elements_uses (everywhere (E.types env.now) (E.names env.now) (E.literals env.now) (E.written env.now)) t (items_of items.now.items)) }
    ensures faults { OnOk result (notes.new.faults.items ≡ notes.old.faults.items ++ all_faults.literal_faults (everywhere (E.types env.now) (E.names env.now) (E.literals env.now) (E.written env.now)) offset t (items_of items.now.items)) }
{
    let marks = mark_keys(env, alloc, &t, items)?;
    let rule = literal_rule(env, &t, marks.keys, items.len());
    let mode = literal_mode(env, &t, marks.keys, items.len());
    note_fault(&mut notes.faults, offset, rule)?;
    check_each(
        env,
        alloc,
        &t,
        mode,
        is_mixed(marks.keys),
        &marks.marks,
        items,
        notes,
    )?;
    Ok(literal_denotes(t))
}

// Each element of a literal.
#[cycle(check)]
fn check_each<E: Exprs>(
    env: &E,
    alloc: Global,
    t: &Option<E::Type>,
    mode: Mode,
    mixed: bool,
    key_marks: &[KeyMark],
    items: &Vec<Item>,
    notes: &mut Notes<E::Decl, E::Path>,
) -> Result<(), AllocError>
    requires { key_marks.now ≡ marks.marks_of (type_fields (E.literals env.now) t.now) [] (items_of items.now.items) }
    ensures uses { OnOk result (notes.new.uses.items ≡ notes.old.uses.items ++ all_uses.items_uses (everywhere (E.types env.now) (E.names env.now) (E.literals env.now) (E.written env.now)) t.now mixed [] (items_of items.now.items)) }
    ensures faults { OnOk result (notes.new.faults.items ≡ notes.old.faults.items ++ all_faults.items_faults (everywhere (E.types env.now) (E.names env.now) (E.literals env.now) (E.written env.now)) t.now mode mixed 0 [] (items_of items.now.items)) }
{
    for (at, item) in items.iter().enumerate() {
        check_element(
            env,
            alloc,
            t,
            mode,
            mixed,
            at,
            mark_at(key_marks, at),
            &item.key,
            &item.value,
            notes,
        )?;
    }
    Ok(())
}

// One element of a literal, behind so many others.
#[cycle(check)]
fn check_element<E: Exprs>(
    env: &E,
    alloc: Global,
    t: &Option<E::Type>,
    mode: Mode,
    mixed: bool,
    number: usize,
    mark: KeyMark,
    key: &Option<Box<Key>>,
    value: &Expr,
    notes: &mut Notes<E::Decl, E::Path>,
) -> Result<(), AllocError>
    ensures uses { OnOk result (notes.new.uses.items ≡ notes.old.uses.items ++ turns.turn_uses (everywhere (E.types env.now) (E.names env.now) (E.literals env.now) (E.written env.now)) t.now mixed mark (shape_key key.now) (shape value.now)) }
    ensures faults { OnOk result (notes.new.faults.items ≡ notes.old.faults.items ++ turns.turn_faults (everywhere (E.types env.now) (E.names env.now) (E.literals env.now) (E.written env.now)) t.now mode mixed number mark (shape_key key.now) (shape value.now)) }
{
    let by_key = check_key(env, alloc, t, mixed, mark, key, &mut notes.uses)?;
    let denoted = check_operand(env, alloc, Stand::Value, value, notes)?;
    let wanted = element_target(env, t, mode, number, by_key);
    note_misfit(
        env,
        alloc,
        &mut notes.faults,
        item_start(key, value),
        &wanted,
        &denoted,
    )
}
