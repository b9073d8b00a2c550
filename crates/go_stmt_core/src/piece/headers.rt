//! Receivers, parameters and results.
ghost use Rattle.std.specs.Prelude.{◌≡◌, ◌++◌, IfOk, OnOk, map, replicate};
ghost use Rattle.go_tree_nodes.specs.TypeShapes.{shape_names, shape_results, shape_signature, params_of};
ghost use Rattle.go_tree_nodes.specs.Rules.{is_grouped};
ghost use Rattle.go_expr_core.specs.Looks.{everywhere};
ghost use Rattle.go_stmt_core.specs.piece.Values as values;
ghost use Rattle.go_stmt_core.specs.piece.Headers as headers;

use crate::piece::types::{make_type, variables};
use crate::piece::variables::count_names;
use crate::statement::some_type_again;
use go_constant_core::text_core::Span;
use go_expr_core::local_core::Fault;
use go_expr_core::operand_core::{Operand, TypeLooks};
use go_expr_core::{Exprs, Notes, check_signature, check_type_name};
use go_tree_nodes::{Idents, Param, Receiver, Results, Signature};
use std::alloc::{AllocError, Global};

// A type behind a star, if one stands there.
fn starred<E: TypeLooks>(
    env: &E,
    alloc: Global,
    star: &Option<Span>,
    t: Option<E::Type>,
) -> Result<Option<E::Type>, AllocError>
    ensures { IfOk result (λ p. p ≡ headers.some_starred (E.types env.now) star.now t) }
{
    if star.is_none() {
        return Ok(t);
    }
    match t {
        None => Ok(None),
        Some(t) => Ok(Some(env.pointer_to(alloc, &t)?)),
    }
}

// Adds the type of a receiver that has a name.
fn add_receiver<E: Exprs>(
    env: &E,
    alloc: Global,
    receiver: &Option<Receiver>,
    types: &mut Vec<Option<E::Type>>,
    notes: &mut Notes<E::Decl, E::Path>,
) -> Result<(), AllocError>
    ensures types { OnOk result (types.new.items ≡ types.old.items ++ headers.receiver_types (everywhere (E.types env.now) (E.names env.now) (E.literals env.now) (E.written env.now)) receiver.now) }
    ensures uses { OnOk result (notes.new.uses.items ≡ notes.old.uses.items ++ headers.receiver_uses (everywhere (E.types env.now) (E.names env.now) (E.literals env.now) (E.written env.now)) receiver.now) }
    ensures faults { OnOk result (notes.new.faults.items ≡ notes.old.faults.items) }
{
    match receiver {
        None => Ok(()),
        Some(receiver) => {
            let base = check_type_name(env, alloc, &receiver.base, &mut notes.uses)?;
            if receiver.name.is_none() {
                return Ok(());
            }
            let t = starred(env, alloc, &receiver.star, base)?;
            types.push(t)?;
            Ok(())
        }
    }
}

// Adds a type so many times.
fn add_again<E: TypeLooks>(
    env: &E,
    count: usize,
    t: &Option<E::Type>,
    types: &mut Vec<Option<E::Type>>,
) -> Result<(), AllocError>
    ensures { OnOk result (types.new.items ≡ types.old.items ++ replicate count t.now) }
{
    for _ in 0..count {
        types.push(some_type_again(env, t))?;
    }
    Ok(())
}

// Adds the type of an entry once for each name, and where it has none once or never.
fn add_entry<E: TypeLooks>(
    env: &E,
    is_each: bool,
    names: &Option<Idents>,
    t: Option<E::Type>,
    types: &mut Vec<Option<E::Type>>,
) -> Result<(), AllocError>
    ensures { OnOk result (types.new.items ≡ types.old.items ++ headers.of_entry is_each (shape_names names.now) t) }
{
    match names {
        Some(names) => add_again(env, count_names(names), &t, types),
        None => {
            if is_each {
                types.push(t)?;
            }
            Ok(())
        }
    }
}

// Adds the types of parameters: those of their names, or those of all.
fn add_params<E: Exprs>(
    env: &E,
    alloc: Global,
    is_each: bool,
    params: &Vec<Param>,
    types: &mut Vec<Option<E::Type>>,
    faults: &mut Vec<Fault>,
) -> Result<(), AllocError>
    ensures types { OnOk result (types.new.items ≡ types.old.items ++ headers.entry_types (everywhere (E.types env.now) (E.names env.now) (E.literals env.now) (E.written env.now)) is_each (params_of params.now.items)) }
    ensures faults { OnOk result (faults.new.items ≡ faults.old.items ++ headers.params_faults (everywhere (E.types env.now) (E.names env.now) (E.literals env.now) (E.written env.now)) (params_of params.now.items)) }
{
    for param in params {
        let t = make_type(env, alloc, &param.type_expr, faults)?;
        add_entry(env, is_each, &param.names, t, types)?;
    }
    Ok(())
}

// Adds the types of results: those of their names, or those of all.
fn add_results<E: Exprs>(
    env: &E,
    alloc: Global,
    is_each: bool,
    results: &Results,
    types: &mut Vec<Option<E::Type>>,
    faults: &mut Vec<Fault>,
) -> Result<(), AllocError>
    ensures types { OnOk result (types.new.items ≡ types.old.items ++ headers.types_of_result (everywhere (E.types env.now) (E.names env.now) (E.literals env.now) (E.written env.now)) is_each (shape_results results.now)) }
    ensures faults { OnOk result (faults.new.items ≡ faults.old.items ++ headers.result_faults (everywhere (E.types env.now) (E.names env.now) (E.literals env.now) (E.written env.now)) (shape_results results.now)) }
{
    match results {
        Results::Nothing => Ok(()),
        Results::Single(tree) => {
            let t = make_type(env, alloc, tree, faults)?;
            add_entry(env, is_each, &None, t, types)
        }
        Results::Listed(params) => {
            add_params(env, alloc, is_each, &params.entries, types, faults)
        }
    }
}

// Adds the types of the names of parameters and results.
fn add_signature<E: Exprs>(
    env: &E,
    alloc: Global,
    signature: &Signature,
    types: &mut Vec<Option<E::Type>>,
    faults: &mut Vec<Fault>,
) -> Result<(), AllocError>
    ensures types { OnOk result (types.new.items ≡ types.old.items ++ headers.types_of_signature (everywhere (E.types env.now) (E.names env.now) (E.literals env.now) (E.written env.now)) (shape_signature signature.now)) }
    ensures faults { OnOk result (faults.new.items ≡ faults.old.items ++ headers.signature_faults (everywhere (E.types env.now) (E.names env.now) (E.literals env.now) (E.written env.now)) (shape_signature signature.now)) }
{
    add_params(env, alloc, false, &signature.params.entries, types, faults)?;
    add_results(env, alloc, false, &signature.results, types, faults)
}

/// Notes what a receiver, parameters and results have and break, and answers what their names stand for, in their order: variables of
/// the types that are written, or none where one has no type.
///
/// The Go specification, "Function types", "Method declarations".
///
/// # Errors
///
/// `AllocError` where memory is wanting; then some may be noted.
pub fn check_header<E: Exprs>(
    env: &E,
    alloc: Global,
    receiver: &Option<Receiver>,
    signature: &Signature,
    notes: &mut Notes<E::Decl, E::Path>,
) -> Result<Vec<Option<Operand<E::Type>>>, AllocError>
    ensures values { IfOk result (λ vs. vs.items ≡ map values.variable (headers.header_types (everywhere (E.types env.now) (E.names env.now) (E.literals env.now) (E.written env.now)) receiver.now (shape_signature signature.now))) }
    ensures uses { OnOk result (notes.new.uses.items ≡ notes.old.uses.items ++ headers.header_uses (everywhere (E.types env.now) (E.names env.now) (E.literals env.now) (E.written env.now)) receiver.now (shape_signature signature.now)) }
    ensures faults { OnOk result (notes.new.faults.items ≡ notes.old.faults.items ++ headers.signature_faults (everywhere (E.types env.now) (E.names env.now) (E.literals env.now) (E.written env.now)) (shape_signature signature.now)) }
{
    let mut types = Vec::new(alloc);
    add_receiver(env, alloc, receiver, &mut types, notes)?;
    check_signature(env, alloc, signature, &mut notes.uses)?;
    add_signature(env, alloc, signature, &mut types, &mut notes.faults)?;
    variables(alloc, types)
}

/// The types of the results of a function, in their order, with names or without: none for one without a type.
///
/// # Errors
///
/// `AllocError` where memory is wanting.
pub fn function_results<E: Exprs>(
    env: &E,
    alloc: Global,
    signature: &Signature,
) -> Result<Vec<Option<E::Type>>, AllocError>
    ensures { IfOk result (λ ts. ts.items ≡ headers.returned_types (everywhere (E.types env.now) (E.names env.now) (E.literals env.now) (E.written env.now)) (shape_signature signature.now)) }
{
    let mut types = Vec::new(alloc);
    let mut faults = Vec::new(alloc);
    let results = &signature.results;
    add_results(env, alloc, true, results, &mut types, &mut faults)?;
    Ok(types)
}

// Whether parameters or results have names.
fn are_named(params: &Vec<Param>) -> bool
    ensures { result ≡ is_grouped (params_of params.now.items) }
{
    match params.first() {
        None => false,
        Some(param) => match &param.names {
            None => false,
            Some(_) => true,
        },
    }
}

/// Whether the results of a function have names. The Go specification, "Function types": either all have or none has.
pub fn has_named_results(signature: &Signature) -> bool
    ensures { result ≡ headers.returned_names (shape_signature signature.now) }
{
    match &signature.results {
        Results::Nothing => false,
        Results::Single(_) => false,
        Results::Listed(params) => are_named(&params.entries),
    }
}
