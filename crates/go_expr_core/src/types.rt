//! The identifiers in types that are written out.
ghost use Rattle.std.specs.Prelude.{◌≡◌, ◌++◌, OnOk};
ghost use Rattle.go_tree_nodes.specs.TypeShapes.{shape_type, shape_signature, shape_results, fields_of, methods_of, params_of};
ghost use Rattle.go_expr_core.specs.Looks.{everywhere};
ghost use Rattle.go_expr_core.specs.TypeUses as type_uses;

use crate::looks::Exprs;
use crate::names::check_type_name;
use crate::things::Use;
use go_tree_nodes::{FieldLine, Fields, MethodLine, Param, Results, Signature, TypeExpr};
use std::alloc::{AllocError, Global};

/// Notes what the identifiers of a type have that is written out, in order of their places.
///
/// The Go specification, "Types".
///
/// # Errors
///
/// [`AllocError`] where memory is wanting; then some may be noted.
#[cycle(check_types)]
pub fn check_type<E: Exprs>(
    env: &E,
    alloc: Global,
    type_expr: &TypeExpr,
    uses: &mut Vec<Use<E::Decl, E::Path>>,
) -> Result<(), AllocError>
    ensures { OnOk result (uses.new.items ≡ uses.old.items ++ type_uses.type_uses (everywhere (E.types env.now) (E.names env.now) (E.literals env.now) (E.written env.now)) (shape_type type_expr.now)) }
{
    match type_expr {
        TypeExpr::Name(name) => {
            check_type_name(env, alloc, name, uses)?;
            Ok(())
        }
        TypeExpr::Pointer(_, inner) => check_type(env, alloc, inner, uses),
        TypeExpr::Paren(_, inner, _) => check_type(env, alloc, inner, uses),
        TypeExpr::Struct(_, _, lines, _) => check_field_lines(env, alloc, lines, uses),
        TypeExpr::Interface(_, _, methods, _) => check_methods(env, alloc, methods, uses),
    }
}

// The fields of one line.
#[cycle(check_types)]
fn check_fields<E: Exprs>(
    env: &E,
    alloc: Global,
    fields: &Fields,
    uses: &mut Vec<Use<E::Decl, E::Path>>,
) -> Result<(), AllocError>
    ensures { OnOk result (uses.new.items ≡ uses.old.items ++ type_uses.line_uses (everywhere (E.types env.now) (E.names env.now) (E.literals env.now) (E.written env.now)) fields.now) }
{
    match fields {
        Fields::Named(_, type_expr) => check_type(env, alloc, type_expr, uses),
        Fields::Embedded(_, name) => {
            check_type_name(env, alloc, name, uses)?;
            Ok(())
        }
    }
}

// Fields.
#[cycle(check_types)]
fn check_field_lines<E: Exprs>(
    env: &E,
    alloc: Global,
    lines: &Vec<FieldLine>,
    uses: &mut Vec<Use<E::Decl, E::Path>>,
) -> Result<(), AllocError>
    ensures { OnOk result (uses.new.items ≡ uses.old.items ++ type_uses.fields_uses (everywhere (E.types env.now) (E.names env.now) (E.literals env.now) (E.written env.now)) (fields_of lines.now.items)) }
{
    for line in lines {
        check_fields(env, alloc, &line.fields, uses)?;
    }
    Ok(())
}

// Methods.
#[cycle(check_types)]
fn check_methods<E: Exprs>(
    env: &E,
    alloc: Global,
    methods: &Vec<MethodLine>,
    uses: &mut Vec<Use<E::Decl, E::Path>>,
) -> Result<(), AllocError>
    ensures { OnOk result (uses.new.items ≡ uses.old.items ++ type_uses.methods_uses (everywhere (E.types env.now) (E.names env.now) (E.literals env.now) (E.written env.now)) (methods_of methods.now.items)) }
{
    for method in methods {
        check_signature(env, alloc, &method.signature, uses)?;
    }
    Ok(())
}

/// Notes what the identifiers of a signature have, in order of their places: those of its parameters' types and of its results' types.
///
/// The Go specification, "Function types".
///
/// # Errors
///
/// [`AllocError`] where memory is wanting; then some may be noted.
#[cycle(check_types)]
pub fn check_signature<E: Exprs>(
    env: &E,
    alloc: Global,
    signature: &Signature,
    uses: &mut Vec<Use<E::Decl, E::Path>>,
) -> Result<(), AllocError>
    ensures { OnOk result (uses.new.items ≡ uses.old.items ++ type_uses.signature_uses (everywhere (E.types env.now) (E.names env.now) (E.literals env.now) (E.written env.now)) (shape_signature signature.now)) }
{
    check_params(env, alloc, &signature.params.entries, uses)?;
    check_results(env, alloc, &signature.results, uses)
}

// Results.
#[cycle(check_types)]
fn check_results<E: Exprs>(
    env: &E,
    alloc: Global,
    results: &Results,
    uses: &mut Vec<Use<E::Decl, E::Path>>,
) -> Result<(), AllocError>
    ensures { OnOk result (uses.new.items ≡ uses.old.items ++ type_uses.result_uses (everywhere (E.types env.now) (E.names env.now) (E.literals env.now) (E.written env.now)) (shape_results results.now)) }
{
    match results {
        Results::Nothing => Ok(()),
        Results::Single(type_expr) => check_type(env, alloc, type_expr, uses),
        Results::Listed(params) => check_params(env, alloc, &params.entries, uses),
    }
}

// Parameters.
#[cycle(check_types)]
fn check_params<E: Exprs>(
    env: &E,
    alloc: Global,
    params: &Vec<Param>,
    uses: &mut Vec<Use<E::Decl, E::Path>>,
) -> Result<(), AllocError>
    ensures { OnOk result (uses.new.items ≡ uses.old.items ++ type_uses.params_uses (everywhere (E.types env.now) (E.names env.now) (E.literals env.now) (E.written env.now)) (params_of params.now.items)) }
{
    for param in params {
        check_type(env, alloc, &param.type_expr, uses)?;
    }
    Ok(())
}
