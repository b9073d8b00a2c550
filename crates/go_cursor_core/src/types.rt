//! The identifier of a type that begins at an offset.
ghost use Rattle.std.specs.Prelude.{◌≡◌, [], ◌∷◌};
ghost use Rattle.go_tree_nodes.specs.TypeShapes.{shape_type, shape_signature, shape_results, fields_of, methods_of, params_of};
ghost use Rattle.go_cursor_core.specs.Shown.{found_shown, spot_shown};
ghost use Rattle.go_cursor_core.specs.Used.{used, first_used, type_name_used, type_used, fields_used, methods_used, signature_used, result_used, params_used};
ghost use Rattle.go_cursor_core.specs.mirrors.Lines.{line_used};

use crate::spot::{Spot, UsedName};
use go_expr_core::denote_core::Stand;
use go_tree_nodes::{
    FieldLine, Fields, Ident, MethodLine, Param, Results, Signature, TypeExpr, TypeName,
};

/// An identifier in its spot, where it begins at an offset.
pub(crate) fn named<'t>(ident: &'t Ident, start: usize, spot: Spot<'t>) -> Option<UsedName<'t>>
    ensures { found_shown result ≡ first_used start (used ident.now (spot_shown spot.entry) ∷ []) }
{
    if ident.span.start as usize == start {
        Some(UsedName { ident, spot })
    } else {
        None
    }
}

/// The identifier of the name of a type that begins at an offset.
pub(crate) fn in_type_name(name: &TypeName, start: usize) -> Option<UsedName<'_>>
    ensures { found_shown result ≡ first_used start (type_name_used name.now) }
{
    match name {
        TypeName::Plain(ident) => named(ident, start, Spot::Name(Stand::Type)),
        TypeName::Qualified(package, _, ident) => {
            match named(package, start, Spot::Name(Stand::TypeDot)) {
                None => named(ident, start, Spot::BehindName(package)),
                found => found,
            }
        }
    }
}

/// The identifier of a type that begins at an offset.
#[cycle(types)]
pub(crate) fn in_type(type_expr: &TypeExpr, start: usize) -> Option<UsedName<'_>>
    ensures { found_shown result ≡ first_used start (type_used (shape_type type_expr.now)) }
{
    match type_expr {
        TypeExpr::Name(name) => in_type_name(name, start),
        TypeExpr::Pointer(_, inner) => in_type(inner, start),
        TypeExpr::Paren(_, inner, _) => in_type(inner, start),
        TypeExpr::Struct(_, _, lines, _) => in_field_lines(lines, start),
        TypeExpr::Interface(_, _, methods, _) => in_methods(methods, start),
    }
}

// The identifier of the fields of one line.
#[cycle(types)]
fn in_fields(fields: &Fields, start: usize) -> Option<UsedName<'_>>
    ensures { found_shown result ≡ first_used start (line_used fields.now) }
{
    match fields {
        Fields::Named(_, type_expr) => in_type(type_expr, start),
        Fields::Embedded(_, name) => in_type_name(name, start),
    }
}

// The identifier of fields.
#[cycle(types)]
fn in_field_lines(lines: &Vec<FieldLine>, start: usize) -> Option<UsedName<'_>>
    ensures { found_shown result ≡ first_used start (fields_used (fields_of lines.now.items)) }
{
    for line in lines {
        let found = in_fields(&line.fields, start);
        if found.is_some() {
            return found;
        }
    }
    None
}

// The identifier of methods.
#[cycle(types)]
fn in_methods(methods: &Vec<MethodLine>, start: usize) -> Option<UsedName<'_>>
    ensures { found_shown result ≡ first_used start (methods_used (methods_of methods.now.items)) }
{
    for method in methods {
        let found = in_signature(&method.signature, start);
        if found.is_some() {
            return found;
        }
    }
    None
}

/// The identifier of a signature that begins at an offset.
#[cycle(types)]
pub(crate) fn in_signature(signature: &Signature, start: usize) -> Option<UsedName<'_>>
    ensures { found_shown result ≡ first_used start (signature_used (shape_signature signature.now)) }
{
    match in_params(&signature.params.entries, start) {
        None => in_results(&signature.results, start),
        found => found,
    }
}

// The identifier of results.
#[cycle(types)]
fn in_results(results: &Results, start: usize) -> Option<UsedName<'_>>
    ensures { found_shown result ≡ first_used start (result_used (shape_results results.now)) }
{
    match results {
        Results::Nothing => None,
        Results::Single(type_expr) => in_type(type_expr, start),
        Results::Listed(params) => in_params(&params.entries, start),
    }
}

// The identifier of parameters.
#[cycle(types)]
fn in_params(params: &Vec<Param>, start: usize) -> Option<UsedName<'_>>
    ensures { found_shown result ≡ first_used start (params_used (params_of params.now.items)) }
{
    for param in params {
        let found = in_type(&param.type_expr, start);
        if found.is_some() {
            return found;
        }
    }
    None
}
