//! The identifiers that are used in types.

ghost use Rattle.go_tree_nodes.specs.TypeShapes.{shape_type, shape_signature, shape_results, fields_of, methods_of, params_of};
ghost use Rattle.go_tree_core.specs.Occurrences.{type_name_occs, type_occs, field_occs, fields_occs, methods_occs, signature_occs, result_occs, params_occs};

use crate::occurrence::Role;
use crate::visitor::{Visitor, visit_ident};
use go_tree_nodes::{
    FieldLine, Fields, MethodLine, Param, Results, Signature, TypeExpr, TypeName, Usage,
};

/// Visits the occurrences of the name of a type.
pub(crate) fn visit_type_name<V: Visitor>(visitor: &mut V, name: &TypeName)
    ensures { V.Sees visitor.old (type_name_occs name.now) visitor.new }
{
    match name {
        TypeName::Plain(ident) => visit_ident(visitor, Role::Type, ident),
        TypeName::Qualified(package, _, ident) => {
            visit_ident(visitor, Role::Qualifier, package);
            visit_ident(visitor, Role::Selector(Usage::Type), ident);
        }
    }
}

/// Visits the occurrences of a type.
#[cycle(visit)]
pub(crate) fn visit_type<V: Visitor>(visitor: &mut V, type_expr: &TypeExpr)
    ensures { V.Sees visitor.old (type_occs (shape_type type_expr.now)) visitor.new }
{
    match type_expr {
        TypeExpr::Name(name) => visit_type_name(visitor, name),
        TypeExpr::Pointer(_, inner) => visit_type(visitor, inner),
        TypeExpr::Paren(_, inner, _) => visit_type(visitor, inner),
        TypeExpr::Struct(_, _, lines, _) => visit_field_lines(visitor, lines),
        TypeExpr::Interface(_, _, methods, _) => visit_methods(visitor, methods),
    }
}

// Visits the occurrences of the fields of one line.
#[cycle(visit)]
fn visit_fields<V: Visitor>(visitor: &mut V, fields: &Fields)
    ensures { V.Sees visitor.old (field_occs fields.now) visitor.new }
{
    match fields {
        Fields::Named(_, type_expr) => visit_type(visitor, type_expr),
        Fields::Embedded(_, name) => visit_type_name(visitor, name),
    }
}

// Visits the occurrences of fields.
#[cycle(visit)]
fn visit_field_lines<V: Visitor>(visitor: &mut V, lines: &Vec<FieldLine>)
    ensures { V.Sees visitor.old (fields_occs (fields_of lines.now.items)) visitor.new }
{
    for line in lines {
        visit_fields(visitor, &line.fields);
    }
}

// Visits the occurrences of methods.
#[cycle(visit)]
fn visit_methods<V: Visitor>(visitor: &mut V, methods: &Vec<MethodLine>)
    ensures { V.Sees visitor.old (methods_occs (methods_of methods.now.items)) visitor.new }
{
    for method in methods {
        visit_signature(visitor, &method.signature);
    }
}

/// Visits the occurrences of a signature.
#[cycle(visit)]
pub(crate) fn visit_signature<V: Visitor>(visitor: &mut V, signature: &Signature)
    ensures { V.Sees visitor.old (signature_occs (shape_signature signature.now)) visitor.new }
{
    visit_params(visitor, &signature.params.entries);
    visit_results(visitor, &signature.results);
}

// Visits the occurrences of results.
#[cycle(visit)]
fn visit_results<V: Visitor>(visitor: &mut V, results: &Results)
    ensures { V.Sees visitor.old (result_occs (shape_results results.now)) visitor.new }
{
    match results {
        Results::Nothing => {}
        Results::Single(type_expr) => visit_type(visitor, type_expr),
        Results::Listed(params) => visit_params(visitor, &params.entries),
    }
}

// Visits the occurrences of parameters.
#[cycle(visit)]
fn visit_params<V: Visitor>(visitor: &mut V, params: &Vec<Param>)
    ensures { V.Sees visitor.old (params_occs (params_of params.now.items)) visitor.new }
{
    for param in params {
        visit_type(visitor, &param.type_expr);
    }
}
