//! The identifiers that types declare.
ghost use Rattle.std.specs.Prelude.{◌≡◌};
ghost use Rattle.go_tree_nodes.specs.TypeShapes.{shape_type, shape_signature, shape_results, fields_of, methods_of, params_of};
ghost use Rattle.go_decl_core.specs.Outer.{last_ident, type_outers, fields_outers, methods_outers, signature_outers, result_outers, params_outers};
ghost use Rattle.go_decl_core.specs.mirrors.Outers.{field_outers};
ghost use Rattle.go_decl_core.specs.mirrors.Listing.{Adds};

use crate::lister::Lister;
use crate::places::DeclKind;
use go_tree_nodes::{
    FieldLine, Fields, Ident, MethodLine, Param, Results, Signature, TypeExpr, TypeName,
};

/// The last identifier of the name of a type: of a qualified one the identifier behind the dot.
///
/// The Go specification, "Struct types": it acts as the field name of an embedded field.
pub fn last_ident(name: &TypeName) -> &Ident
    ensures { result.now ≡ last_ident name.now }
{
    match name {
        TypeName::Plain(ident) => ident,
        TypeName::Qualified(_, _, ident) => ident,
    }
}

/// Lists what a type declares.
#[cycle(list)]
pub(crate) fn list_type(lister: &mut Lister, type_expr: &TypeExpr)
    ensures { Adds lister.old (type_outers (shape_type type_expr.now)) lister.new }
{
    match type_expr {
        TypeExpr::Name(_) => {}
        TypeExpr::Pointer(_, inner) => list_type(lister, inner),
        TypeExpr::Paren(_, inner, _) => list_type(lister, inner),
        TypeExpr::Struct(_, _, lines, _) => list_field_lines(lister, lines),
        TypeExpr::Interface(_, _, methods, _) => list_methods(lister, methods),
    }
}

// Lists the fields of one line.
#[cycle(list)]
fn list_fields(lister: &mut Lister, fields: &Fields)
    ensures { Adds lister.old (field_outers fields.now) lister.new }
{
    match fields {
        Fields::Named(names, type_expr) => {
            lister.add_idents(DeclKind::Field, names);
            list_type(lister, type_expr);
        }
        Fields::Embedded(_, name) => lister.add(DeclKind::Field, last_ident(name)),
    }
}

// Lists fields.
#[cycle(list)]
fn list_field_lines(lister: &mut Lister, lines: &Vec<FieldLine>)
    ensures { Adds lister.old (fields_outers (fields_of lines.now.items)) lister.new }
{
    for line in lines {
        list_fields(lister, &line.fields);
    }
}

// Lists methods.
#[cycle(list)]
fn list_methods(lister: &mut Lister, methods: &Vec<MethodLine>)
    ensures { Adds lister.old (methods_outers (methods_of methods.now.items)) lister.new }
{
    for method in methods {
        lister.add(DeclKind::Method, &method.name);
        list_signature(lister, &method.signature);
    }
}

/// Lists what a signature declares.
#[cycle(list)]
pub(crate) fn list_signature(lister: &mut Lister, signature: &Signature)
    ensures { Adds lister.old (signature_outers (shape_signature signature.now)) lister.new }
{
    list_params(lister, &signature.params.entries);
    list_results(lister, &signature.results);
}

// Lists results.
#[cycle(list)]
fn list_results(lister: &mut Lister, results: &Results)
    ensures { Adds lister.old (result_outers (shape_results results.now)) lister.new }
{
    match results {
        Results::Nothing => {}
        Results::Single(type_expr) => list_type(lister, type_expr),
        Results::Listed(params) => list_params(lister, &params.entries),
    }
}

// Lists parameters.
#[cycle(list)]
fn list_params(lister: &mut Lister, params: &Vec<Param>)
    ensures { Adds lister.old (params_outers (params_of params.now.items)) lister.new }
{
    for param in params {
        lister.add_names(&param.names);
        list_type(lister, &param.type_expr);
    }
}
