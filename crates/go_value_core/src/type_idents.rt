//! The identifiers that are looked up in a type that is written out.
ghost use Rattle.std.specs.Prelude.{◌≡◌, ◌++◌, [], ◌∷◌, map, OnOk};
ghost use Rattle.go_tree_nodes.specs.TypeShapes.{shape_type, shape_signature, shape_results, fields_of, methods_of, params_of};
ghost use Rattle.go_tree_nodes.specs.Idents.{type_name_idents, type_idents, fields_idents, methods_idents, signature_type_idents, result_type_idents, params_idents};
ghost use Rattle.go_tree_nodes.specs.Idents.{field_idents};

use go_tree_nodes::{
    FieldLine, Fields, Ident, MethodLine, Param, Results, Signature, TypeExpr, TypeName,
};
use std::alloc::AllocError;

/// Adds that of a type's name: of a qualified one the package.
pub(crate) fn add_type_name<'a>(
    name: &'a TypeName,
    found: &mut Vec<&'a Ident>,
) -> Result<(), AllocError>
    ensures { OnOk result (map (λ x. x.now) found.new.items ≡ map (λ x. x.now) found.old.items ++ type_name_idents name.now) }
{
    match name {
        TypeName::Plain(ident) => {
            found.push(ident)?;
            Ok(())
        }
        TypeName::Qualified(package, _, _) => {
            found.push(package)?;
            Ok(())
        }
    }
}

/// Adds those of a type.
#[cycle(types)]
pub(crate) fn add_type<'a>(tree: &'a TypeExpr, found: &mut Vec<&'a Ident>) -> Result<(), AllocError>
    ensures { OnOk result (map (λ x. x.now) found.new.items ≡ map (λ x. x.now) found.old.items ++ type_idents (shape_type tree.now)) }
{
    match tree {
        TypeExpr::Name(name) => add_type_name(name, found),
        TypeExpr::Pointer(_, inner) => add_type(inner, found),
        TypeExpr::Paren(_, inner, _) => add_type(inner, found),
        TypeExpr::Struct(_, _, lines, _) => add_lines(lines, found),
        TypeExpr::Interface(_, _, methods, _) => add_methods(methods, found),
    }
}

// Those of the fields of one line.
#[cycle(types)]
fn add_fields<'a>(fields: &'a Fields, found: &mut Vec<&'a Ident>) -> Result<(), AllocError>
    ensures { OnOk result (map (λ x. x.now) found.new.items ≡ map (λ x. x.now) found.old.items ++ field_idents fields.now) }
{
    match fields {
        Fields::Named(_, tree) => add_type(tree, found),
        Fields::Embedded(_, name) => add_type_name(name, found),
    }
}

// Those of fields.
#[cycle(types)]
fn add_lines<'a>(lines: &'a Vec<FieldLine>, found: &mut Vec<&'a Ident>) -> Result<(), AllocError>
    ensures { OnOk result (map (λ x. x.now) found.new.items ≡ map (λ x. x.now) found.old.items ++ fields_idents (fields_of lines.now.items)) }
{
    for line in lines {
        add_fields(&line.fields, found)?;
    }
    Ok(())
}

// Those of methods.
#[cycle(types)]
fn add_methods<'a>(
    methods: &'a Vec<MethodLine>,
    found: &mut Vec<&'a Ident>,
) -> Result<(), AllocError>
    ensures { OnOk result (map (λ x. x.now) found.new.items ≡ map (λ x. x.now) found.old.items ++ methods_idents (methods_of methods.now.items)) }
{
    for method in methods {
        add_signature(&method.signature, found)?;
    }
    Ok(())
}

// Those of a signature.
#[cycle(types)]
fn add_signature<'a>(signature: &'a Signature, found: &mut Vec<&'a Ident>) -> Result<(), AllocError>
    ensures { OnOk result (map (λ x. x.now) found.new.items ≡ map (λ x. x.now) found.old.items ++ signature_type_idents (shape_signature signature.now)) }
{
    add_params(&signature.params.entries, found)?;
    add_results(&signature.results, found)
}

// Those of results.
#[cycle(types)]
fn add_results<'a>(results: &'a Results, found: &mut Vec<&'a Ident>) -> Result<(), AllocError>
    ensures { OnOk result (map (λ x. x.now) found.new.items ≡ map (λ x. x.now) found.old.items ++ result_type_idents (shape_results results.now)) }
{
    match results {
        Results::Nothing => Ok(()),
        Results::Single(tree) => add_type(tree, found),
        Results::Listed(params) => add_params(&params.entries, found),
    }
}

// Those of parameters.
#[cycle(types)]
fn add_params<'a>(params: &'a Vec<Param>, found: &mut Vec<&'a Ident>) -> Result<(), AllocError>
    ensures { OnOk result (map (λ x. x.now) found.new.items ≡ map (λ x. x.now) found.old.items ++ params_idents (params_of params.now.items)) }
{
    for param in params {
        add_type(&param.type_expr, found)?;
    }
    Ok(())
}
