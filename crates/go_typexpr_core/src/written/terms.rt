//! The terms of type expressions.
ghost use Rattle.std.specs.Prelude.{◌≡◌, ◌++◌, ◌∷◌, [], IfOk, OnOk, true, false};
ghost use Rattle.go_term_core.specs.decl_core.Outer.{last_ident};
ghost use Rattle.go_term_core.specs.Shapes.{line_with, shape, sign_of, method_shapes, param_shapes};
ghost use Rattle.go_term_core.specs.Terms.{NoField, AField, NoMethod, AMethod, NoTerm, ATerm};
ghost use Rattle.go_tree_nodes.specs.TypeShapes.{shape_type, shape_idents, shape_names, shape_signature, shape_results};
ghost use Rattle.go_typexpr_core.specs.written.mirrors.Adding.{Adds, AddsLine, AddsParams, AreWritten, then_methods, line_fields, lines_of, method_lines_of, params_in, named_in, field_in, numbers_of, more_numbers};
ghost use Rattle.go_typexpr_core.specs.written.Written.{in_file, term_of, signature_of, member_place, named_fields, fields_of_tree, methods_of_tree, results_of_tree, params_of_tree, for_names, term_starred, tag_of};

use crate::written::names::{TypeNames, WrittenIn};
use go_path_core::text_core::{Span, add, boxed};
use go_term_core::decl_core::{DeclKind, last_ident};
use go_term_core::{Field, FieldLine, Method, Params, Signature, Tag, TypeTerm};
use go_tree_nodes::{
    Fields, Ident, Idents, MethodLine, NextIdent, Param, Results, TextLiteral, TypeExpr, TypeName,
};
use std::alloc::{AllocError, Global};

/// The term of a type as it is written.
///
/// # Errors
///
/// `AllocError` where memory is wanting.
#[cycle(written)]
pub fn write_type<N: TypeNames>(
    alloc: Global,
    names: &N,
    at: &WrittenIn<'_>,
    tree: &TypeExpr,
) -> Result<TypeTerm, AllocError>
    ensures { IfOk result (λ t. shape t ≡ term_of (N.meaning names.now) (in_file at.now) (shape_type tree.now)) }
{
    match tree {
        TypeExpr::Name(name) => names.named(alloc, name),
        TypeExpr::Pointer(_, inner) => {
            let inner = boxed(alloc, write_type(alloc, names, at, inner)?)?;
            Ok(TypeTerm::Pointer(inner))
        }
        TypeExpr::Paren(_, inner, _) => write_type(alloc, names, at, inner),
        TypeExpr::Struct(_, _, lines, _) => {
            let body = write_fields(alloc, names, at, lines)?;
            Ok(TypeTerm::Struct(at.path.share()?, body.fields, body.lines))
        }
        TypeExpr::Interface(_, _, lines, _) => {
            let methods = write_methods(alloc, names, at, lines)?;
            Ok(TypeTerm::Interface(at.path.share()?, methods))
        }
    }
}

// The fields of a struct type, and the lines that they stand in.
#[derive(Drop)]
struct Body {
    fields: Vec<Field>,
    lines: Vec<FieldLine>,
}

// The fields of the lines of a struct type.
#[cycle(written)]
fn write_fields<N: TypeNames>(
    alloc: Global,
    names: &N,
    at: &WrittenIn<'_>,
    trees: &Vec<go_tree_nodes::FieldLine>,
) -> Result<Body, AllocError>
    ensures { IfOk result (λ body. AreWritten (fields_of_tree (N.meaning names.now) (in_file at.now) (lines_of trees.now.items)) body) }
{
    let mut body = Body {
        fields: Vec::new(alloc),
        lines: Vec::new(alloc),
    };
    for line in trees {
        write_line(alloc, names, at, &line.fields, &line.tag, &mut body)?;
    }
    Ok(body)
}

// Adds the fields of a line of a struct type.
#[cycle(written)]
fn write_line<N: TypeNames>(
    alloc: Global,
    names: &N,
    at: &WrittenIn<'_>,
    line: &Fields,
    tag: &Option<TextLiteral>,
    body: &mut Body,
) -> Result<(), AllocError>
    ensures { OnOk result (Adds body.old (line_fields (N.meaning names.now) (in_file at.now) line.now tag.now) body.new) }
{
    match line {
        Fields::Named(idents, tree) => {
            let term = write_type(alloc, names, at, tree)?;
            add_named(alloc, at, body, idents, term, tag)
        }
        Fields::Embedded(star, name) => {
            let term = names.named(alloc, name)?;
            add_embedded(alloc, at, body, star, name, term, tag)
        }
    }
}

// Adds a line of a type, and a field for each name.
fn add_named(
    alloc: Global,
    at: &WrittenIn<'_>,
    body: &mut Body,
    idents: &Idents,
    term: TypeTerm,
    tag: &Option<TextLiteral>,
) -> Result<(), AllocError>
    ensures { OnOk result (Adds body.old (named_fields (in_file at.now) (shape term) (tag_of tag.now) (shape_idents idents.now) NoField) body.new) }
{
    add_names(alloc, at, &mut body.fields, body.lines.len(), idents)?;
    add_line(alloc, &mut body.lines, false, term, tag)
}

// Adds a field of the line of a number for each name.
fn add_names(
    alloc: Global,
    at: &WrittenIn<'_>,
    fields: &mut Vec<Field>,
    line: usize,
    idents: &Idents,
) -> Result<(), AllocError>
    ensures { OnOk result (fields.new.items ≡ fields.old.items ++ named_in (in_file at.now) line (shape_idents idents.now)) }
{
    add_field(alloc, at, fields, &idents.first, line)?;
    for next in &idents.more {
        add_field(alloc, at, fields, &next.ident, line)?;
    }
    Ok(())
}

// Adds a line with an embedded field.
fn add_embedded(
    alloc: Global,
    at: &WrittenIn<'_>,
    body: &mut Body,
    star: &Option<Span>,
    name: &TypeName,
    term: TypeTerm,
    tag: &Option<TextLiteral>,
) -> Result<(), AllocError>
    ensures { OnOk result (Adds body.old (AField (last_ident name.now).name (member_place (in_file at.now) DeclKind.Field (last_ident name.now).span.start) true (term_starred star.now (shape term)) (tag_of tag.now) NoField) body.new) }
{
    let term = starred_term(alloc, star, term)?;
    add_field(
        alloc,
        at,
        &mut body.fields,
        last_ident(name),
        body.lines.len(),
    )?;
    add_line(alloc, &mut body.lines, true, term, tag)
}

// Adds a field of the line of a number.
fn add_field(
    alloc: Global,
    at: &WrittenIn<'_>,
    fields: &mut Vec<Field>,
    ident: &Ident,
    line: usize,
) -> Result<(), AllocError>
    ensures { OnOk result (fields.new.items ≡ fields.old.items ++ field_in (in_file at.now) line ident.now ∷ []) }
{
    let name = ident.name.copy(alloc)?;
    let place = at.place(DeclKind::Field, ident.span.start as usize);
    add(fields, Field { name, place, line })
}

// Adds a line.
fn add_line(
    alloc: Global,
    lines: &mut Vec<FieldLine>,
    embedded: bool,
    term: TypeTerm,
    tag: &Option<TextLiteral>,
) -> Result<(), AllocError>
    ensures { OnOk result (AddsLine lines.old.items (line_with embedded (shape term) (tag_of tag.now)) lines.new.items) }
{
    let tag = tag_of(alloc, tag)?;
    add(
        lines,
        FieldLine {
            embedded,
            term,
            tag,
        },
    )
}

// A type, or a pointer to it where it has a star.
fn starred_term(alloc: Global, star: &Option<Span>, term: TypeTerm) -> Result<TypeTerm, AllocError>
    ensures { IfOk result (λ t. shape t ≡ term_starred star.now (shape term)) }
{
    match star {
        Some(_) => Ok(TypeTerm::Pointer(boxed(alloc, term)?)),
        None => Ok(term),
    }
}

// What a tag stands for; nothing where there is none.
fn tag_of(alloc: Global, tag: &Option<TextLiteral>) -> Result<Tag, AllocError>
    ensures { IfOk result (λ t. t ≡ tag_of tag.now) }
{
    match tag {
        None => Ok(Tag::none()),
        Some(tag) => Tag::of(alloc, tag.value(alloc)?),
    }
}

// The methods of the lines of an interface type.
#[cycle(written)]
fn write_methods<N: TypeNames>(
    alloc: Global,
    names: &N,
    at: &WrittenIn<'_>,
    lines: &Vec<MethodLine>,
) -> Result<Vec<Method>, AllocError>
    ensures { IfOk result (λ ms. method_shapes ms.items ≡ methods_of_tree (N.meaning names.now) (in_file at.now) (method_lines_of lines.now.items)) }
{
    let mut methods = Vec::new(alloc);
    for line in lines {
        let signature = write_signature(alloc, names, at, &line.signature)?;
        add_method(alloc, at, &mut methods, &line.name, signature)?;
    }
    Ok(methods)
}

// Adds a method of an interface type.
fn add_method(
    alloc: Global,
    at: &WrittenIn<'_>,
    methods: &mut Vec<Method>,
    ident: &Ident,
    signature: Signature,
) -> Result<(), AllocError>
    ensures { OnOk result (method_shapes methods.new.items ≡ then_methods (method_shapes methods.old.items) (AMethod ident.now.name (member_place (in_file at.now) DeclKind.Method ident.now.span.start) (sign_of signature) NoMethod)) }
{
    let name = ident.name.copy(alloc)?;
    let place = at.place(DeclKind::Method, ident.span.start as usize);
    add(
        methods,
        Method {
            name,
            place,
            signature,
        },
    )
}

/// The signature of written parameters and results: a type for each name, and for each parameter that has none.
///
/// # Errors
///
/// `AllocError` where memory is wanting.
#[cycle(written)]
pub fn write_signature<N: TypeNames>(
    alloc: Global,
    names: &N,
    at: &WrittenIn<'_>,
    tree: &go_tree_nodes::Signature,
) -> Result<Signature, AllocError>
    ensures { IfOk result (λ s. sign_of s ≡ signature_of (N.meaning names.now) (in_file at.now) (shape_signature tree.now)) }
{
    let params = write_params(alloc, names, at, &tree.params.entries)?;
    let results = write_results(alloc, names, at, &tree.results)?;
    Ok(Signature { params, results })
}

// The types of results.
#[cycle(written)]
fn write_results<N: TypeNames>(
    alloc: Global,
    names: &N,
    at: &WrittenIn<'_>,
    results: &Results,
) -> Result<Params, AllocError>
    ensures { IfOk result (λ ps. param_shapes ps ≡ results_of_tree (N.meaning names.now) (in_file at.now) (shape_results results.now)) }
{
    match results {
        Results::Nothing => Ok(Params {
            lines: Vec::new(alloc),
            terms: Vec::new(alloc),
        }),
        Results::Single(one) => {
            let term = write_type(alloc, names, at, one)?;
            one_result(alloc, term)
        }
        Results::Listed(listed) => write_params(alloc, names, at, &listed.entries),
    }
}

// One type.
fn one_result(alloc: Global, term: TypeTerm) -> Result<Params, AllocError>
    ensures { IfOk result (λ ps. param_shapes ps ≡ ATerm (shape term) NoTerm) }
{
    let mut params = Params {
        lines: Vec::new(alloc),
        terms: Vec::new(alloc),
    };
    add(&mut params.lines, 0)?;
    add(&mut params.terms, term)?;
    Ok(params)
}

// The types of parameters: one for each name, and for each that has none. Names of one type share it.
#[cycle(written)]
fn write_params<N: TypeNames>(
    alloc: Global,
    names: &N,
    at: &WrittenIn<'_>,
    trees: &Vec<Param>,
) -> Result<Params, AllocError>
    ensures { IfOk result (λ ps. param_shapes ps ≡ params_of_tree (N.meaning names.now) (in_file at.now) (params_in trees.now.items)) }
{
    let mut params = Params {
        lines: Vec::new(alloc),
        terms: Vec::new(alloc),
    };
    for param in trees {
        let term = write_type(alloc, names, at, &param.type_expr)?;
        add_param(&mut params, &param.names, term)?;
    }
    Ok(params)
}

// Adds a type once for each name, or once where there is none.
fn add_param(params: &mut Params, names: &Option<Idents>, term: TypeTerm) -> Result<(), AllocError>
    ensures { OnOk result (AddsParams params.old (for_names (shape term) (shape_names names.now) NoTerm) params.new) }
{
    add_numbers(&mut params.lines, names, params.terms.len())?;
    add(&mut params.terms, term)
}

// Adds a number for each name, or once where there is none.
fn add_numbers(
    lines: &mut Vec<usize>,
    names: &Option<Idents>,
    number: usize,
) -> Result<(), AllocError>
    ensures { OnOk result (lines.new.items ≡ lines.old.items ++ numbers_of number (shape_names names.now)) }
{
    add(lines, number)?;
    match names {
        Some(idents) => add_more(lines, &idents.more, number),
        None => Ok(()),
    }
}

// Adds a number for each further name.
fn add_more(lines: &mut Vec<usize>, more: &Vec<NextIdent>, number: usize) -> Result<(), AllocError>
    ensures { OnOk result (lines.new.items ≡ lines.old.items ++ more_numbers number more.now.items) }
{
    for _ in more {
        add(lines, number)?;
    }
    Ok(())
}
