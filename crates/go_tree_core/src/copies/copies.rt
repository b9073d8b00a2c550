//! Copies of names, types and expressions, in which each identifier is spelled as the copier says. The one error is want of memory.
//!
//! Where memory runs out, what has been copied is dropped. The drop of an enum is written out in place, variant by variant, which
//! is long to prove. So parts of a tree are copied by [`both`], which drops either, or lists and boxes before enums: their drop is
//! one call.

ghost use Rattle.std.specs.Prelude.{◌≡◌, [], ◌∷◌, ◌++◌, Option, IfOk, OnOk};
ghost use Rattle.go_tree_nodes.specs.text_core.declared.span.Span.{Span as TheSpan};
ghost use Rattle.go_tree_nodes.specs.declared.names.TextLiteral.{TextLiteral as TheText};
ghost use Rattle.go_tree_nodes.specs.Trees.{FieldTrees, Binary, Select};
ghost use Rattle.go_tree_nodes.specs.TypeShapes as type_shapes;
ghost use Rattle.go_tree_nodes.specs.Shapes as shapes;
ghost use Rattle.go_tree_core.specs.copies.Respelled.{spelled, separated_with, some_with, names_with, type_name_with, type_with, fields_with, methods_with, signature_with, result_with, params_with, key_with, expr_with, items_with, exprs_with};

use crate::copies::copier::Copier;
use go_tree_nodes::text_core::{add, boxed};
use go_tree_nodes::{
    BinaryExpr, CallExpr, Expr, Exprs, FieldLine, Fields, Ident, Idents, Item, Key, LiteralExpr,
    MethodLine, NextExpr, NextIdent, Param, Params, Results, SelectExpr, Signature,
    StructLiteralExpr, TextLiteral, TypeExpr, TypeName,
};
use std::alloc::{AllocError, Global};

/// The copy that was made, or the end of the function where memory ran out. A `?` is two calls of generic functions, and a proof
/// writes out the tree's type for each.
macro_rules! copied {
    ($copy:expr) => {
        match $copy {
            Ok(copy) => copy,
            Err(error) => return Err(error),
        }
    };
}

pub(crate) use copied;

/// Two copies. Where there was no memory for one, the other is dropped.
pub(crate) fn both<A: Drop, B: Drop>(
    first: Result<A, AllocError>,
    second: Result<B, AllocError>,
) -> Result<(A, B), AllocError>
    ensures { IfOk result (λ x. (first ≡ Ok x.0) × (second ≡ Ok x.1)) }
{
    Ok((first?, second?))
}

/// The identifier with the spelling that it has in the copy, where it stands.
pub(crate) fn copy_ident(copier: &Copier<'_>, ident: &Ident) -> Result<Ident, AllocError>
    ensures { IfOk result (λ x. x ≡ spelled copier.now ident.now) }
{
    Ok(Ident {
        name: copied!(copier.copy_name(ident)),
        span: ident.span,
    })
}

/// The same names.
pub(crate) fn copy_idents(copier: &Copier<'_>, idents: &Idents) -> Result<Idents, AllocError>
    ensures { IfOk result (λ x. type_shapes.shape_idents x ≡ separated_with (spelled copier.now) (type_shapes.shape_idents idents.now)) }
{
    let first = copied!(copy_ident(copier, &idents.first));
    let mut more = Vec::new(copier.alloc);
    for next in &idents.more {
        let ident = copied!(copy_ident(copier, &next.ident));
        copied!(add(
            &mut more,
            NextIdent {
                comma: next.comma,
                ident,
            },
        ));
    }
    Ok(Idents { first, more })
}

// The same names, where some stand.
fn copy_some_idents(
    copier: &Copier<'_>,
    idents: &Option<Idents>,
) -> Result<Option<Idents>, AllocError>
    ensures { IfOk result (λ x. type_shapes.shape_names x ≡ names_with (spelled copier.now) (type_shapes.shape_names idents.now)) }
{
    match idents {
        None => Ok(None),
        Some(idents) => Ok(Some(copied!(copy_idents(copier, idents)))),
    }
}

/// The same string literal.
pub(crate) fn copy_text(alloc: Global, text: &TextLiteral) -> Result<TextLiteral, AllocError>
    ensures { IfOk result (λ x. x ≡ text.now) }
{
    Ok(TextLiteral {
        spelled: copied!(text.spelled.copy(alloc)),
        span: text.span,
    })
}

// The same tag, where one stands.
fn copy_tag(alloc: Global, tag: &Option<TextLiteral>) -> Result<Option<TextLiteral>, AllocError>
    ensures { IfOk result (λ x. x ≡ tag.now) }
{
    match tag {
        None => Ok(None),
        Some(text) => Ok(Some(copied!(copy_text(alloc, text)))),
    }
}

/// The same name of a type.
pub(crate) fn copy_type_name(copier: &Copier<'_>, name: &TypeName) -> Result<TypeName, AllocError>
    ensures { IfOk result (λ x. x ≡ type_name_with (spelled copier.now) name.now) }
{
    match name {
        TypeName::Plain(ident) => Ok(TypeName::Plain(copied!(copy_ident(copier, ident)))),
        TypeName::Qualified(package, dot, ident) => {
            let package = copy_ident(copier, package);
            let (package, ident) = copied!(both(package, copy_ident(copier, ident)));
            Ok(TypeName::Qualified(package, *dot, ident))
        }
    }
}

/// The same type.
#[cycle(types)]
pub(crate) fn copy_type(copier: &Copier<'_>, type_expr: &TypeExpr) -> Result<TypeExpr, AllocError>
    ensures { IfOk result (λ x. type_shapes.shape_type x ≡ type_with (spelled copier.now) (type_shapes.shape_type type_expr.now)) }
{
    match type_expr {
        TypeExpr::Name(name) => Ok(TypeExpr::Name(copied!(copy_type_name(copier, name)))),
        TypeExpr::Pointer(star, inner) => {
            Ok(TypeExpr::Pointer(*star, copied!(copy_boxed_type(copier, inner))))
        }
        TypeExpr::Paren(open, inner, close) => {
            Ok(TypeExpr::Paren(*open, copied!(copy_boxed_type(copier, inner)), *close))
        }
        TypeExpr::Struct(keyword, open, lines, close) => {
            let lines = copied!(copy_field_lines(copier, lines));
            Ok(TypeExpr::Struct(*keyword, *open, lines, *close))
        }
        TypeExpr::Interface(keyword, open, methods, close) => {
            let methods = copied!(copy_methods(copier, methods));
            Ok(TypeExpr::Interface(*keyword, *open, methods, *close))
        }
    }
}

// The same type, in a box.
#[cycle(types)]
fn copy_boxed_type(
    copier: &Copier<'_>,
    type_expr: &Box<TypeExpr>,
) -> Result<Box<TypeExpr>, AllocError>
    ensures { IfOk result (λ x. type_shapes.shape_type x.value ≡ type_with (spelled copier.now) (type_shapes.shape_type type_expr.now.value)) }
{
    let copy = copied!(copy_type(copier, type_expr));
    boxed(copier.alloc, copy)
}

// The same fields of one line.
#[cycle(types)]
fn copy_fields(copier: &Copier<'_>, fields: &Fields) -> Result<Fields, AllocError>
    ensures { IfOk result (λ x. (tag : Option TheText) (semicolon : Option TheSpan) (rest : FieldTrees) → type_shapes.fields_before x tag semicolon (fields_with (spelled copier.now) rest) ≡ fields_with (spelled copier.now) (type_shapes.fields_before fields.now tag semicolon rest)) }
{
    match fields {
        Fields::Named(names, type_expr) => {
            let names = copy_idents(copier, names);
            let (names, type_expr) = copied!(both(names, copy_type(copier, type_expr)));
            Ok(Fields::Named(names, type_expr))
        }
        Fields::Embedded(star, name) => {
            let name = copied!(copy_type_name(copier, name));
            Ok(Fields::Embedded(*star, name))
        }
    }
}

// The same lines of a struct type.
#[cycle(types)]
fn copy_field_lines(
    copier: &Copier<'_>,
    lines: &Vec<FieldLine>,
) -> Result<Vec<FieldLine>, AllocError>
    ensures { IfOk result (λ x. type_shapes.fields_of x.items ≡ fields_with (spelled copier.now) (type_shapes.fields_of lines.now.items)) }
{
    let mut copies = Vec::new(copier.alloc);
    for line in lines {
        let tag = copy_tag(copier.alloc, &line.tag);
        let (tag, fields) = copied!(both(tag, copy_fields(copier, &line.fields)));
        copied!(add(
            &mut copies,
            FieldLine {
                fields,
                tag,
                semicolon: line.semicolon,
            },
        ));
    }
    Ok(copies)
}

// The same methods.
#[cycle(types)]
fn copy_methods(
    copier: &Copier<'_>,
    methods: &Vec<MethodLine>,
) -> Result<Vec<MethodLine>, AllocError>
    ensures { IfOk result (λ x. type_shapes.methods_of x.items ≡ methods_with (spelled copier.now) (type_shapes.methods_of methods.now.items)) }
{
    let mut copies = Vec::new(copier.alloc);
    for method in methods {
        let name = copy_ident(copier, &method.name);
        let (name, signature) = copied!(both(name, copy_signature(copier, &method.signature)));
        copied!(add(
            &mut copies,
            MethodLine {
                name,
                signature,
                semicolon: method.semicolon,
            },
        ));
    }
    Ok(copies)
}

/// The same signature.
#[cycle(types)]
pub(crate) fn copy_signature(
    copier: &Copier<'_>,
    signature: &Signature,
) -> Result<Signature, AllocError>
    ensures { IfOk result (λ x. type_shapes.shape_signature x ≡ signature_with (spelled copier.now) (type_shapes.shape_signature signature.now)) }
{
    let entries = copy_params(copier, &signature.params.entries);
    let (entries, results) = copied!(both(entries, copy_results(copier, &signature.results)));
    let params = Params {
        open: signature.params.open,
        entries,
        close: signature.params.close,
    };
    Ok(Signature { params, results })
}

// The same results.
#[cycle(types)]
fn copy_results(copier: &Copier<'_>, results: &Results) -> Result<Results, AllocError>
    ensures { IfOk result (λ x. type_shapes.shape_results x ≡ result_with (spelled copier.now) (type_shapes.shape_results results.now)) }
{
    match results {
        Results::Nothing => Ok(Results::Nothing),
        Results::Single(type_expr) => {
            Ok(Results::Single(copied!(copy_boxed_type(copier, type_expr))))
        }
        Results::Listed(params) => {
            let entries = copied!(copy_params(copier, &params.entries));
            Ok(Results::Listed(Params {
                open: params.open,
                entries,
                close: params.close,
            }))
        }
    }
}

// The same entries of a parameter list.
#[cycle(types)]
fn copy_params(copier: &Copier<'_>, params: &Vec<Param>) -> Result<Vec<Param>, AllocError>
    ensures { IfOk result (λ x. type_shapes.params_of x.items ≡ params_with (spelled copier.now) (type_shapes.params_of params.now.items)) }
{
    let mut copies = Vec::new(copier.alloc);
    for param in params {
        let names = copy_some_idents(copier, &param.names);
        let (names, type_expr) = copied!(both(names, copy_type(copier, &param.type_expr)));
        copied!(add(
            &mut copies,
            Param {
                names,
                type_expr,
                comma: param.comma,
            },
        ));
    }
    Ok(copies)
}

/// The same expression.
#[cycle(exprs)]
pub(crate) fn copy_expr(copier: &Copier<'_>, expr: &Expr) -> Result<Expr, AllocError>
    ensures { IfOk result (λ x. shapes.shape x ≡ expr_with (spelled copier.now) (shapes.shape expr.now)) }
{
    match expr {
        Expr::Integer(value, span) => Ok(Expr::Integer(*value, *span)),
        Expr::Text(text) => Ok(Expr::Text(copied!(copy_text(copier.alloc, text)))),
        Expr::Name(ident) => Ok(Expr::Name(copied!(copy_ident(copier, ident)))),
        Expr::Paren(open, inner, close) => {
            Ok(Expr::Paren(*open, copied!(copy_boxed(copier, inner)), *close))
        }
        Expr::Unary(operator, span, inner) => {
            Ok(Expr::Unary(*operator, *span, copied!(copy_boxed(copier, inner))))
        }
        Expr::Binary(binary) => Ok(Expr::Binary(copied!(copy_binary(copier, binary)))),
        Expr::Select(select) => Ok(Expr::Select(copied!(copy_select(copier, select)))),
        Expr::Call(call) => Ok(Expr::Call(copied!(copy_call(copier, call)))),
        Expr::Literal(literal) => Ok(Expr::Literal(copied!(copy_literal(copier, literal)))),
        Expr::StructLiteral(literal) => {
            Ok(Expr::StructLiteral(copied!(copy_struct_literal(copier, literal))))
        }
    }
}

/// The same expression, in a box.
#[cycle(exprs)]
pub(crate) fn copy_boxed(copier: &Copier<'_>, expr: &Box<Expr>) -> Result<Box<Expr>, AllocError>
    ensures { IfOk result (λ x. shapes.shape x.value ≡ expr_with (spelled copier.now) (shapes.shape expr.now.value)) }
{
    let copy = copied!(copy_expr(copier, expr));
    boxed(copier.alloc, copy)
}

// The same operator between the same operands.
#[cycle(exprs)]
fn copy_binary(copier: &Copier<'_>, binary: &BinaryExpr) -> Result<Box<BinaryExpr>, AllocError>
    ensures { IfOk result (λ x. Binary (shapes.shape x.value.left) x.value.operator x.value.span (shapes.shape x.value.right) ≡ expr_with (spelled copier.now) (Binary (shapes.shape binary.now.left) binary.now.operator binary.now.span (shapes.shape binary.now.right))) }
{
    let left = copy_expr(copier, &binary.left);
    let (left, right) = copied!(both(left, copy_expr(copier, &binary.right)));
    boxed(
        copier.alloc,
        BinaryExpr {
            left,
            operator: binary.operator,
            span: binary.span,
            right,
        },
    )
}

// The same selector.
#[cycle(exprs)]
fn copy_select(copier: &Copier<'_>, select: &SelectExpr) -> Result<Box<SelectExpr>, AllocError>
    ensures { IfOk result (λ x. Select (shapes.shape x.value.operand) x.value.dot x.value.name ≡ expr_with (spelled copier.now) (Select (shapes.shape select.now.operand) select.now.dot select.now.name)) }
{
    let name = copy_ident(copier, &select.name);
    let (name, operand) = copied!(both(name, copy_expr(copier, &select.operand)));
    boxed(
        copier.alloc,
        SelectExpr {
            operand,
            dot: select.dot,
            name,
        },
    )
}

// The same call.
#[cycle(exprs)]
fn copy_call(copier: &Copier<'_>, call: &CallExpr) -> Result<Box<CallExpr>, AllocError>
    ensures { IfOk result (λ x. shapes.shape_call x.value ≡ expr_with (spelled copier.now) (shapes.shape_call call.now)) }
{
    let args = copy_items(copier, &call.args);
    let (args, callee) = copied!(both(args, copy_expr(copier, &call.callee)));
    boxed(
        copier.alloc,
        CallExpr {
            callee,
            open: call.open,
            args,
            close: call.close,
        },
    )
}

// The same literal of a named type.
#[cycle(exprs)]
fn copy_literal(copier: &Copier<'_>, literal: &LiteralExpr) -> Result<Box<LiteralExpr>, AllocError>
    ensures { IfOk result (λ x. shapes.shape_literal x.value ≡ expr_with (spelled copier.now) (shapes.shape_literal literal.now)) }
{
    let type_name = copy_type_name(copier, &literal.type_name);
    let (type_name, elements) = copied!(both(type_name, copy_items(copier, &literal.elements)));
    boxed(
        copier.alloc,
        LiteralExpr {
            type_name,
            open: literal.open,
            elements,
            close: literal.close,
        },
    )
}

// The same literal of a struct type that is written out.
#[cycle(exprs)]
fn copy_struct_literal(
    copier: &Copier<'_>,
    literal: &StructLiteralExpr,
) -> Result<Box<StructLiteralExpr>, AllocError>
    ensures { IfOk result (λ x. shapes.shape_struct_literal x.value ≡ expr_with (spelled copier.now) (shapes.shape_struct_literal literal.now)) }
{
    let type_expr = copy_type(copier, &literal.type_expr);
    let (type_expr, elements) = copied!(both(type_expr, copy_items(copier, &literal.elements)));
    boxed(
        copier.alloc,
        StructLiteralExpr {
            type_expr,
            open: literal.open,
            elements,
            close: literal.close,
        },
    )
}

// The same key, where one stands.
fn copy_key(copier: &Copier<'_>, key: &Option<Box<Key>>) -> Result<Option<Box<Key>>, AllocError>
    ensures { IfOk result (λ x. shapes.shape_key x ≡ some_with (key_with (spelled copier.now)) (shapes.shape_key key.now)) }
{
    match key {
        None => Ok(None),
        Some(key) => {
            let name = copied!(copy_ident(copier, &key.name));
            let copy = Key {
                name,
                colon: key.colon,
            };
            Ok(Some(copied!(boxed(copier.alloc, copy))))
        }
    }
}

// The same arguments or elements.
#[cycle(exprs)]
fn copy_items(copier: &Copier<'_>, items: &Vec<Item>) -> Result<Vec<Item>, AllocError>
    ensures { IfOk result (λ x. shapes.items_of x.items ≡ items_with (spelled copier.now) (shapes.items_of items.now.items)) }
{
    let mut copies = Vec::new(copier.alloc);
    for item in items {
        let (key, value) = copied!(both(
            copy_key(copier, &item.key),
            copy_expr(copier, &item.value)
        ));
        copied!(add(
            &mut copies,
            Item {
                key,
                value,
                comma: item.comma,
            },
        ));
    }
    Ok(copies)
}

/// The same expressions.
pub(crate) fn copy_exprs(copier: &Copier<'_>, exprs: &Exprs) -> Result<Exprs, AllocError>
    ensures { IfOk result (λ x. shapes.shape_exprs x ≡ exprs_with (spelled copier.now) (shapes.shape_exprs exprs.now)) }
{
    let mut more = Vec::new(copier.alloc);
    for next in &exprs.more {
        let expr = copied!(copy_expr(copier, &next.expr));
        copied!(add(
            &mut more,
            NextExpr {
                comma: next.comma,
                expr,
            },
        ));
    }
    let first = copied!(copy_expr(copier, &exprs.first));
    Ok(Exprs { first, more })
}
