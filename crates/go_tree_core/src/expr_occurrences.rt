//! The identifiers that are used, and the calls, in expressions and in declarations of values and types.

ghost use Rattle.std.specs.Prelude.{◌≡◌};
ghost use Rattle.go_tree_nodes.specs.Shapes as shapes;
ghost use Rattle.go_tree_core.specs.Occurrences as occurrences;

use crate::occurrence::{Context, Role};
use crate::type_occurrences::{visit_type, visit_type_name};
use crate::visitor::{Visitor, visit_call, visit_ident};
use go_tree_nodes::token_core::Operator;
use go_tree_nodes::{
    Expr, Exprs, Ident, Item, Key, TypeDecl, TypeExpr, TypeSpecs, Usage, ValueDecl, ValueSpec,
    ValueSpecs, Values,
};

// The context of what stands in parentheses.
fn inside(context: Context) -> Context
    ensures { result ≡ occurrences.inside_context context }
{
    match context {
        Context::BeforeDot => Context::Value,
        Context::Type => Context::Type,
        Context::Value => Context::Value,
        Context::Callee => Context::Callee,
        Context::Target => Context::Target,
    }
}

// The context of what stands behind a unary operator.
fn under(operator: Operator, context: Context) -> Context
    ensures { result ≡ occurrences.under operator context }
{
    if matches!(operator, Operator::Star) {
        match context {
            Context::Type | Context::Callee => Context::Type,
            Context::Value | Context::BeforeDot | Context::Target => Context::Value,
        }
    } else {
        Context::Value
    }
}

// How a selector as a whole is used.
fn whole(context: Context) -> Usage
    ensures { result ≡ occurrences.whole_usage context }
{
    match context {
        Context::Type => Usage::Type,
        Context::Callee => Usage::Callee,
        Context::Value | Context::BeforeDot | Context::Target => Usage::Value,
    }
}

// Visits the occurrence of a name in a context.
fn visit_named<V: Visitor>(visitor: &mut V, context: Context, ident: &Ident)
    ensures { V.Sees visitor.old (occurrences.named_occs context ident.now) visitor.new }
{
    match context {
        Context::Type => visit_ident(visitor, Role::Type, ident),
        Context::Value => visit_ident(visitor, Role::Value, ident),
        Context::Callee => visit_ident(visitor, Role::Callee, ident),
        Context::BeforeDot => visit_ident(visitor, Role::Qualifier, ident),
        Context::Target => {
            if ident.name.as_str() != "_" {
                visit_ident(visitor, Role::Value, ident);
            }
        }
    }
}

/// Visits the occurrences of an expression in a context.
#[cycle(visit)]
pub(crate) fn visit_expr<V: Visitor>(visitor: &mut V, context: Context, expr: &Expr)
    ensures { V.Sees visitor.old (occurrences.expr_occs context (shapes.shape expr.now)) visitor.new }
{
    match expr {
        Expr::Integer(_, _) => {}
        Expr::Text(_) => {}
        Expr::Name(ident) => visit_named(visitor, context, ident),
        Expr::Paren(_, inner, _) => visit_expr(visitor, inside(context), inner),
        Expr::Unary(operator, _, inner) => visit_expr(visitor, under(*operator, context), inner),
        Expr::Binary(binary) => {
            visit_expr(visitor, Context::Value, &binary.left);
            visit_expr(visitor, Context::Value, &binary.right);
        }
        Expr::Select(select) => {
            visit_expr(visitor, Context::BeforeDot, &select.operand);
            visit_ident(visitor, Role::Selector(whole(context)), &select.name);
        }
        Expr::Call(call) => {
            visit_expr(visitor, Context::Callee, &call.callee);
            visit_call(visitor, call.open);
            visit_items(visitor, &call.args);
        }
        Expr::Literal(literal) => {
            visit_type_name(visitor, &literal.type_name);
            visit_items(visitor, &literal.elements);
        }
        Expr::StructLiteral(literal) => {
            visit_type(visitor, &literal.type_expr);
            visit_items(visitor, &literal.elements);
        }
    }
}

// Visits the occurrence of a key, where one stands.
fn visit_key<V: Visitor>(visitor: &mut V, key: &Option<Box<Key>>)
    ensures { V.Sees visitor.old (occurrences.key_occs (shapes.shape_key key.now)) visitor.new }
{
    match key {
        None => {}
        Some(key) => visit_ident(visitor, Role::Key, &key.name),
    }
}

// Visits the occurrences of arguments or elements.
#[cycle(visit)]
fn visit_items<V: Visitor>(visitor: &mut V, items: &Vec<Item>)
    ensures { V.Sees visitor.old (occurrences.items_occs (shapes.items_of items.now.items)) visitor.new }
{
    for item in items {
        visit_key(visitor, &item.key);
        visit_expr(visitor, Context::Value, &item.value);
    }
}

/// Visits the occurrences of expressions with commas between them.
pub(crate) fn visit_exprs<V: Visitor>(visitor: &mut V, context: Context, exprs: &Exprs)
    ensures { V.Sees visitor.old (occurrences.exprs_occs context (shapes.shape_exprs exprs.now)) visitor.new }
{
    visit_expr(visitor, context, &exprs.first);
    for next in &exprs.more {
        visit_expr(visitor, context, &next.expr);
    }
}

// Visits the occurrences of a type, where one is written.
fn visit_some_type<V: Visitor>(visitor: &mut V, type_expr: &Option<TypeExpr>)
    ensures { V.Sees visitor.old (occurrences.some_type_occs (shapes.shape_some_type type_expr.now)) visitor.new }
{
    match type_expr {
        None => {}
        Some(type_expr) => visit_type(visitor, type_expr),
    }
}

// Visits the occurrences of values, where they are written.
fn visit_values<V: Visitor>(visitor: &mut V, values: &Option<Values>)
    ensures { V.Sees visitor.old (occurrences.values_occs (shapes.shape_values values.now)) visitor.new }
{
    match values {
        None => {}
        Some(values) => visit_exprs(visitor, Context::Value, &values.exprs),
    }
}

// Visits the occurrences of one specification of values.
fn visit_value_spec<V: Visitor>(visitor: &mut V, spec: &ValueSpec)
    ensures { V.Sees visitor.old (occurrences.value_spec_occs (shapes.shape_value_spec spec.now)) visitor.new }
{
    visit_some_type(visitor, &spec.type_expr);
    visit_values(visitor, &spec.values);
}

/// Visits the occurrences of a declaration of constants or variables.
pub(crate) fn visit_value<V: Visitor>(visitor: &mut V, value: &ValueDecl)
    ensures { V.Sees visitor.old (occurrences.value_occs (shapes.shape_value value.now)) visitor.new }
{
    match &value.specs {
        ValueSpecs::One(spec) => visit_value_spec(visitor, spec),
        ValueSpecs::Group(_, lines, _) => {
            for line in lines {
                visit_value_spec(visitor, &line.spec);
            }
        }
    }
}

/// Visits the occurrences of a declaration of types.
pub(crate) fn visit_type_decl<V: Visitor>(visitor: &mut V, types: &TypeDecl)
    ensures { V.Sees visitor.old (occurrences.type_decl_occs (shapes.shape_type_decl types.now)) visitor.new }
{
    match &types.specs {
        TypeSpecs::One(spec) => visit_type(visitor, &spec.type_expr),
        TypeSpecs::Group(_, lines, _) => {
            for line in lines {
                visit_type(visitor, &line.spec.type_expr);
            }
        }
    }
}
