//! The identifiers that expressions declare: those of the struct types that are written in them.
ghost use Rattle.go_tree_nodes.specs.Shapes.{shape, items_of, shape_exprs, shape_some_type, shape_values, shape_value_spec};
ghost use Rattle.go_decl_core.specs.Outer.{expr_outers, items_outers, exprs_outers, some_type_outers, values_outers, rest_outers};
ghost use Rattle.go_decl_core.specs.mirrors.Listing.{Adds};

use crate::lister::Lister;
use crate::type_places::list_type;
use go_tree_nodes::{Expr, Exprs, Item, TypeExpr, ValueSpec, Values};

/// Lists what an expression declares.
#[cycle(list)]
fn list_expr(lister: &mut Lister, expr: &Expr)
    ensures { Adds lister.old (expr_outers (shape expr.now)) lister.new }
{
    match expr {
        Expr::Integer(_, _) => {}
        Expr::Text(_) => {}
        Expr::Name(_) => {}
        Expr::Paren(_, inner, _) => list_expr(lister, inner),
        Expr::Unary(_, _, inner) => list_expr(lister, inner),
        Expr::Binary(binary) => {
            list_expr(lister, &binary.left);
            list_expr(lister, &binary.right);
        }
        Expr::Select(select) => list_expr(lister, &select.operand),
        Expr::Call(call) => {
            list_expr(lister, &call.callee);
            list_items(lister, &call.args);
        }
        Expr::Literal(literal) => list_items(lister, &literal.elements),
        Expr::StructLiteral(literal) => {
            list_type(lister, &literal.type_expr);
            list_items(lister, &literal.elements);
        }
    }
}

// Lists what arguments or elements declare.
#[cycle(list)]
fn list_items(lister: &mut Lister, items: &Vec<Item>)
    ensures { Adds lister.old (items_outers (items_of items.now.items)) lister.new }
{
    for item in items {
        list_expr(lister, &item.value);
    }
}

// Lists what expressions with commas between them declare.
fn list_exprs(lister: &mut Lister, exprs: &Exprs)
    ensures { Adds lister.old (exprs_outers (shape_exprs exprs.now)) lister.new }
{
    list_expr(lister, &exprs.first);
    for next in &exprs.more {
        list_expr(lister, &next.expr);
    }
}

// Lists what a type declares, where one is written.
fn list_some_type(lister: &mut Lister, type_expr: &Option<TypeExpr>)
    ensures { Adds lister.old (some_type_outers (shape_some_type type_expr.now)) lister.new }
{
    match type_expr {
        None => {}
        Some(type_expr) => list_type(lister, type_expr),
    }
}

// Lists what values declare, where they are written.
fn list_values(lister: &mut Lister, values: &Option<Values>)
    ensures { Adds lister.old (values_outers (shape_values values.now)) lister.new }
{
    match values {
        None => {}
        Some(values) => list_exprs(lister, &values.exprs),
    }
}

/// Lists what the type and the values of a specification declare.
pub(crate) fn list_rest(lister: &mut Lister, spec: &ValueSpec)
    ensures { Adds lister.old (rest_outers (shape_value_spec spec.now)) lister.new }
{
    list_some_type(lister, &spec.type_expr);
    list_values(lister, &spec.values);
}
