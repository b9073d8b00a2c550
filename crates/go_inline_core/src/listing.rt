//! The types that are written in a piece of a function, or in a specification.

ghost use Rattle.std.specs.Prelude.{◌≡◌, ◌∷◌, [], false};
ghost use Rattle.go_tree_nodes.specs.Shapes as shapes;
ghost use Rattle.go_tree_nodes.specs.TypeShapes as type_shapes;
ghost use Rattle.go_tree_nodes.specs.WrittenTypes as written;
ghost use Rattle.go_inline_core.specs.mirrors.Listing.{Lists};

use go_tree_nodes::{
    Expr, Exprs, Item, Param, Results, Signature, Simple, TypeExpr, ValueSpec, Values,
};
use std::alloc::Global;

/// The types that were listed so far, and whether memory was wanting: then those behind are left out.
#[derive(Drop)]
pub(crate) struct TypeList<'a> {
    pub(crate) trees: Vec<&'a TypeExpr>,
    pub(crate) lacks_memory: bool,
}

impl<'a> TypeList<'a> {
    /// No type.
    pub(crate) fn new(alloc: Global) -> TypeList<'a>
        ensures trees { result.trees.items ≡ [] }
        ensures memory { result.lacks_memory ≡ false }
    {
        TypeList {
            trees: Vec::new(alloc),
            lacks_memory: false,
        }
    }
}

// Lists a type.
fn list_type<'a>(tree: &'a TypeExpr, list: &mut TypeList<'a>)
    ensures { Lists list.old (type_shapes.shape_type tree.now ∷ []) list.new }
{
    if list.lacks_memory {
        return;
    }
    list.lacks_memory = list.trees.push(tree).is_err();
}

/// Lists the types of the parameters and the results of a signature.
pub(crate) fn list_signature<'a>(signature: &'a Signature, list: &mut TypeList<'a>)
    ensures { Lists list.old (written.signature_types (type_shapes.shape_signature signature.now)) list.new }
{
    list_params(&signature.params.entries, list);
    list_results(&signature.results, list);
}

// Lists the types of results.
fn list_results<'a>(results: &'a Results, list: &mut TypeList<'a>)
    ensures { Lists list.old (written.result_types (type_shapes.shape_results results.now)) list.new }
{
    match results {
        Results::Nothing => {}
        Results::Single(tree) => list_type(tree, list),
        Results::Listed(params) => list_params(&params.entries, list),
    }
}

// Lists the types of parameters.
fn list_params<'a>(params: &'a Vec<Param>, list: &mut TypeList<'a>)
    ensures { Lists list.old (written.params_types (type_shapes.params_of params.now.items)) list.new }
{
    for param in params {
        list_type(&param.type_expr, list);
    }
}

/// Lists the struct types before the literals of an expression.
#[cycle(exprs)]
pub(crate) fn list_expr<'a>(expr: &'a Expr, list: &mut TypeList<'a>)
    ensures { Lists list.old (written.expr_types (shapes.shape expr.now)) list.new }
{
    match expr {
        Expr::Integer(_, _) => {}
        Expr::Text(_) => {}
        Expr::Name(_) => {}
        Expr::Paren(_, inner, _) => list_expr(inner, list),
        Expr::Unary(_, _, inner) => list_expr(inner, list),
        Expr::Binary(binary) => {
            list_expr(&binary.left, list);
            list_expr(&binary.right, list);
        }
        Expr::Select(select) => list_expr(&select.operand, list),
        Expr::Call(call) => {
            list_expr(&call.callee, list);
            list_items(&call.args, list);
        }
        Expr::Literal(literal) => list_items(&literal.elements, list),
        Expr::StructLiteral(literal) => {
            list_type(&literal.type_expr, list);
            list_items(&literal.elements, list);
        }
    }
}

// Lists the struct types before the literals of arguments or elements.
#[cycle(exprs)]
fn list_items<'a>(items: &'a Vec<Item>, list: &mut TypeList<'a>)
    ensures { Lists list.old (written.items_types (shapes.items_of items.now.items)) list.new }
{
    for item in items {
        list_expr(&item.value, list);
    }
}

/// Lists the struct types before the literals of expressions with commas between them.
pub(crate) fn list_exprs<'a>(exprs: &'a Exprs, list: &mut TypeList<'a>)
    ensures { Lists list.old (written.exprs_types (shapes.shape_exprs exprs.now)) list.new }
{
    list_expr(&exprs.first, list);
    for next in &exprs.more {
        list_expr(&next.expr, list);
    }
}

// Lists a type, where one is written.
fn list_some_type<'a>(tree: &'a Option<TypeExpr>, list: &mut TypeList<'a>)
    ensures { Lists list.old (written.some_type (shapes.shape_some_type tree.now)) list.new }
{
    match tree {
        None => {}
        Some(tree) => list_type(tree, list),
    }
}

// Lists the struct types before the literals of values, where they are written.
fn list_values<'a>(values: &'a Option<Values>, list: &mut TypeList<'a>)
    ensures { Lists list.old (written.values_types (shapes.shape_values values.now)) list.new }
{
    match values {
        None => {}
        Some(values) => list_exprs(&values.exprs, list),
    }
}

/// Lists the types of a specification of constants or variables.
pub(crate) fn list_spec<'a>(spec: &'a ValueSpec, list: &mut TypeList<'a>)
    ensures { Lists list.old (written.spec_types (shapes.shape_value_spec spec.now)) list.new }
{
    list_some_type(&spec.type_expr, list);
    list_values(&spec.values, list);
}

/// Lists the types of a statement that may stand in a header.
pub(crate) fn list_simple<'a>(simple: &'a Simple, list: &mut TypeList<'a>)
    ensures { Lists list.old (written.simple_types (shapes.shape_simple simple.now)) list.new }
{
    match simple {
        Simple::Expr(expr) => list_expr(expr, list),
        Simple::Step(expr, _, _) => list_expr(expr, list),
        Simple::Assign(assignment) => {
            list_exprs(&assignment.targets, list);
            list_exprs(&assignment.values, list);
        }
        Simple::Update(update) => {
            list_expr(&update.target, list);
            list_expr(&update.value, list);
        }
        Simple::Define(definition) => list_exprs(&definition.values, list),
    }
}

/// Lists the types of what is returned.
pub(crate) fn list_some_exprs<'a>(exprs: &'a Option<Box<Exprs>>, list: &mut TypeList<'a>)
    ensures { Lists list.old (written.some_exprs_types (shapes.shape_some_exprs exprs.now)) list.new }
{
    match exprs {
        None => {}
        Some(exprs) => list_exprs(exprs, list),
    }
}
