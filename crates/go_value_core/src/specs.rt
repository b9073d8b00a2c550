//! The parts of a specification of constants or variables.
ghost use Rattle.std.specs.Prelude.{◌≡◌, slice_get};
ghost use Rattle.std.specs.Option.{option_map};
ghost use Rattle.go_tree_nodes.specs.Shapes.{shape, shape_exprs, shape_value_spec, shape_values};
ghost use Rattle.go_value_core.specs.Initial as initial;
ghost use Rattle.go_value_core.specs.mirrors.Own.{is_alone};

use go_tree_nodes::{Expr, Exprs, ValueSpec, Values};

/// How many names.
pub(crate) fn name_count(spec: &ValueSpec) -> usize
    ensures { result ≡ initial.spec_name_count (shape_value_spec spec.now) }
{
    spec.names.more.len() + 1
}

// The expression of a number in a list, from 0.
fn expr_at<'a>(exprs: &'a Exprs, at: usize) -> Option<&'a Expr>
    ensures { option_map (λ e. shape e.now) result ≡ slice_get (initial.exprs (shape_exprs exprs.now)) at }
{
    if at == 0 {
        return Some(&exprs.first);
    }
    match exprs.more.get(at - 1) {
        Some(next) => Some(&next.expr),
        None => None,
    }
}

// The expression of the name of a number among so many: the only one is that of each; of several each name has its own, if there are as
// many.
fn expr_in<'a>(exprs: &'a Exprs, count: usize, at: usize) -> Option<&'a Expr>
    ensures { option_map (λ e. shape e.now) result ≡ initial.expr_in count at (shape_exprs exprs.now) }
{
    let more = exprs.more.len();
    if more == 0 {
        return Some(&exprs.first);
    }
    if more + 1 != count {
        return None;
    }
    expr_at(exprs, at)
}

/// The expression of the name of a number, from 0.
pub(crate) fn expr_of<'a>(spec: &'a ValueSpec, at: usize) -> Option<&'a Expr>
    ensures { option_map (λ e. shape e.now) result ≡ initial.expr_of (shape_value_spec spec.now) at }
{
    match &spec.values {
        None => None,
        Some(values) => expr_in(&values.exprs, name_count(spec), at),
    }
}

/// Whether its list of values has one expression.
pub(crate) fn is_alone(values: &Option<Values>) -> bool
    ensures { result ≡ is_alone (shape_values values.now) }
{
    match values {
        None => false,
        Some(values) => values.exprs.more.len() == 0,
    }
}
