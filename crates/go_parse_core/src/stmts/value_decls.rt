//! Declarations of constants and variables.
//!
//! What was read is dropped by name where reading stops behind it. That is one call; a `?` writes out the tree's drop.
ghost use Rattle.std.specs.Prelude.{◌≡◌, ◌<◌, ◌^◌, map};
ghost use Rattle.go_tree_nodes.specs.token_core.declared.kind.Operator.TheVariants as operator;
ghost use Rattle.go_tree_nodes.specs.Shapes.{shape_some_type, shape_values, shape_value_spec, shape_value_line, shape_value};
ghost use Rattle.go_parse_reader.specs.types.mirrors.EntryShapes.{list_all};
ghost use Rattle.go_parse_reader.specs.types.mirrors.Giving.{Gives};
ghost use Rattle.go_parse_reader.specs.types.mirrors.Marks.{mark_at};
ghost use Rattle.go_parse_core.specs.stmts.mirrors.StmtReading.{some_type_at, values_by, enough, value_spec_at, value_at, value_word};

use go_parse_reader::exprs::exprs;
use go_parse_reader::types::{Ahead, Stop, add, fitted, idents, type_expr};
use go_tree_nodes::text_core::Span;
use go_tree_nodes::token_core::{Keyword, Operator};
use go_tree_nodes::{TypeExpr, ValueDecl, ValueKind, ValueLine, ValueSpec, ValueSpecs, Values};
use std::alloc::Global;

/// `const` or `var` in front, its place, and what is behind it.
pub fn value_keyword<'a>(ahead: &Ahead<'a>) -> Option<(ValueKind, Span, Ahead<'a>)>
    ensures { result ≡ value_word ahead.now }
{
    if let Some((keyword, rest)) = ahead.word(Keyword::Const) {
        return Some((ValueKind::Const, keyword, rest));
    }
    let (keyword, rest) = ahead.word(Keyword::Var)?;
    Some((ValueKind::Var, keyword, rest))
}

/// The type in front, at most `budget` high, if one may begin there.
fn some_type<'a>(
    alloc: Global,
    ahead: Ahead<'a>,
    budget: u32,
) -> Result<(Option<TypeExpr>, Ahead<'a>), Stop>
    ensures { Gives (λ x. (shape_some_type x.0, x.1)) result (some_type_at budget ahead.entry) }
{
    if !ahead.begins_type() {
        return Ok((None, ahead));
    }
    let (type_expr, rest) = type_expr(alloc, ahead, budget)?;
    Ok((Some(type_expr), rest))
}

/// The `=` in front if it stands there, and the values behind it, each at most `budget` high.
fn some_values<'a>(
    alloc: Global,
    ahead: Ahead<'a>,
    budget: u32,
) -> Result<(Option<Values>, Ahead<'a>), Stop>
    requires { budget < 2 ^ 31 }
    ensures { Gives (λ x. (shape_values x.0, x.1)) result (values_by budget ahead.entry (mark_at operator.Assign ahead.entry)) }
{
    let Some((assign, rest)) = ahead.mark(Operator::Assign) else {
        return Ok((None, ahead));
    };
    let (exprs, _, rest) = exprs(alloc, rest, false, budget)?;
    Ok((Some(Values { assign, exprs }), rest))
}

/// Whether enough is declared: of a constant its values, of a variable its type or its values.
/// Values are there if an `=` is in front of `ahead`.
fn is_enough(kind: ValueKind, type_expr: &Option<TypeExpr>, ahead: &Ahead<'_>) -> bool
    ensures { result ≡ enough kind (shape_some_type type_expr.now) (mark_at operator.Assign ahead.now) }
{
    let values = ahead.mark(Operator::Assign);
    match kind {
        ValueKind::Const => values.is_some(),
        ValueKind::Var => type_expr.is_some() || values.is_some(),
    }
}

/// Names, their type and their values in front, each at most `budget` high.
fn value_spec<'a>(
    alloc: Global,
    ahead: Ahead<'a>,
    kind: ValueKind,
    budget: u32,
) -> Result<(ValueSpec, Ahead<'a>), Stop>
    requires { budget < 2 ^ 31 }
    ensures { Gives (λ x. (shape_value_spec x.0, x.1)) result (value_spec_at budget kind ahead.entry) }
{
    let (names, rest) = idents(alloc, ahead)?;
    let (type_expr, rest) = some_type(alloc, rest, budget)?;
    if !is_enough(kind, &type_expr, &rest) {
        drop(type_expr);
        return Err(Stop::Grammar(rest.offset()));
    }
    match some_values(alloc, rest, budget) {
        Ok((values, rest)) => {
            let spec = ValueSpec {
                names,
                type_expr,
                values,
            };
            Ok((spec, rest))
        }
        Err(stop) => {
            drop(type_expr);
            Err(stop)
        }
    }
}

/// The specifications in front up to a closing parenthesis, with types and values at most `budget` high.
fn value_lines<'a>(
    alloc: Global,
    ahead: Ahead<'a>,
    kind: ValueKind,
    budget: u32,
) -> Result<(Vec<ValueLine>, Ahead<'a>), Stop>
    requires { budget < 2 ^ 31 }
    ensures { Gives (λ x. (map shape_value_line x.0.items, x.1)) result (list_all (value_spec_at budget kind) operator.Semicolon operator.CloseParen ahead.entry) }
{
    let mut all = Vec::new(alloc);
    let mut rest = ahead;
    'turns: while rest.mark(Operator::CloseParen).is_none() {
        let (spec, behind) = value_spec(alloc, rest, kind, budget)?;
        // Into the list before what can fail: the drop of a list is one call.
        let (semicolon, behind) = behind.some_mark(Operator::Semicolon);
        add(&mut all, ValueLine { spec, semicolon })?;
        if semicolon.is_none() {
            // The last semicolon before the parenthesis may be left out.
            behind.need_mark(Operator::CloseParen)?;
            return Ok((fitted(all), behind));
        }
        rest = behind;
    }
    Ok((fitted(all), rest))
}

/// What stands behind `const` or `var` (the Go specification, "Constant declarations" and "Variable declarations"),
/// with types and values at most `budget` high.
///
/// # Errors
///
/// [`Stop::Grammar`] where no declaration stands there, with the offset in bytes of the first token that is no part of
/// one; [`Stop::TooHigh`] where it would be too high, with the offset in bytes of what is too deep inside it; and
/// [`Stop::Memory`] where memory runs out.
pub fn value_decl<'a>(
    alloc: Global,
    ahead: Ahead<'a>,
    kind: ValueKind,
    keyword: Span,
    budget: u32,
) -> Result<(ValueDecl, Ahead<'a>), Stop>
    requires { budget < 2 ^ 31 }
    ensures { Gives (λ x. (shape_value x.0, x.1)) result (value_at budget kind keyword ahead.entry) }
{
    let Some((open, rest)) = ahead.mark(Operator::OpenParen) else {
        let (spec, rest) = value_spec(alloc, ahead, kind, budget)?;
        let decl = ValueDecl {
            kind,
            keyword,
            specs: ValueSpecs::One(spec),
        };
        return Ok((decl, rest));
    };
    let (lines, rest) = value_lines(alloc, rest, kind, budget)?;
    let (close, rest) = rest.need_mark(Operator::CloseParen)?;
    let decl = ValueDecl {
        kind,
        keyword,
        specs: ValueSpecs::Group(open, lines, close),
    };
    Ok((decl, rest))
}
