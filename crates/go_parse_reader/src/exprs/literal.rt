//! The front of a composite literal, and the keys of its elements.
ghost use Rattle.std.specs.Prelude.{◌≡◌, IfOk};
ghost use Rattle.go_tree_nodes.specs.Shapes.{shape_key};
ghost use Rattle.go_parse_reader.specs.exprs.mirrors.ExprReading as reading;
ghost use Rattle.go_parse_reader.specs.exprs.mirrors.CodeShapes as shapes;

use crate::types::{Ahead, boxed};
use go_tree_nodes::token_core::Operator;
use go_tree_nodes::{Ident, Key, TypeName};
use std::alloc::{AllocError, Global};

/// Whether an opening brace stands in front, or behind a dot and a name in front; in a header there is none.
pub fn opens_body(ahead: &Ahead<'_>, header: bool) -> bool
    ensures { result ≡ shapes.opens_body header ahead.now }
{
    if header {
        return false;
    }
    let Some((_, behind)) = ahead.mark(Operator::Dot) else {
        return ahead.mark(Operator::OpenBrace).is_some();
    };
    let Some(rest) = behind.behind_name() else {
        return ahead.mark(Operator::OpenBrace).is_some();
    };
    rest.mark(Operator::OpenBrace).is_some()
}

/// The name of a type that begins with `first`: a dot belongs to it where a name stands behind.
///
/// # Errors
///
/// [`AllocError`] where memory runs out.
pub fn literal_name<'a>(
    alloc: Global,
    first: Ident,
    ahead: Ahead<'a>,
) -> Result<(TypeName, Ahead<'a>), AllocError>
    ensures { IfOk result (λ x. (x.0, x.1) ≡ reading.literal_name first ahead.entry) }
{
    let Some((dot, behind)) = ahead.mark(Operator::Dot) else {
        return Ok((TypeName::Plain(first), ahead));
    };
    let Some((name, rest)) = behind.name(alloc)? else {
        return Ok((TypeName::Plain(first), ahead));
    };
    Ok((TypeName::Qualified(first, dot, name), rest))
}

/// The name and the colon in front, where there may be a key and these stand there; and what is behind them.
///
/// # Errors
///
/// [`AllocError`] where memory runs out.
pub fn key<'a>(
    alloc: Global,
    ahead: Ahead<'a>,
    keyed: bool,
) -> Result<(Option<Box<Key>>, Ahead<'a>), AllocError>
    ensures { IfOk result (λ x. (shape_key x.0, x.1) ≡ shapes.some_key keyed ahead.entry) }
{
    if !keyed {
        return Ok((None, ahead));
    }
    let Some((name, rest)) = ahead.name(alloc)? else {
        return Ok((None, ahead));
    };
    let Some((colon, rest)) = rest.mark(Operator::Colon) else {
        return Ok((None, ahead));
    };
    let key = boxed(alloc, Key { name, colon })?;
    Ok((Some(key), rest))
}
