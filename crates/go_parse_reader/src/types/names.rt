//! Names with commas between them, and the names of types.
ghost use Rattle.std.specs.Prelude.{◌≡◌, suc, length};
ghost use Rattle.go_tree_nodes.specs.TypeShapes.{shape_idents, shape_type};
ghost use Rattle.go_tree_nodes.specs.Naming.{type_name_of};
ghost use Rattle.go_parse_reader.specs.types.mirrors.Giving.{Gives};
ghost use Rattle.go_parse_reader.specs.types.mirrors.Marks.{idents_go};
ghost use Rattle.go_parse_reader.specs.types.mirrors.TypeReading.{type_name_at, named_at, named_type_at};

use crate::types::ahead::Ahead;
use crate::types::stop::Stop;
use go_tree_nodes::text_core::{add, fitted};
use go_tree_nodes::token_core::Operator;
use go_tree_nodes::{Idents, NextIdent, TypeExpr, TypeName};
use std::alloc::Global;

/// The names in front with commas between them.
///
/// # Errors
///
/// [`Stop::Grammar`] where a name is missing, with the offset in bytes of what stands in its place, and
/// [`Stop::Memory`] where memory runs out.
pub fn idents<'a>(alloc: Global, ahead: Ahead<'a>) -> Result<(Idents, Ahead<'a>), Stop>
    ensures { Gives (λ x. (shape_idents x.0, x.1)) result (idents_go (suc (length ahead.entry)) ahead.entry) }
{
    let (first, mut rest) = ahead.need_name(alloc)?;
    let mut more = Vec::new(alloc);
    'turns: while let Some((comma, after)) = rest.mark(Operator::Comma) {
        let (ident, after) = after.need_name(alloc)?;
        add(&mut more, NextIdent { comma, ident })?;
        rest = after;
    }
    let more = fitted(more);
    Ok((Idents { first, more }, rest))
}

/// The name of a type in front.
///
/// # Errors
///
/// [`Stop::Grammar`] where a name is missing, with the offset in bytes of what stands in its place, and
/// [`Stop::Memory`] where memory runs out.
pub fn type_name<'a>(alloc: Global, ahead: Ahead<'a>) -> Result<(TypeName, Ahead<'a>), Stop>
    ensures { Gives (λ x. (x.0, x.1)) result (type_name_at ahead.entry) }
{
    let (first, rest) = ahead.need_name(alloc)?;
    let Some((dot, behind)) = rest.mark(Operator::Dot) else {
        return Ok((TypeName::Plain(first), rest));
    };
    behind.need_name(alloc).map(|(name, rest)| (TypeName::Qualified(first, dot, name), rest))
}

/// The name of a type in front as a type, at most `budget` high.
///
/// # Errors
///
/// [`Stop::Grammar`] where a name is missing, with the offset in bytes of what stands in its place; [`Stop::TooHigh`]
/// where `budget` is 0, with the offset in bytes of what is in front; and [`Stop::Memory`] where memory runs out.
pub fn named_type<'a>(
    alloc: Global,
    ahead: Ahead<'a>,
    budget: u32,
) -> Result<(TypeExpr, Ahead<'a>), Stop>
    ensures { Gives (λ x. (shape_type x.0, x.1)) result (named_type_at budget ahead.entry) }
{
    if budget == 0 {
        return Err(Stop::TooHigh(ahead.offset()));
    }
    name_as_type(alloc, ahead)
}

/// The name of a type in front as a type.
pub(crate) fn name_as_type<'a>(
    alloc: Global,
    ahead: Ahead<'a>,
) -> Result<(TypeExpr, Ahead<'a>), Stop>
    ensures { Gives (λ x. (shape_type x.0, x.1)) result (named_at ahead.entry) }
{
    let (name, rest) = type_name(alloc, ahead)?;
    Ok((TypeExpr::Name(name), rest))
}

/// The name that a type is.
pub fn name_of(type_expr: TypeExpr) -> Option<TypeName>
    ensures { result ≡ type_name_of (shape_type type_expr) }
{
    type_expr.into_name()
}
