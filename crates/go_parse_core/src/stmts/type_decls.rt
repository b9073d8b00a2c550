//! Declarations of types.
ghost use Rattle.std.specs.Prelude.{◌≡◌, map};
ghost use Rattle.go_tree_nodes.specs.token_core.declared.kind.Operator.TheVariants as operator;
ghost use Rattle.go_tree_nodes.specs.TypeShapes.{shape_type};
ghost use Rattle.go_tree_nodes.specs.Shapes.{shape_type_spec, shape_type_line, shape_type_decl};
ghost use Rattle.go_parse_reader.specs.types.mirrors.EntryShapes.{list_all};
ghost use Rattle.go_parse_reader.specs.types.mirrors.Giving.{Gives};
ghost use Rattle.go_parse_core.specs.stmts.mirrors.StmtReading.{spec_type_at, type_spec_at, types_at};

use go_parse_reader::types::{Ahead, Stop, add, fitted, named_type, type_expr};
use go_tree_nodes::text_core::Span;
use go_tree_nodes::token_core::Operator;
use go_tree_nodes::{TypeDecl, TypeExpr, TypeLine, TypeSpec, TypeSpecs};
use std::alloc::Global;

/// The type of a specification in front, at most `budget` high: behind the place of `=` the name of one.
fn spec_type<'a>(
    alloc: Global,
    ahead: Ahead<'a>,
    alias: Option<Span>,
    budget: u32,
) -> Result<(TypeExpr, Ahead<'a>), Stop>
    ensures { Gives (λ x. (shape_type x.0, x.1)) result (spec_type_at budget alias ahead.entry) }
{
    match alias {
        None => type_expr(alloc, ahead, budget),
        Some(_) => named_type(alloc, ahead, budget),
    }
}

/// The name in front and the type that it stands for, at most `budget` high: of an alias, behind `=`, the name of one.
fn type_spec<'a>(
    alloc: Global,
    ahead: Ahead<'a>,
    budget: u32,
) -> Result<(TypeSpec, Ahead<'a>), Stop>
    ensures { Gives (λ x. (shape_type_spec x.0, x.1)) result (type_spec_at budget ahead.entry) }
{
    let (name, rest) = ahead.need_name(alloc)?;
    let (alias, rest) = rest.some_mark(Operator::Assign);
    let (type_expr, rest) = spec_type(alloc, rest, alias, budget)?;
    let spec = TypeSpec {
        name,
        alias,
        type_expr,
    };
    Ok((spec, rest))
}

/// The specifications in front up to a closing parenthesis, with types at most `budget` high.
fn type_lines<'a>(
    alloc: Global,
    ahead: Ahead<'a>,
    budget: u32,
) -> Result<(Vec<TypeLine>, Ahead<'a>), Stop>
    ensures { Gives (λ x. (map shape_type_line x.0.items, x.1)) result (list_all (type_spec_at budget) operator.Semicolon operator.CloseParen ahead.entry) }
{
    let mut all = Vec::new(alloc);
    let mut rest = ahead;
    'turns: while rest.mark(Operator::CloseParen).is_none() {
        let (spec, behind) = type_spec(alloc, rest, budget)?;
        // Into the list before what can fail: the drop of a list is one call.
        let (semicolon, behind) = behind.some_mark(Operator::Semicolon);
        add(&mut all, TypeLine { spec, semicolon })?;
        if semicolon.is_none() {
            // The last semicolon before the parenthesis may be left out.
            behind.need_mark(Operator::CloseParen)?;
            return Ok((fitted(all), behind));
        }
        rest = behind;
    }
    Ok((fitted(all), rest))
}

/// What stands behind `type` (the Go specification, "Type declarations"), with types at most `budget` high.
///
/// # Errors
///
/// [`Stop::Grammar`] where no declaration stands there, with the offset in bytes of the first token that is no part of
/// one; [`Stop::TooHigh`] where it would be too high, with the offset in bytes of what is too deep inside it; and
/// [`Stop::Memory`] where memory runs out.
pub fn type_decl<'a>(
    alloc: Global,
    ahead: Ahead<'a>,
    keyword: Span,
    budget: u32,
) -> Result<(TypeDecl, Ahead<'a>), Stop>
    ensures { Gives (λ x. (shape_type_decl x.0, x.1)) result (types_at budget keyword ahead.entry) }
{
    let Some((open, rest)) = ahead.mark(Operator::OpenParen) else {
        let (spec, rest) = type_spec(alloc, ahead, budget)?;
        let specs = TypeSpecs::One(spec);
        return Ok((TypeDecl { keyword, specs }, rest));
    };
    let (lines, rest) = type_lines(alloc, rest, budget)?;
    let (close, rest) = rest.need_mark(Operator::CloseParen)?;
    let specs = TypeSpecs::Group(open, lines, close);
    Ok((TypeDecl { keyword, specs }, rest))
}
