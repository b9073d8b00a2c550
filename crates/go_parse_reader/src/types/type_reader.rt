//! Types, parameters and signatures.
ghost use Rattle.std.specs.Prelude.{◌≡◌, map, Ok};
ghost use Rattle.go_tree_nodes.specs.token_core.declared.kind.Operator.TheVariants as operator;
ghost use Rattle.go_tree_nodes.specs.TypeShapes.{shape_type, shape_signature, shape_results, params_of};
ghost use Rattle.go_parse_reader.specs.types.mirrors.EntryShapes.{list_all, then_mark, typed_at, paren_at, listed_at, entry_of, line_tree, line_of, method_of};
ghost use Rattle.go_parse_reader.specs.types.mirrors.Giving.{Gives};
ghost use Rattle.go_parse_reader.specs.types.mirrors.Marks.{text_at};
ghost use Rattle.go_parse_reader.specs.types.mirrors.TypeReading as reading;
ghost use Rattle.go_parse_reader.specs.types.mirrors.TypeReading.{type_at, type_by, entry_at, params_at, result_at, signature_at, line_at, method_at};

use crate::types::ahead::Ahead;
use crate::types::entries::{Entry, params_from};
use crate::types::names::{idents, name_as_type, name_of};
use crate::types::stop::Stop;
use go_tree_nodes::text_core::{Span, add, boxed, fitted};
use go_tree_nodes::token_core::{Keyword, Operator};
use go_tree_nodes::{
    FieldLine, Fields, Ident, MethodLine, Param, Params, Results, Signature, TextLiteral, TypeExpr,
};
use std::alloc::Global;

/// The type in front, at most `budget` high.
///
/// # Errors
///
/// [`Stop::Grammar`] where none stands there, with the offset in bytes of the first token that is no part of one;
/// [`Stop::TooHigh`] where it would be too high, with the offset in bytes of what is too deep inside it; and
/// [`Stop::Memory`] where memory runs out.
#[cycle(types)]
pub fn type_expr<'a>(
    alloc: Global,
    ahead: Ahead<'a>,
    budget: u32,
) -> Result<(TypeExpr, Ahead<'a>), Stop>
    ensures { Gives (λ x. (shape_type x.0, x.1)) result (type_at budget ahead.entry) }
{
    if budget == 0 {
        return Err(Stop::TooHigh(ahead.offset()));
    }
    type_above(alloc, ahead, budget - 1)
}

/// The type in front, whose parts are at most `inner` high.
#[cycle(types)]
fn type_above<'a>(
    alloc: Global,
    ahead: Ahead<'a>,
    inner: u32,
) -> Result<(TypeExpr, Ahead<'a>), Stop>
    ensures { Gives (λ x. (shape_type x.0, x.1)) result (type_by (type_at inner) ahead.entry) }
{
    if let Some((star, rest)) = ahead.mark(Operator::Star) {
        let (target, rest) = boxed_type(alloc, rest, inner)?;
        return Ok((TypeExpr::Pointer(star, target), rest));
    }
    if let Some((open, rest)) = ahead.mark(Operator::OpenParen) {
        return in_parens(alloc, rest, open, inner);
    }
    if let Some((keyword, rest)) = ahead.word(Keyword::Struct) {
        return struct_type(alloc, rest, keyword, inner);
    }
    if let Some((keyword, rest)) = ahead.word(Keyword::Interface) {
        return interface_type(alloc, rest, keyword, inner);
    }
    name_as_type(alloc, ahead)
}

/// The type in front in a box, at most `budget` high.
#[cycle(types)]
fn boxed_type<'a>(
    alloc: Global,
    ahead: Ahead<'a>,
    budget: u32,
) -> Result<(Box<TypeExpr>, Ahead<'a>), Stop>
    ensures { Gives (λ x. (shape_type x.0.value, x.1)) result (type_at budget ahead.entry) }
{
    let (type_expr, rest) = type_expr(alloc, ahead, budget)?;
    Ok((boxed(alloc, type_expr)?, rest))
}

/// A type and the closing parenthesis behind it.
#[cycle(types)]
fn in_parens<'a>(
    alloc: Global,
    ahead: Ahead<'a>,
    open: Span,
    inner: u32,
) -> Result<(TypeExpr, Ahead<'a>), Stop>
    ensures { Gives (λ x. (shape_type x.0, x.1)) result (paren_at (type_at inner) «open» ahead.entry) }
{
    let (inside, rest) = boxed_type(alloc, ahead, inner)?;
    let (close, rest) = rest.need_mark(Operator::CloseParen)?;
    Ok((TypeExpr::Paren(open, inside, close), rest))
}

/// What stands behind `struct`, with types at most `budget` high.
///
/// # Errors
///
/// [`Stop::Grammar`] where none stands there, with the offset in bytes of the first token that is no part of one;
/// [`Stop::TooHigh`] where it would be too high, with the offset in bytes of what is too deep inside it; and
/// [`Stop::Memory`] where memory runs out.
#[cycle(types)]
pub fn struct_type<'a>(
    alloc: Global,
    ahead: Ahead<'a>,
    keyword: Span,
    budget: u32,
) -> Result<(TypeExpr, Ahead<'a>), Stop>
    ensures { Gives (λ x. (shape_type x.0, x.1)) result (reading.struct_at (type_at budget) keyword ahead.entry) }
{
    let (open, rest) = ahead.need_mark(Operator::OpenBrace)?;
    let (lines, rest) = lines(alloc, rest, budget)?;
    let (close, rest) = rest.need_mark(Operator::CloseBrace)?;
    Ok((TypeExpr::Struct(keyword, open, lines, close), rest))
}

/// What stands behind `interface`, with types at most `budget` high.
#[cycle(types)]
fn interface_type<'a>(
    alloc: Global,
    ahead: Ahead<'a>,
    keyword: Span,
    budget: u32,
) -> Result<(TypeExpr, Ahead<'a>), Stop>
    ensures { Gives (λ x. (shape_type x.0, x.1)) result (reading.interface_at (type_at budget) keyword ahead.entry) }
{
    let (open, rest) = ahead.need_mark(Operator::OpenBrace)?;
    let (methods, rest) = methods(alloc, rest, budget)?;
    let (close, rest) = rest.need_mark(Operator::CloseBrace)?;
    Ok((TypeExpr::Interface(keyword, open, methods, close), rest))
}

/// The entry of a parameter list in front: a type, or a name and a type; with the comma behind it.
#[cycle(types)]
fn entry<'a>(alloc: Global, ahead: Ahead<'a>, budget: u32) -> Result<(Entry, Ahead<'a>), Stop>
    ensures { Gives (λ x. (entry_of x.0, x.1)) result (then_mark operator.Comma operator.CloseParen (entry_at (type_at budget) ahead.entry)) }
{
    if let Some((name, rest)) = ahead.name(alloc)? {
        if rest.begins_type() {
            return entry_of_type(alloc, Some(name), rest, budget);
        }
    }
    entry_of_type(alloc, None, ahead, budget)
}

/// The type in front as an entry, whose name is read; with the comma behind it.
#[cycle(types)]
fn entry_of_type<'a>(
    alloc: Global,
    name: Option<Ident>,
    ahead: Ahead<'a>,
    budget: u32,
) -> Result<(Entry, Ahead<'a>), Stop>
    ensures { Gives (λ x. (entry_of x.0, x.1)) result (then_mark operator.Comma operator.CloseParen (typed_at (type_at budget) name ahead.entry)) }
{
    let (type_expr, rest) = type_expr(alloc, ahead, budget)?;
    match rest.mark_or_end(Operator::Comma, Operator::CloseParen) {
        Ok((comma, rest)) => {
            let entry = Entry {
                name,
                type_expr,
                comma,
            };
            Ok((entry, rest))
        }
        Err(stop) => {
            // By name: one call, where the end of the scope would take the tree apart kind by kind.
            drop(type_expr);
            Err(stop)
        }
    }
}

/// The entries in front up to a closing parenthesis.
#[cycle(types)]
fn entries<'a>(
    alloc: Global,
    ahead: Ahead<'a>,
    budget: u32,
) -> Result<(Vec<Entry>, Ahead<'a>), Stop>
    ensures { Gives (λ x. (map entry_of x.0.items, x.1)) result (list_all (entry_at (type_at budget)) operator.Comma operator.CloseParen ahead.entry) }
{
    let mut all = Vec::new(alloc);
    let mut rest = ahead;
    'turns: while rest.mark(Operator::CloseParen).is_none() {
        let (entry, behind) = entry(alloc, rest, budget)?;
        add(&mut all, entry)?;
        rest = behind;
    }
    Ok((all, rest))
}

/// The parameters in front up to a closing parenthesis, with types at most `budget` high.
#[cycle(types)]
fn params<'a>(alloc: Global, ahead: Ahead<'a>, budget: u32) -> Result<(Vec<Param>, Ahead<'a>), Stop>
    ensures { Gives (λ x. (params_of x.0.items, x.1)) result (params_at (type_at budget) ahead.entry) }
{
    let (entries, rest) = entries(alloc, ahead, budget)?;
    let Some(params) = params_from(alloc, entries)? else {
        return Err(Stop::Grammar(rest.offset()));
    };
    Ok((params, rest))
}

/// The results in front, with types at most `budget` high.
#[cycle(types)]
fn results<'a>(alloc: Global, ahead: Ahead<'a>, budget: u32) -> Result<(Results, Ahead<'a>), Stop>
    ensures { Gives (λ x. (shape_results x.0, x.1)) result (result_at (type_at budget) ahead.entry) }
{
    if let Some((open, rest)) = ahead.mark(Operator::OpenParen) {
        return listed(alloc, rest, open, budget);
    }
    if !ahead.begins_type() {
        return Ok((Results::Nothing, ahead));
    }
    let (single, rest) = boxed_type(alloc, ahead, budget)?;
    Ok((Results::Single(single), rest))
}

/// The results of a list, behind its opening parenthesis.
#[cycle(types)]
fn listed<'a>(
    alloc: Global,
    ahead: Ahead<'a>,
    open: Span,
    budget: u32,
) -> Result<(Results, Ahead<'a>), Stop>
    ensures { Gives (λ x. (shape_results x.0, x.1)) result (listed_at (type_at budget) «open» ahead.entry) }
{
    let (entries, rest) = params(alloc, ahead, budget)?;
    let (close, rest) = rest.need_mark(Operator::CloseParen)?;
    let params = Params {
        open,
        entries,
        close,
    };
    Ok((Results::Listed(params), rest))
}

/// The parameters and results in front, with types at most `budget` high.
///
/// # Errors
///
/// [`Stop::Grammar`] where none stands there, with the offset in bytes of the first token that is no part of one;
/// [`Stop::TooHigh`] where it would be too high, with the offset in bytes of what is too deep inside it; and
/// [`Stop::Memory`] where memory runs out.
#[cycle(types)]
pub fn signature<'a>(
    alloc: Global,
    ahead: Ahead<'a>,
    budget: u32,
) -> Result<(Signature, Ahead<'a>), Stop>
    ensures { Gives (λ x. (shape_signature x.0, x.1)) result (signature_at (type_at budget) ahead.entry) }
{
    let (open, rest) = ahead.need_mark(Operator::OpenParen)?;
    let (entries, rest) = params(alloc, rest, budget)?;
    let (close, rest) = rest.need_mark(Operator::CloseParen)?;
    let (results, rest) = results(alloc, rest, budget)?;
    let params = Params {
        open,
        entries,
        close,
    };
    Ok((Signature { params, results }, rest))
}

/// The tag in front, if there is one, and the semicolon behind it.
fn line_end<'a>(
    alloc: Global,
    ahead: Ahead<'a>,
) -> Result<(Option<TextLiteral>, Option<Span>, Ahead<'a>), Stop>
    ensures { Gives (λ x. ((x.0, x.1), x.2)) result (then_mark operator.Semicolon operator.CloseBrace (Ok (reading.tag_by ahead.entry (text_at ahead.entry)))) }
{
    let (tag, rest) = match ahead.text(alloc)? {
        Some((tag, rest)) => (Some(tag), rest),
        None => (None, ahead),
    };
    rest.mark_or_end(Operator::Semicolon, Operator::CloseBrace)
        .map(|(semicolon, rest)| (tag, semicolon, rest))
}

/// Fields that were read as a line, with the tag and the semicolon in front.
fn field_line<'a>(
    alloc: Global,
    fields: Fields,
    ahead: Ahead<'a>,
) -> Result<(FieldLine, Ahead<'a>), Stop>
    ensures { Gives (λ x. (line_of x.0, x.1)) result (then_mark operator.Semicolon operator.CloseBrace (reading.tagged (line_tree fields) ahead.entry)) }
{
    match line_end(alloc, ahead) {
        Ok((tag, semicolon, rest)) => {
            let line = FieldLine {
                fields,
                tag,
                semicolon,
            };
            Ok((line, rest))
        }
        Err(stop) => {
            drop(fields);
            Err(stop)
        }
    }
}

/// The line of the embedded field in front, behind its star where it has one.
#[cycle(types)]
fn embedded<'a>(
    alloc: Global,
    ahead: Ahead<'a>,
    star: Option<Span>,
    budget: u32,
) -> Result<(FieldLine, Ahead<'a>), Stop>
    ensures { Gives (λ x. (line_of x.0, x.1)) result (then_mark operator.Semicolon operator.CloseBrace (reading.embedded (type_at budget) star ahead.entry)) }
{
    let (type_expr, rest) = type_expr(alloc, ahead, budget)?;
    let Some(name) = name_of(type_expr) else {
        return Err(Stop::Grammar(rest.offset()));
    };
    field_line(alloc, Fields::Embedded(star, name), rest)
}

/// The line in front of fields with names, and their type, at most `budget` high.
#[cycle(types)]
fn named<'a>(alloc: Global, ahead: Ahead<'a>, budget: u32) -> Result<(FieldLine, Ahead<'a>), Stop>
    ensures { Gives (λ x. (line_of x.0, x.1)) result (then_mark operator.Semicolon operator.CloseBrace (reading.named_line (type_at budget) ahead.entry)) }
{
    let (names, rest) = idents(alloc, ahead)?;
    let (type_expr, rest) = type_expr(alloc, rest, budget)?;
    field_line(alloc, Fields::Named(names, type_expr), rest)
}

/// The line of a struct type in front, with types at most `budget` high.
#[cycle(types)]
fn line<'a>(alloc: Global, ahead: Ahead<'a>, budget: u32) -> Result<(FieldLine, Ahead<'a>), Stop>
    ensures { Gives (λ x. (line_of x.0, x.1)) result (then_mark operator.Semicolon operator.CloseBrace (line_at (type_at budget) ahead.entry)) }
{
    if let Some((star, rest)) = ahead.mark(Operator::Star) {
        return embedded(alloc, rest, Some(star), budget);
    }
    let Some(behind) = ahead.behind_name() else {
        return Err(Stop::Grammar(ahead.offset()));
    };
    if behind.ends_embedded() {
        return embedded(alloc, ahead, None, budget);
    }
    named(alloc, ahead, budget)
}

/// The lines of a struct type in front up to a closing brace, with types at most `budget` high.
#[cycle(types)]
fn lines<'a>(
    alloc: Global,
    ahead: Ahead<'a>,
    budget: u32,
) -> Result<(Vec<FieldLine>, Ahead<'a>), Stop>
    ensures { Gives (λ x. (map line_of x.0.items, x.1)) result (list_all (line_at (type_at budget)) operator.Semicolon operator.CloseBrace ahead.entry) }
{
    let mut all = Vec::new(alloc);
    let mut rest = ahead;
    'turns: while rest.mark(Operator::CloseBrace).is_none() {
        let (line, behind) = line(alloc, rest, budget)?;
        add(&mut all, line)?;
        rest = behind;
    }
    Ok((fitted(all), rest))
}

/// The method in front with the semicolon behind it, with types at most `budget` high.
#[cycle(types)]
fn method<'a>(alloc: Global, ahead: Ahead<'a>, budget: u32) -> Result<(MethodLine, Ahead<'a>), Stop>
    ensures { Gives (λ x. (method_of x.0, x.1)) result (then_mark operator.Semicolon operator.CloseBrace (method_at (type_at budget) ahead.entry)) }
{
    let (name, rest) = ahead.need_name(alloc)?;
    let (signature, rest) = signature(alloc, rest, budget)?;
    match rest.mark_or_end(Operator::Semicolon, Operator::CloseBrace) {
        Ok((semicolon, rest)) => {
            let line = MethodLine {
                name,
                signature,
                semicolon,
            };
            Ok((line, rest))
        }
        Err(stop) => {
            drop(signature);
            Err(stop)
        }
    }
}

/// The methods in front up to a closing brace, with types at most `budget` high.
#[cycle(types)]
fn methods<'a>(
    alloc: Global,
    ahead: Ahead<'a>,
    budget: u32,
) -> Result<(Vec<MethodLine>, Ahead<'a>), Stop>
    ensures { Gives (λ x. (map method_of x.0.items, x.1)) result (list_all (method_at (type_at budget)) operator.Semicolon operator.CloseBrace ahead.entry) }
{
    let mut all = Vec::new(alloc);
    let mut rest = ahead;
    'turns: while rest.mark(Operator::CloseBrace).is_none() {
        let (method, behind) = method(alloc, rest, budget)?;
        add(&mut all, method)?;
        rest = behind;
    }
    Ok((fitted(all), rest))
}
