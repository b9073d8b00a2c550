//! Import declarations.
ghost use Rattle.std.specs.Prelude.{◌≡◌, suc, length, map, IfOk};
ghost use Rattle.go_tree_nodes.specs.token_core.declared.kind.Operator.TheVariants as operator;
ghost use Rattle.go_tree_nodes.specs.Shapes.{import_of, shape_import_line, shape_import_spec, shape_import_specs};
ghost use Rattle.go_parse_reader.specs.types.mirrors.EntryShapes.{list_all};
ghost use Rattle.go_parse_reader.specs.types.mirrors.Giving.{Gives};
ghost use Rattle.go_parse_reader.specs.types.mirrors.Marks.{mark_at};
ghost use Rattle.go_parse_core.specs.stmts.mirrors.StmtReading.{specs_at};
ghost use Rattle.go_parse_core.specs.mirrors.FileReading.{dotted_import, import_spec_at, imports_go};

use go_parse_reader::types::{Ahead, Stop, add, fitted};
use go_tree_nodes::token_core::{Keyword, Operator};
use go_tree_nodes::{ImportDecl, ImportLine, ImportName, ImportSpec, ImportSpecs};
use std::alloc::{AllocError, Global};

/// What stands before the path of an import: a dot, a name, or neither.
fn import_name<'a>(alloc: Global, ahead: Ahead<'a>) -> Result<(ImportName, Ahead<'a>), AllocError>
    ensures { IfOk result (λ x. (x.0, x.1) ≡ dotted_import ahead.entry (mark_at operator.Dot ahead.entry)) }
{
    if let Some((dot, rest)) = ahead.mark(Operator::Dot) {
        return Ok((ImportName::Dot(dot), rest));
    }
    match ahead.name(alloc)? {
        Some((name, rest)) => Ok((ImportName::Named(name), rest)),
        None => Ok((ImportName::Own, ahead)),
    }
}

/// The import in front.
fn import_spec<'a>(alloc: Global, ahead: Ahead<'a>) -> Result<(ImportSpec, Ahead<'a>), Stop>
    ensures { Gives (λ x. (shape_import_spec x.0, x.1)) result (import_spec_at ahead.entry) }
{
    let (name, rest) = import_name(alloc, ahead)?;
    let Some((path, behind)) = rest.text(alloc)? else {
        return Err(Stop::Grammar(rest.offset()));
    };
    Ok((ImportSpec { name, path }, behind))
}

/// The imports in front up to a closing parenthesis.
fn import_lines<'a>(alloc: Global, ahead: Ahead<'a>) -> Result<(Vec<ImportLine>, Ahead<'a>), Stop>
    ensures { Gives (λ x. (map shape_import_line x.0.items, x.1)) result (list_all import_spec_at operator.Semicolon operator.CloseParen ahead.entry) }
{
    let mut all = Vec::new(alloc);
    let mut rest = ahead;
    'turns: while rest.mark(Operator::CloseParen).is_none() {
        let (spec, behind) = import_spec(alloc, rest)?;
        let Some((semicolon, after)) = behind.mark(Operator::Semicolon) else {
            // The last semicolon before the parenthesis may be left out.
            if behind.mark(Operator::CloseParen).is_none() {
                drop(spec);
                return Err(Stop::Grammar(behind.offset()));
            }
            let semicolon = None;
            add(&mut all, ImportLine { spec, semicolon })?;
            return Ok((fitted(all), behind));
        };
        let semicolon = Some(semicolon);
        add(&mut all, ImportLine { spec, semicolon })?;
        rest = after;
    }
    Ok((fitted(all), rest))
}

/// What stands behind `import`: one import, or several in parentheses.
fn import_specs<'a>(alloc: Global, ahead: Ahead<'a>) -> Result<(ImportSpecs, Ahead<'a>), Stop>
    ensures { Gives (λ x. (shape_import_specs x.0, x.1)) result (specs_at import_spec_at ahead.entry) }
{
    let Some((open, rest)) = ahead.mark(Operator::OpenParen) else {
        let (spec, rest) = import_spec(alloc, ahead)?;
        return Ok((ImportSpecs::One(spec), rest));
    };
    let (lines, rest) = import_lines(alloc, rest)?;
    let (close, rest) = rest.need_mark(Operator::CloseParen)?;
    Ok((ImportSpecs::Group(open, lines, close), rest))
}

/// The import declarations in front, each with its semicolon.
pub fn imports<'a>(alloc: Global, ahead: Ahead<'a>) -> Result<(Vec<ImportDecl>, Ahead<'a>), Stop>
    ensures { Gives (λ x. (map import_of x.0.items, x.1)) result (imports_go (suc (length ahead.entry)) ahead.entry) }
{
    let mut all = Vec::new(alloc);
    let mut rest = ahead;
    'turns: while let Some((keyword, after)) = rest.word(Keyword::Import) {
        let (specs, behind) = import_specs(alloc, after)?;
        let (semicolon, after) = match behind.need_mark(Operator::Semicolon) {
            Ok(found) => found,
            Err(stop) => {
                drop(specs);
                return Err(stop);
            }
        };
        let decl = ImportDecl {
            keyword,
            specs,
            semicolon,
        };
        add(&mut all, decl)?;
        rest = after;
    }
    Ok((fitted(all), rest))
}
