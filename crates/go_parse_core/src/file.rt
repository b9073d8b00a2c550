//! Declarations of the package block, and files.
ghost use Rattle.std.specs.Prelude.{◌≡◌, ◌<◌, ◌^◌, length, map};
ghost use Rattle.go_tree_nodes.specs.Shapes.{decl_of, file_of, top_of};
ghost use Rattle.go_parse_reader.specs.types.mirrors.Giving.{Gives};
ghost use Rattle.go_parse_core.specs.mirrors.FileReading.{decl_at, file_at, top_at, tops_go};

use crate::funcs::func;
use crate::imports::imports;
use crate::stmts::{type_decl, value_decl, value_keyword};
use go_parse_reader::types::{Ahead, Stop, add, fitted};
use go_tree_nodes::token_core::{Keyword, Operator};
use go_tree_nodes::{Decl, File, TopDecl};
use std::alloc::Global;

/// The declaration in front, whose parts are at most `budget` high.
#[tactic(auto, unfolding(crate::specs::mirrors::FileReading::decl_at))]
fn decl<'a>(alloc: Global, ahead: Ahead<'a>, budget: u32) -> Result<(Decl, Ahead<'a>), Stop>
    requires { budget < 2 ^ 31 }
    ensures { Gives (λ x. (decl_of x.0, x.1)) result (decl_at budget ahead.entry) }
{
    if let Some((kind, keyword, rest)) = value_keyword(&ahead) {
        let (decl, rest) = value_decl(alloc, rest, kind, keyword, budget)?;
        return Ok((Decl::Value(decl), rest));
    }
    if let Some((keyword, rest)) = ahead.word(Keyword::Type) {
        let (decl, rest) = type_decl(alloc, rest, keyword, budget)?;
        return Ok((Decl::Type(decl), rest));
    }
    let (keyword, rest) = ahead.need_word(Keyword::Func)?;
    let (decl, rest) = func(alloc, rest, keyword, budget)?;
    Ok((Decl::Func(decl), rest))
}

/// The declaration in front with its semicolon.
#[tactic(auto, unfolding(crate::specs::mirrors::FileReading::top_at))]
fn top_decl<'a>(alloc: Global, ahead: Ahead<'a>, budget: u32) -> Result<(TopDecl, Ahead<'a>), Stop>
    requires { budget < 2 ^ 31 }
    ensures { Gives (λ x. (top_of x.0, x.1)) result (top_at budget ahead.entry) }
{
    let (decl, rest) = decl(alloc, ahead, budget)?;
    match rest.need_mark(Operator::Semicolon) {
        Ok((semicolon, rest)) => Ok((TopDecl { decl, semicolon }, rest)),
        Err(stop) => {
            drop(decl);
            Err(stop)
        }
    }
}

/// The declarations that all the tokens make.
fn top_decls(alloc: Global, ahead: Ahead<'_>, budget: u32) -> Result<Vec<TopDecl>, Stop>
    requires { budget < 2 ^ 31 }
    ensures { Gives (λ v. map top_of v.items) result (tops_go budget (length ahead.entry) ahead.entry) }
{
    let mut all = Vec::new(alloc);
    let mut rest = ahead;
    'turns: while !rest.is_empty() {
        let (decl, after) = top_decl(alloc, rest, budget)?;
        add(&mut all, decl)?;
        rest = after;
    }
    Ok(fitted(all))
}

/// The file that all the tokens make, whose declarations are at most one higher than `budget`.
#[tactic(auto, unfolding(crate::specs::mirrors::FileReading::file_at))]
pub fn file(alloc: Global, ahead: Ahead<'_>, budget: u32) -> Result<File, Stop>
    requires { budget < 2 ^ 31 }
    ensures { Gives file_of result (file_at budget ahead.entry) }
{
    let (clause, rest) = ahead.need_word(Keyword::Package)?;
    let (name, rest) = rest.need_name(alloc)?;
    let (semicolon, rest) = rest.need_mark(Operator::Semicolon)?;
    let (imports, rest) = imports(alloc, rest)?;
    let decls = top_decls(alloc, rest, budget)?;
    Ok(File {
        clause,
        name,
        semicolon,
        imports,
        decls,
    })
}
