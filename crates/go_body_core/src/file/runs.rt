//! The declarations of a file in runs, each of so many bytes of source at least, but for the last.
ghost use Rattle.std.specs.Prelude.{◌≡◌, ◌++◌, ◌+◌, ◌<◌, ◌≤◌, IfOk, length, map};
ghost use Rattle.go_tree_nodes.specs.Shapes.{decl_of, top_of};
ghost use Rattle.go_body_core.specs.file.Stands.{decl_funcs, tops_funcs};
ghost use Rattle.go_body_core.specs.file.Runs.{AreRuns, IsRun};

use go_inline_core::InlineTypes;
use go_text_core::add;
use go_tree_nodes::{Decl, TopDecl};
use std::alloc::{AllocError, Global};

/// Declarations that follow one another, and the types that are written in their functions, in order of the functions.
#[derive(Clone, Copy)]
pub(crate) struct Run<'f, 'p> {
    /// The declarations.
    pub decls: &'f [TopDecl],
    /// The types that are written in each of their functions.
    pub functions: &'p [InlineTypes],
}

// How many functions a declaration is.
fn function_count(decl: &Decl) -> usize
    ensures few { result ≤ 1 }
    ensures count { result ≡ length (decl_funcs (decl_of decl.now)) }
{
    match decl {
        Decl::Value(_) => 0,
        Decl::Type(_) => 0,
        Decl::Func(_) => 1,
    }
}

// How many functions are among declarations.
fn functions_in(decls: &[TopDecl]) -> usize
    ensures { result ≡ length (tops_funcs (map top_of decls.now)) }
{
    let mut count = 0;
    for top in decls {
        count += function_count(&top.decl);
    }
    count
}

// How many of the first declarations have so many bytes together, where they begin at a place; all where they have fewer.
fn first_run(decls: &[TopDecl], begin: usize, bytes: usize) -> usize
    ensures within { result ≤ length decls.now }
    ensures some { 0 < length decls.now → 0 < result }
{
    for (number, top) in decls.iter().enumerate() {
        let end = top.semicolon.end as usize;
        if end.saturating_sub(begin) >= bytes {
            return number + 1;
        }
    }
    decls.len()
}

// The place behind declarations that begin at a place, in bytes from the file's start.
fn place_behind(decls: &[TopDecl], begin: usize) -> usize {
    match decls.last() {
        Some(top) => top.semicolon.end as usize,
        None => begin,
    }
}

// Declarations with their types, and how many of the first are apart from the rest.
fn divided<'f, 'p>(all: &Run<'f, 'p>, count: usize) -> (Run<'f, 'p>, Run<'f, 'p>)
    requires within { count ≤ length all.now.decls.now }
    requires typed { IsRun all.now }
    ensures decls { all.now.decls.now ≡ result.0.decls.now ++ result.1.decls.now }
    ensures functions { all.now.functions.now ≡ result.0.functions.now ++ result.1.functions.now }
    ensures first { IsRun result.0 }
    ensures rest { IsRun result.1 }
    ensures smaller { length result.1.decls.now + count ≡ length all.now.decls.now }
{
    let decls = all.decls.split_at(count);
    let functions = all.functions.split_at(functions_in(decls.0));
    (
        Run {
            decls: decls.0,
            functions: functions.0,
        },
        Run {
            decls: decls.1,
            functions: functions.1,
        },
    )
}

/// Declarations in runs, in order: each of so many bytes at least, but for the last.
///
/// # Errors
///
/// `AllocError` where memory is wanting.
pub(crate) fn runs_of<'f, 'p>(
    alloc: Global,
    decls: &'f [TopDecl],
    functions: &'p [InlineTypes],
    bytes: usize,
) -> Result<Vec<Run<'f, 'p>>, AllocError>
    requires { length functions.now ≡ length (tops_funcs (map top_of decls.now)) }
    ensures { IfOk result (λ runs. AreRuns decls.now functions.now runs.items) }
{
    let mut runs = Vec::new(alloc);
    let mut left = Run { decls, functions };
    let mut begin = 0;
    'turns: while !left.decls.is_empty() {
        let apart = divided(&left, first_run(left.decls, begin, bytes));
        begin = place_behind(apart.0.decls, begin);
        add(&mut runs, apart.0)?;
        left = apart.1;
    }
    Ok(runs)
}
