//! Calls of the predeclared `panic`.
ghost use Rattle.std.specs.Prelude.{◌≡◌, ℕ, ◌||◌, ◌&&◌, nat_eq, IfOk, OnOk};
ghost use Rattle.std.specs.HashSet.{contains};
ghost use Rattle.go_tree_nodes.specs.Shapes.{shape};
ghost use Rattle.go_body_core.specs.Ends.{is_panic_declaration, has_panic, panics_at, names_one, calls_one};

use crate::notes::BodyUse;
use go_denote_core::Outcome;
use go_handle_core::{Decl, DeclSite};
use go_local_core::walks::Panics;
use go_select_core::EmbedPath;
use go_tree_nodes::Expr;
use go_universe_core::Predeclared;
use std::alloc::{AllocError, Global};
use std::collections::HashSet;

// Whether a declaration is the predeclared `panic`.
fn is_panic(decl: &Decl<'_>) -> bool
    ensures { result ≡ is_panic_declaration decl.now }
{
    match decl.site() {
        DeclSite::Universe(Predeclared::Panic) => true,
        DeclSite::Universe(_) => false,
        DeclSite::ErrorMethod => false,
        DeclSite::Package(_) => false,
        DeclSite::InFile(_, _) => false,
    }
}

// Whether what an occurrence has is that.
fn has_panic(outcome: &Outcome<Decl<'_>, EmbedPath>) -> bool
    ensures { result ≡ has_panic outcome.now }
{
    match outcome {
        Outcome::Declared(decl) => is_panic(decl),
        Outcome::Selected(_, _) | Outcome::Refused(_) => false,
    }
}

// Adds the offset of an occurrence that has it.
fn add_panic(offsets: &mut HashSet<usize>, used: &BodyUse<'_>) -> Result<(), AllocError>
    ensures { OnOk result ((offset : ℕ) → contains nat_eq offsets.new offset ≡ (contains nat_eq offsets.old offset || (nat_eq offset used.now.offset && has_panic used.now.outcome))) }
{
    if !has_panic(&used.outcome) {
        return Ok(());
    }
    match offsets.insert(used.offset) {
        Ok(_) => Ok(()),
        Err(_) => Err(AllocError),
    }
}

/// The offsets at which occurrences have the predeclared `panic`.
pub(crate) fn panic_offsets(
    alloc: Global,
    uses: &[BodyUse<'_>],
) -> Result<HashSet<usize>, AllocError>
    ensures { IfOk result (λ offsets. (offset : ℕ) → contains nat_eq offsets offset ≡ panics_at uses.now offset) }
{
    let mut offsets = HashSet::new(alloc);
    for used in uses {
        add_panic(&mut offsets, used)?;
    }
    Ok(offsets)
}

// Whether an expression is a name at one of these offsets, in parentheses or not.
fn names_one(offsets: &HashSet<usize>, expr: &Expr) -> bool
    ensures { result ≡ names_one (contains nat_eq offsets.now) (shape expr.now) }
{
    match expr {
        Expr::Name(ident) => offsets.contains(&(ident.span.start as usize)),
        Expr::Paren(_, inner, _) => names_one(offsets, inner),
        Expr::Integer(_, _) => false,
        Expr::Text(_) => false,
        Expr::Unary(_, _, _) => false,
        Expr::Binary(_) => false,
        Expr::Select(_) => false,
        Expr::Call(_) => false,
        Expr::Literal(_) => false,
        Expr::StructLiteral(_) => false,
    }
}

// Whether an expression is a call of such a name, in parentheses or not.
fn calls_one(offsets: &HashSet<usize>, expr: &Expr) -> bool
    ensures { result ≡ calls_one (contains nat_eq offsets.now) (shape expr.now) }
{
    match expr {
        Expr::Call(call) => names_one(offsets, &call.callee),
        Expr::Paren(_, inner, _) => calls_one(offsets, inner),
        Expr::Integer(_, _) => false,
        Expr::Text(_) => false,
        Expr::Name(_) => false,
        Expr::Unary(_, _, _) => false,
        Expr::Binary(_) => false,
        Expr::Select(_) => false,
        Expr::Literal(_) => false,
        Expr::StructLiteral(_) => false,
    }
}

/// Calls of the predeclared `panic`, by the offsets at which occurrences have it.
#[derive(Clone, Copy)]
pub(crate) struct PanicCalls<'a> {
    pub(crate) offsets: &'a HashSet<usize>,
}

impl<'a> Panics for PanicCalls<'a> {
    ghost panics = { λ calls. calls_one (contains nat_eq calls.offsets.now) };

    fn panics(&self, expr: &Expr) -> bool {
        calls_one(self.offsets, expr)
    }
}
