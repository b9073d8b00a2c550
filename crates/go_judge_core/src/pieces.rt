//! The pieces of a declaration: its statements and its specifications without the blocks inside them.

use go_stmt_core::expr_core::start;
use go_tree_nodes::text_core::{Span, add};
use go_tree_nodes::{Decl, Expr, Exprs, File, Simple, ValueKind, ValueSpec};
use std::alloc::{AllocError, Global};

/// A piece of a declaration: what is checked with the locals that are open in front of it.
#[derive(Clone, Copy)]
pub enum Piece<'t> {
    Simple(&'t Simple),
    /// The place of `return`, and what is returned.
    Return(Span, &'t Option<Box<Exprs>>),
    /// The condition of an `if` or a `for`.
    Condition(&'t Expr),
    /// A specification of constants or variables, in a function or outside.
    Spec(ValueKind, &'t ValueSpec),
}

// Where a simple statement begins.
fn simple_start(simple: &Simple) -> usize {
    match simple {
        Simple::Expr(expr) => start(expr),
        Simple::Step(target, _, _) => start(target),
        Simple::Assign(assignment) => start(&assignment.targets.first),
        Simple::Update(update) => start(&update.target),
        Simple::Define(definition) => definition.names.first.span.start as usize,
    }
}

// Adds expressions with commas between them.
fn add_exprs<'t>(exprs: &'t Exprs, all: &mut Vec<&'t Expr>) -> Result<(), AllocError> {
    add(all, &exprs.first)?;
    for next in &exprs.more {
        add(all, &next.expr)?;
    }
    Ok(())
}

/// Expressions with commas between them, in order.
///
/// # Errors
///
/// `AllocError` where memory is wanting.
pub fn exprs_of(alloc: Global, exprs: &Exprs) -> Result<Vec<&Expr>, AllocError> {
    let mut all = Vec::new(alloc);
    add_exprs(exprs, &mut all)?;
    Ok(all)
}

// Adds the expressions of a simple statement.
fn add_simple_exprs<'t>(simple: &'t Simple, all: &mut Vec<&'t Expr>) -> Result<(), AllocError> {
    match simple {
        Simple::Expr(expr) => add(all, expr),
        Simple::Step(target, _, _) => add(all, &**target),
        Simple::Assign(assignment) => {
            add_exprs(&assignment.targets, all)?;
            add_exprs(&assignment.values, all)
        }
        Simple::Update(update) => {
            add(all, &update.target)?;
            add(all, &update.value)
        }
        Simple::Define(definition) => add_exprs(&definition.values, all),
    }
}

impl<'t> Piece<'t> {
    /// The first byte of the piece, in bytes from the file's start.
    pub fn start(self) -> usize {
        match self {
            Piece::Simple(simple) => simple_start(simple),
            Piece::Return(place, _) => place.start as usize,
            Piece::Condition(condition) => start(condition),
            Piece::Spec(_, spec) => spec.names.first.span.start as usize,
        }
    }

    /// The expressions of the piece that stand in no other one, in order of place.
    ///
    /// # Errors
    ///
    /// `AllocError` where memory is wanting.
    pub fn exprs(self, alloc: Global) -> Result<Vec<&'t Expr>, AllocError> {
        let mut all = Vec::new(alloc);
        match self {
            Piece::Simple(simple) => add_simple_exprs(simple, &mut all)?,
            Piece::Return(_, values) => match values {
                Some(values) => add_exprs(values, &mut all)?,
                None => {}
            },
            Piece::Condition(condition) => add(&mut all, condition)?,
            Piece::Spec(_, spec) => match &spec.values {
                Some(values) => add_exprs(&values.exprs, &mut all)?,
                None => {}
            },
        }
        Ok(all)
    }
}

// Where a declaration of a file begins.
fn decl_start(decl: &Decl) -> usize {
    match decl {
        Decl::Value(value) => value.keyword.start as usize,
        Decl::Type(types) => types.keyword.start as usize,
        Decl::Func(func) => func.func.start as usize,
    }
}

/// The declaration of a file that an offset in bytes stands in: the last that begins there or before. None in front of the first one.
pub(crate) fn decl_round(file: &File, offset: usize) -> Option<&Decl> {
    let mut begun: usize = 0;
    for top in &file.decls {
        if decl_start(&top.decl) <= offset {
            begun = begun.saturating_add(1);
        }
    }
    match file.decls.get(begun.checked_sub(1)?) {
        Some(top) => Some(&top.decl),
        None => None,
    }
}
