//! The way through a declaration, in order of place: its pieces, the blocks that open and close, and the identifiers that declare.
//!
//! The Go specification, "Blocks", "Declarations and scope".

use crate::pieces::Piece;
use go_tree_nodes::text_core::add;
use go_tree_nodes::{
    Branch, Decl, Expr, ForHead, FuncDecl, Ident, Idents, IfHead, Line, Loop, Otherwise, Param,
    Receiver, Results, Simple, Stmt, ValueDecl, ValueKind, ValueSpec, ValueSpecs,
};
use std::alloc::{AllocError, Global};

/// A step on the way through a declaration.
#[derive(Clone, Copy)]
pub(crate) enum Step<'t> {
    /// A block opens inside those that are open.
    Enter,
    /// The innermost block closes.
    Leave,
    /// A piece. Open in it are the locals of blocks that are open which were declared in front of it.
    Piece(Piece<'t>),
    /// An identifier of the innermost block that declares a local from here on, if it declares one.
    Declare(&'t Ident),
}

// Adds identifiers with commas between them.
fn add_idents<'t>(idents: &'t Idents, steps: &mut Vec<Step<'t>>) -> Result<(), AllocError> {
    add(steps, Step::Declare(&idents.first))?;
    for next in &idents.more {
        add(steps, Step::Declare(&next.ident))?;
    }
    Ok(())
}

// Adds the names of parameters or results.
fn add_params<'t>(params: &'t Vec<Param>, steps: &mut Vec<Step<'t>>) -> Result<(), AllocError> {
    for param in params {
        if let Some(idents) = &param.names {
            add_idents(idents, steps)?;
        }
    }
    Ok(())
}

// Adds the name of a receiver.
fn add_receiver<'t>(
    receiver: &'t Option<Receiver>,
    steps: &mut Vec<Step<'t>>,
) -> Result<(), AllocError> {
    match receiver {
        Some(receiver) => match &receiver.name {
            Some(ident) => add(steps, Step::Declare(ident)),
            None => Ok(()),
        },
        None => Ok(()),
    }
}

// Adds the names of results.
fn add_results<'t>(results: &'t Results, steps: &mut Vec<Step<'t>>) -> Result<(), AllocError> {
    match results {
        Results::Nothing => Ok(()),
        Results::Single(_) => Ok(()),
        Results::Listed(params) => add_params(&params.entries, steps),
    }
}

// Adds a specification of constants or variables.
fn add_spec<'t>(
    kind: ValueKind,
    spec: &'t ValueSpec,
    steps: &mut Vec<Step<'t>>,
) -> Result<(), AllocError> {
    add(steps, Step::Piece(Piece::Spec(kind, spec)))?;
    add_idents(&spec.names, steps)
}

// Adds the specifications of a declaration of constants or variables.
fn add_value<'t>(value: &'t ValueDecl, steps: &mut Vec<Step<'t>>) -> Result<(), AllocError> {
    match &value.specs {
        ValueSpecs::One(spec) => add_spec(value.kind, spec, steps),
        ValueSpecs::Group(_, lines, _) => {
            for line in lines {
                add_spec(value.kind, &line.spec, steps)?;
            }
            Ok(())
        }
    }
}

// Adds a simple statement.
fn add_simple<'t>(simple: &'t Simple, steps: &mut Vec<Step<'t>>) -> Result<(), AllocError> {
    add(steps, Step::Piece(Piece::Simple(simple)))?;
    match simple {
        Simple::Define(definition) => add_idents(&definition.names, steps),
        _ => Ok(()),
    }
}

// Adds a simple statement, if one stands there.
fn add_some_simple<'t>(
    simple: &'t Option<Simple>,
    steps: &mut Vec<Step<'t>>,
) -> Result<(), AllocError> {
    match simple {
        Some(simple) => add_simple(simple, steps),
        None => Ok(()),
    }
}

// Adds a condition.
fn add_condition<'t>(condition: &'t Expr, steps: &mut Vec<Step<'t>>) -> Result<(), AllocError> {
    add(steps, Step::Piece(Piece::Condition(condition)))
}

// Adds a condition, if one stands there.
fn add_some_condition<'t>(
    condition: &'t Option<Expr>,
    steps: &mut Vec<Step<'t>>,
) -> Result<(), AllocError> {
    match condition {
        Some(condition) => add_condition(condition, steps),
        None => Ok(()),
    }
}

// Adds what stands between `if` and its block.
fn add_if_head<'t>(head: &'t IfHead, steps: &mut Vec<Step<'t>>) -> Result<(), AllocError> {
    match &head.init {
        Some(part) => add_some_simple(&part.simple, steps)?,
        None => {}
    }
    add_condition(&head.condition, steps)
}

// Adds what stands between `for` and its block.
fn add_for_head<'t>(head: &'t ForHead, steps: &mut Vec<Step<'t>>) -> Result<(), AllocError> {
    match head {
        ForHead::Forever => Ok(()),
        ForHead::While(condition) => add_condition(condition, steps),
        ForHead::Clauses(init, _, test, _, post) => {
            add_some_simple(init, steps)?;
            add_some_condition(test, steps)?;
            add_some_simple(post, steps)
        }
    }
}

// Adds a statement.
#[cycle(steps)]
fn add_stmt<'t>(stmt: &'t Stmt, steps: &mut Vec<Step<'t>>) -> Result<(), AllocError> {
    match stmt {
        Stmt::Empty => Ok(()),
        Stmt::Declare(value) => add_value(value, steps),
        Stmt::Simple(simple) => add_simple(simple, steps),
        Stmt::Return(place, values) => add(steps, Step::Piece(Piece::Return(*place, values))),
        Stmt::Break(_) => Ok(()),
        Stmt::Continue(_) => Ok(()),
        Stmt::Block(_, lines, _) => add_block(lines, steps),
        Stmt::If(branch) => add_branch(branch, steps),
        Stmt::For(turns) => add_loop(turns, steps),
    }
}

// Adds a `for`, a block round its header and its block.
#[cycle(steps)]
fn add_loop<'t>(turns: &'t Loop, steps: &mut Vec<Step<'t>>) -> Result<(), AllocError> {
    add(steps, Step::Enter)?;
    add_for_head(&turns.head, steps)?;
    add_block(&turns.body, steps)?;
    add(steps, Step::Leave)
}

// Adds an `if`, a block round its header, its block and what stands after that.
#[cycle(steps)]
fn add_branch<'t>(branch: &'t Branch, steps: &mut Vec<Step<'t>>) -> Result<(), AllocError> {
    add(steps, Step::Enter)?;
    add_if_head(&branch.head, steps)?;
    add_block(&branch.then, steps)?;
    add_otherwise(&branch.otherwise, steps)?;
    add(steps, Step::Leave)
}

// Adds what stands after the block of an `if`.
#[cycle(steps)]
fn add_otherwise<'t>(
    otherwise: &'t Otherwise,
    steps: &mut Vec<Step<'t>>,
) -> Result<(), AllocError> {
    match otherwise {
        Otherwise::Nothing => Ok(()),
        Otherwise::Block(_, _, lines, _) => add_block(lines, steps),
        Otherwise::If(_, branch) => add_branch(branch, steps),
    }
}

// Adds a block with its statements.
#[cycle(steps)]
fn add_block<'t>(lines: &'t Vec<Line>, steps: &mut Vec<Step<'t>>) -> Result<(), AllocError> {
    add(steps, Step::Enter)?;
    for line in lines {
        add_stmt(&line.stmt, steps)?;
    }
    add(steps, Step::Leave)
}

// Adds a function: the names of its header, and its block.
fn add_func<'t>(func: &'t FuncDecl, steps: &mut Vec<Step<'t>>) -> Result<(), AllocError> {
    add_receiver(&func.receiver, steps)?;
    add_params(&func.signature.params.entries, steps)?;
    add_results(&func.signature.results, steps)?;
    add_block(&func.body, steps)
}

/// The steps of a declaration, in order of place. A declaration of types has none.
///
/// # Errors
///
/// `AllocError` where memory is wanting.
pub(crate) fn steps_of(alloc: Global, decl: &Decl) -> Result<Vec<Step<'_>>, AllocError> {
    let mut steps = Vec::new(alloc);
    match decl {
        Decl::Value(value) => add_value(value, &mut steps)?,
        Decl::Type(_) => {}
        Decl::Func(func) => add_func(func, &mut steps)?,
    }
    Ok(steps)
}

/// The number of the step, among those of a declaration, that is the piece in which an offset in bytes stands: the last that begins there or before.
pub(crate) fn piece_round(steps: &[Step<'_>], offset: usize) -> Option<usize> {
    let mut found = None;
    let mut number: usize = 0;
    for step in steps {
        if let Step::Piece(piece) = step {
            if piece.start() <= offset {
                found = Some(number);
            }
        }
        number = number.saturating_add(1);
    }
    found
}

/// The piece that the step of a number is; none where it is none.
pub(crate) fn numbered<'s>(steps: &[Step<'s>], number: usize) -> Option<Piece<'s>> {
    match steps.get(number) {
        Some(Step::Piece(piece)) => Some(*piece),
        _ => None,
    }
}
