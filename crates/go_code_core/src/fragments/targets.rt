//! What is assigned to.
ghost use Rattle.std.specs.Prelude.{◌≡◌};
ghost use Rattle.go_tree_nodes.specs.Shapes.{shape};
ghost use Rattle.go_code_core.specs.fragments.Names.{declared_slot, frame_of, is_slot, is_target, meant_target, named_target, slot_target, slot_assigned};

use crate::fragments::names::{CodeNames, Frame, Meaning};
use crate::fragments::slots::slot_of;
use go_constant_core::text_core::is_blank;
use go_tree_nodes::{Expr, Ident};

/// What is assigned to.
#[derive(Clone, Copy)]
pub enum Target {
    /// Nothing: `_`.
    Blank,
    /// A variable of the function, by its slot.
    Slot(usize),
    /// Something else.
    Other,
}

fn slot_target(slot: Option<usize>) -> Target
    ensures { result ≡ slot_target slot }
{
    match slot {
        Some(slot) => Target::Slot(slot),
        None => Target::Other,
    }
}

fn meant_target(slots: &[Option<usize>], meaning: Meaning) -> Target
    ensures { result ≡ meant_target slots.now meaning }
{
    match meaning {
        Meaning::Variable(at, _) => slot_target(slot_of(slots, at)),
        _ => Target::Other,
    }
}

/// What a variable is, by its identifier where it is declared: `Other` where no slot is for it.
pub fn declared_target<N: CodeNames>(frame: &Frame<'_, N>, ident: &Ident) -> Target
    ensures { result ≡ declared_slot (frame_of (N.looks frame.now.names.now) frame.now.slots.now) ident.now }
{
    if is_blank(ident.name.as_str()) {
        return Target::Blank;
    }
    slot_target(slot_of(frame.slots, ident.span.start as usize))
}

// A name that is assigned to.
fn named_target<N: CodeNames>(frame: &Frame<'_, N>, ident: &Ident) -> Target
    ensures { result ≡ named_target (frame_of (N.looks frame.now.names.now) frame.now.slots.now) ident.now }
{
    if is_blank(ident.name.as_str()) {
        return Target::Blank;
    }
    meant_target(frame.slots, frame.names.meaning(ident.span.start as usize))
}

/// What is assigned to by the left side of an assignment, in parentheses too: `Other` where it is no variable of the function.
///
/// The Go specification, "Assignment statements", "IncDec statements".
pub fn target_of<N: CodeNames>(frame: &Frame<'_, N>, expr: &Expr) -> Target
    ensures { result ≡ slot_assigned (frame_of (N.looks frame.now.names.now) frame.now.slots.now) (shape expr.now) }
{
    match expr {
        Expr::Name(ident) => named_target(frame, ident),
        Expr::Paren(_, inner, _) => target_of(frame, inner),
        Expr::Integer(_, _) | Expr::Text(_) | Expr::Unary(_, _, _) | Expr::Binary(_) =>
            return Target::Other,
        Expr::Select(_) => return Target::Other,
        Expr::Call(_) => return Target::Other,
        Expr::Literal(_) => return Target::Other,
        Expr::StructLiteral(_) => return Target::Other,
    }
}

/// Whether it is a variable of the function.
pub(crate) fn is_slot(target: Target) -> bool
    ensures { result ≡ is_slot target }
{
    match target {
        Target::Slot(_) => true,
        Target::Blank | Target::Other => false,
    }
}

/// Whether it is that or `_`.
pub(crate) fn is_target(target: Target) -> bool
    ensures { result ≡ is_target target }
{
    match target {
        Target::Slot(_) | Target::Blank => true,
        Target::Other => false,
    }
}
