//! The locals that are open at a piece, with what is kept of them.
ghost use Rattle.std.specs.Prelude.{◌≡◌, IfOk, option_map};
ghost use Rattle.go_env_core.specs.declared_core.Faces.{operand_shown, value_type_shown};

use crate::steps::Step;
use go_complete_core::report_core::HeldLocal;
use go_env_core::Meaning;
use go_env_core::handle_core::TypeRef;
use go_stmt_core::operand_core::{Operand, ValueType};
use go_term_core::TypeTerm;
use go_tree_nodes::Ident;
use go_tree_nodes::text_core::add;
use std::alloc::{AllocError, Global};

/// A local that is open at a place.
#[derive(Clone, Copy)]
pub(crate) struct LocalAt<'s> {
    /// The identifier that declares it.
    pub(crate) ident: &'s Ident,
    /// What it stands for: none where it has no type.
    pub(crate) value: &'s Option<Operand<TypeTerm>>,
}

// The local that is declared at an offset, among locals in order of their offsets.
fn kept_at(kept: &[HeldLocal], offset: usize) -> Option<&HeldLocal> {
    match kept.binary_search_by(|local| local.offset.cmp(&offset)) {
        Ok(number) => kept.get(number),
        Err(_) => None,
    }
}

/// What the local stands for that is declared at an offset, by what is kept of the locals of a file: none where it has no type, or where none is
/// declared there.
pub(crate) fn declared_value(kept: &[HeldLocal], offset: usize) -> Option<&Operand<TypeTerm>> {
    match kept_at(kept, offset) {
        Some(local) => local.value().as_ref(),
        None => None,
    }
}

/// Whether an identifier declares a local of a file, by what is kept of its locals.
pub(crate) fn declares(kept: &[HeldLocal], ident: &Ident) -> bool {
    kept_at(kept, ident.span.start as usize).is_some()
}

// Adds the local of an identifier, where something is kept of it.
fn add_local<'s>(
    kept: &'s [HeldLocal],
    ident: &'s Ident,
    locals: &mut Vec<LocalAt<'s>>,
) -> Result<(), AllocError> {
    match kept_at(kept, ident.span.start as usize) {
        Some(local) => add(
            locals,
            LocalAt {
                ident,
                value: local.value(),
            },
        ),
        None => Ok(()),
    }
}

// Takes a step: what the locals are that are open after it, and of each block that is open round the innermost how many locals were open where it began.
fn take_step<'s>(
    kept: &'s [HeldLocal],
    step: Step<'s>,
    marks: &mut Vec<usize>,
    locals: &mut Vec<LocalAt<'s>>,
) -> Result<(), AllocError> {
    match step {
        Step::Enter => add(marks, locals.len()),
        Step::Leave => {
            if let Some(mark) = marks.pop() {
                locals.truncate(mark);
            }
            Ok(())
        }
        Step::Piece(_) => Ok(()),
        Step::Declare(ident) => add_local(kept, ident, locals),
    }
}

/// The locals that are open at the step of a number of a declaration, by what is kept of the locals of its file: those of outer blocks first, in order of their
/// declarations.
///
/// # Errors
///
/// `AllocError` where memory is wanting.
pub(crate) fn locals_at<'s>(
    alloc: Global,
    kept: &'s [HeldLocal],
    steps: &[Step<'s>],
    number: usize,
) -> Result<Vec<LocalAt<'s>>, AllocError> {
    let mut marks = Vec::new(alloc);
    let mut locals = Vec::new(alloc);
    for step in steps.get(..number).unwrap_or(steps) {
        take_step(kept, *step, &mut marks, &mut locals)?;
    }
    Ok(locals)
}

// What type a value has, lent.
fn lend_value_type<'p>(value_type: &'p ValueType<TypeTerm>) -> ValueType<TypeRef<'p>>
    ensures { result ≡ value_type_shown value_type.now }
{
    match value_type {
        ValueType::Typed(term) => ValueType::Typed(TypeRef::of(term)),
        ValueType::UntypedInt => ValueType::UntypedInt,
        ValueType::UntypedText => ValueType::UntypedText,
        ValueType::UntypedBool => ValueType::UntypedBool,
        ValueType::Nil => ValueType::Nil,
    }
}

/// An operand that is held, lent. It takes no memory: a text of a constant is shared.
///
/// # Errors
///
/// `AllocError` where a text has too many owners.
pub(crate) fn lend_operand<'p>(
    operand: &'p Operand<TypeTerm>,
) -> Result<Operand<TypeRef<'p>>, AllocError>
    ensures { IfOk result (λ o. o ≡ operand_shown operand.now) }
{
    let constant = match &operand.constant {
        Some(constant) => Some(constant.share()?),
        None => None,
    };
    Ok(Operand {
        value_type: lend_value_type(&operand.value_type),
        constant,
        addressable: operand.addressable,
    })
}

// What a local stands for, lent.
fn lend_value<'p>(
    value: &'p Option<Operand<TypeTerm>>,
) -> Result<Option<Operand<TypeRef<'p>>>, AllocError>
    ensures { IfOk result (λ v. v ≡ option_map operand_shown value.now) }
{
    match value {
        Some(operand) => Ok(Some(lend_operand(operand)?)),
        None => Ok(None),
    }
}

/// What names of locals mean, in their order.
///
/// # Errors
///
/// `AllocError` where memory is wanting, or a text of a constant has too many owners.
pub(crate) fn meanings_of<'p>(
    alloc: Global,
    locals: &[LocalAt<'p>],
) -> Result<Vec<Meaning<'p>>, AllocError> {
    let mut meanings = Vec::new(alloc);
    for local in locals {
        let value = lend_value(local.value)?;
        add(
            &mut meanings,
            Meaning::Local(local.ident.span.start as usize, value),
        )?;
    }
    Ok(meanings)
}
