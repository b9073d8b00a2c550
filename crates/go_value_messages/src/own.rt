//! The function round a place, as it is denoted there.

use crate::assigned::{copied, name_of};
use go_case_core::Case;
use go_case_core::judge_core::Judged;
use go_term_core::{Signature, TypeTerm};
use go_tree_nodes::text_core::{add, boxed};
use go_tree_nodes::{Expr, FuncDecl, Ident, SelectExpr};
use std::alloc::{AllocError, Global};

// Whether a name means the local there that is declared at an offset.
fn is_local_at(case: &Case<'_>, name: &str, offset: usize) -> bool {
    match case.setting.local(name) {
        Some(declared) => declared == offset,
        None => false,
    }
}

// A method of a receiver, after its name; none where the name means another thing at the place.
fn method_expr(
    alloc: Global,
    case: &Case<'_>,
    receiver: &Ident,
    method: &Ident,
) -> Result<Option<Expr>, AllocError> {
    let start = receiver.span.start as usize;
    if !is_local_at(case, receiver.name.as_str(), start) {
        return Ok(None);
    }
    let name = copied(alloc, method)?;
    let operand = name_of(alloc, receiver)?;
    let select = SelectExpr {
        operand,
        dot: receiver.span,
        name,
    };
    Ok(Some(Expr::Select(boxed(alloc, select)?)))
}

// A function by its name; none where that means a local at the place.
fn function_expr(alloc: Global, case: &Case<'_>, name: &Ident) -> Result<Option<Expr>, AllocError> {
    if case.setting.local(name.name.as_str()).is_some() {
        return Ok(None);
    }
    Ok(Some(name_of(alloc, name)?))
}

// An expression that denotes a function round the place: its name, or that after the name of its receiver. None where there is none.
fn own_expr(alloc: Global, case: &Case<'_>, func: &FuncDecl) -> Result<Option<Expr>, AllocError> {
    match &func.receiver {
        Some(receiver) => match &receiver.name {
            Some(ident) => method_expr(alloc, case, ident, &func.name),
            None => Ok(None),
        },
        None => function_expr(alloc, case, &func.name),
    }
}

/// What a function round the place denotes there; what is refused where no expression denotes it.
///
/// # Errors
///
/// `AllocError` where memory is wanting.
pub(crate) fn own_function(
    alloc: Global,
    case: &Case<'_>,
    func: &FuncDecl,
) -> Result<Judged, AllocError> {
    match own_expr(alloc, case, func)? {
        Some(expr) => case.callee(alloc, &expr),
        None => Ok(Judged::Refused),
    }
}

/// The types of the results of a signature, in order: none for one that is no type.
///
/// # Errors
///
/// `AllocError` where memory is wanting.
pub(crate) fn results_of(
    alloc: Global,
    signature: &Signature,
) -> Result<Vec<Option<&TypeTerm>>, AllocError> {
    let mut all = Vec::new(alloc);
    for at in 0..signature.result_count() {
        add(&mut all, signature.result_at(at))?;
    }
    Ok(all)
}
