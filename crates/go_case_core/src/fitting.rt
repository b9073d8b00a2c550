//! Why a value does not fit, and what to write in its place; why one cannot be assigned to.

use crate::case::Case;
use crate::lists::{Misfit, Values};
use crate::missing::{GivenValue, add_address, add_assertion, add_missing, add_no_methods};
use crate::telling::{is_nil, type_of};
use go_diagnostic_core::{Message, Words};
use go_handle_core::table_core::TypeTable;
use go_judge_core::{Extent, TypeText, extent_of};
use go_report_core::operand_core::Operand;
use go_term_core::{Basic, TypeTerm, identical};
use go_tree_nodes::Expr;
use std::alloc::{AllocError, Global};

/// Marks what stands from one expression to the end of another as what a message is of.
pub fn mark_between(first: &Expr, last: &Expr, message: &mut Message) {
    let Extent { start, end: _ } = extent_of(first);
    let Extent { start: _, end } = extent_of(last);
    message.mark(start, end);
}

/// Marks an expression as what a message is of.
pub fn mark(expr: &Expr, message: &mut Message) {
    mark_between(expr, expr, message);
}

/// Marks a value that does not fit, and adds why it does not: which method it lacks of an interface type; and what to write where a pointer to it fits, or what
/// it points to.
///
/// # Errors
///
/// `AllocError` where memory is wanting.
pub fn add_why(
    alloc: Global,
    case: &Case<'_>,
    values: &Values<'_>,
    found: &Misfit<'_>,
    message: &mut Message,
) -> Result<(), AllocError> {
    values.mark(found.number, message);
    let Some(term) = values.type_at(found.number) else {
        return add_why_untyped(alloc, case, values, found, message);
    };
    let written = values.written(alloc, case, found.number)?;
    let is_one = values.call().is_none();
    let addressable = is_one && has_address(values, found.number);
    let value = GivenValue::new(term, written.as_str(), addressable);
    add_missing(alloc, case, value, found.wanted, message)?;
    add_assertion(alloc, case, value, found.wanted, message)?;
    if is_one {
        add_conversion(alloc, case, value, found.wanted, message)?;
        return add_pointer(alloc, value, found.wanted, message);
    }
    Ok(())
}

// Which of bool, int and string lies under a type; none where another type does.
fn basic_of<'t>(table: &'t TypeTable, term: &'t TypeTerm) -> Option<Basic> {
    match table.underlying(term) {
        TypeTerm::Basic(basic) => Some(*basic),
        _ => None,
    }
}

/// Adds how a value is converted to a type that is wanted, where the same one of bool, int and string lies under this type and its own.
///
/// The Go specification, "Conversions".
///
/// # Errors
///
/// `AllocError` where memory is wanting.
pub fn add_conversion(
    alloc: Global,
    case: &Case<'_>,
    value: GivenValue<'_>,
    wanted: &TypeTerm,
    message: &mut Message,
) -> Result<(), AllocError> {
    let table = case.setting.table();
    let own = basic_of(table, value.term);
    if own.is_none() || own != basic_of(table, wanted) || !value.is_whole() {
        return Ok(());
    }
    let TypeText { text, is_exact } = case.setting.type_text(alloc, wanted)?;
    if !is_exact {
        return Ok(());
    }
    message.help(
        Words::new(alloc)
            .and("write ")
            .and(text.as_str())
            .and("(")
            .and(value.written)
            .and(")"),
    )
}

// The same of a value without a type, where it is known.
fn add_why_untyped(
    alloc: Global,
    case: &Case<'_>,
    values: &Values<'_>,
    found: &Misfit<'_>,
    message: &mut Message,
) -> Result<(), AllocError> {
    match values.operand(found.number) {
        Some(operand) if !is_nil(operand) => {
            let told = type_of(alloc, case, operand)?;
            add_no_methods(alloc, &*case, told.as_str(), found.wanted, message)
        }
        _ => Ok(()),
    }
}

// Whether the value of a number has an address.
fn has_address(values: &Values<'_>, number: usize) -> bool {
    match values.operand(number) {
        Some(operand) => operand.addressable,
        None => false,
    }
}

// Whether a type is that of pointers to another.
fn points_to(pointer: &TypeTerm, target: &TypeTerm) -> bool {
    match pointer {
        TypeTerm::Pointer(found) => identical(found, target),
        TypeTerm::NoType => false,
        TypeTerm::Basic(_) => false,
        TypeTerm::Error => false,
        TypeTerm::Defined(_) => false,
        TypeTerm::Struct(_, _, _) => false,
        TypeTerm::Interface(_, _) => false,
    }
}

// Adds what to write where a pointer to a value fits, or what it points to.
fn add_pointer(
    alloc: Global,
    value: GivenValue<'_>,
    wanted: &TypeTerm,
    message: &mut Message,
) -> Result<(), AllocError> {
    if points_to(value.term, wanted) && value.is_whole() {
        return add_pointed(alloc, value.written, message);
    }
    if points_to(wanted, value.term) {
        return add_address(alloc, value, message);
    }
    Ok(())
}

// Adds how what a pointer points to is written.
fn add_pointed(alloc: Global, written: &str, message: &mut Message) -> Result<(), AllocError> {
    match written.strip_prefix('&') {
        Some(rest) => message.help(Words::new(alloc).and("write ").and(rest)),
        None => message.help(Words::new(alloc).and("write *").and(written)),
    }
}

/// Why a value cannot be assigned to that has no address.
pub fn why_fixed(operand: &Operand<TypeTerm>) -> &'static str {
    if operand.constant.is_some() {
        return " is a constant, and cannot be assigned to";
    }
    " has no address, and cannot be assigned to"
}
