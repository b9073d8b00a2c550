//! Values and types in sentences.

use crate::case::Case;
use go_diagnostic_core::{Words, digits};
use go_judge_core::{Judged, TypeText};
use go_report_core::operand_core::{Operand, ValueType};
use go_term_core::{Signature, TypeTerm};
use go_tree_nodes::text_core::add;
use std::alloc::{AllocError, Global};

/// A type as it is told at the place of a fault.
///
/// # Errors
///
/// `AllocError` where memory is wanting.
pub fn type_told(alloc: Global, case: &Case<'_>, term: &TypeTerm) -> Result<String, AllocError> {
    let TypeText { text, is_exact: _ } = case.setting.type_text(alloc, term)?;
    Ok(text)
}

/// What lies under a type, as it is told at the place of a fault.
///
/// The Go specification, "Underlying types".
///
/// # Errors
///
/// `AllocError` where memory is wanting.
pub fn under_told<'t>(
    alloc: Global,
    case: &'t Case<'_>,
    term: &'t TypeTerm,
) -> Result<String, AllocError> {
    type_told(alloc, case, case.setting.table().underlying(term))
}

/// The type of a value as it is told at the place of a fault; of an untyped one the type that it takes by itself.
///
/// # Errors
///
/// `AllocError` where memory is wanting.
pub fn type_of(
    alloc: Global,
    case: &Case<'_>,
    operand: &Operand<TypeTerm>,
) -> Result<String, AllocError> {
    match &operand.value_type {
        ValueType::Typed(term) => type_told(alloc, case, term),
        ValueType::UntypedInt => String::from_str(alloc, "int"),
        ValueType::UntypedText => String::from_str(alloc, "string"),
        ValueType::UntypedBool => String::from_str(alloc, "bool"),
        ValueType::Nil => String::from_str(alloc, "nil"),
    }
}

/// Whether a value is `nil`.
pub fn is_nil(operand: &Operand<TypeTerm>) -> bool {
    match &operand.value_type {
        ValueType::Nil => true,
        ValueType::Typed(_) => false,
        ValueType::UntypedInt => false,
        ValueType::UntypedText => false,
        ValueType::UntypedBool => false,
    }
}

// The article in front of a word that begins with a character.
fn article_before(first: char) -> &'static str {
    match first {
        'a' | 'e' | 'i' | 'o' | 'A' | 'E' | 'I' | 'O' => "an ",
        _ => "a ",
    }
}

/// The article in front of a type, with a blank after it: that of `a string`. `nil` has none.
pub fn article_of(name: &str) -> &'static str {
    if name == "nil" {
        return "";
    }
    match name.chars().next() {
        Some(c) => article_before(c),
        None => "a ",
    }
}

/// What something is, in a sentence: `x is a string`.
///
/// # Errors
///
/// `AllocError` where memory is wanting.
pub(crate) fn is_of(alloc: Global, written: &str, name: &str) -> Result<String, AllocError> {
    Words::new(alloc)
        .and(written)
        .and(" is ")
        .and(article_of(name))
        .and(name)
        .text()
}

/// What a value is, in a sentence: `x is a string`.
///
/// # Errors
///
/// `AllocError` where memory is wanting.
pub fn is_value(
    alloc: Global,
    case: &Case<'_>,
    written: &str,
    operand: &Operand<TypeTerm>,
) -> Result<String, AllocError> {
    let name = type_of(alloc, case, operand)?;
    is_of(alloc, written, name.as_str())
}

/// A number of things, each of this name.
///
/// # Errors
///
/// `AllocError` where memory is wanting.
pub fn counted(alloc: Global, number: usize, one: &str) -> Result<String, AllocError> {
    let written = digits(alloc, number)?;
    let ending = if number == 1 { "" } else { "s" };
    Words::new(alloc)
        .and(written.as_str())
        .and(" ")
        .and(one)
        .and(ending)
        .text()
}

/// How many values there are, in words.
///
/// # Errors
///
/// `AllocError` where memory is wanting.
pub fn values_told(alloc: Global, count: usize) -> Result<String, AllocError> {
    if count == 0 {
        return String::from_str(alloc, "no value");
    }
    counted(alloc, count, "value")
}

// Adds the type of what stands in a list.
fn push_kind(
    alloc: Global,
    case: &Case<'_>,
    judged: &Judged,
    text: &mut String,
) -> Result<(), AllocError> {
    match judged.value() {
        Some(operand) => {
            let name = type_of(alloc, case, operand)?;
            text.push_str(name.as_str())
        }
        None => text.push_str("?"),
    }
}

// Adds a type, where it is known.
fn push_type(
    alloc: Global,
    case: &Case<'_>,
    term: Option<&TypeTerm>,
    text: &mut String,
) -> Result<(), AllocError> {
    match term {
        Some(term) => {
            let name = type_told(alloc, case, term)?;
            text.push_str(name.as_str())
        }
        None => text.push_str("?"),
    }
}

/// How many members of a list are told.
const MOST: usize = 16;

/// Adds what stands between the members of a list, and answers whether the member of a number, from 0, is told.
///
/// # Errors
///
/// `AllocError` where memory is wanting.
pub(crate) fn separate(number: usize, text: &mut String) -> Result<bool, AllocError> {
    if number > 0 {
        text.push_str(", ")?;
    }
    if number == MOST {
        text.push_str("..")?;
    }
    Ok(number < MOST)
}

/// The types of values, in parentheses: `?` for one whose type is not known.
///
/// # Errors
///
/// `AllocError` where memory is wanting.
pub(crate) fn kinds_told(
    alloc: Global,
    case: &Case<'_>,
    values: &[Judged],
) -> Result<String, AllocError> {
    let mut text = String::from_str(alloc, "(")?;
    let mut number: usize = 0;
    for value in values {
        if !separate(number, &mut text)? {
            break;
        }
        push_kind(alloc, case, value, &mut text)?;
        number = number.saturating_add(1);
    }
    text.push_str(")")?;
    Ok(text)
}

/// Types, in parentheses: `?` for one that is none.
///
/// # Errors
///
/// `AllocError` where memory is wanting.
pub fn types_told(
    alloc: Global,
    case: &Case<'_>,
    types: &[Option<&TypeTerm>],
) -> Result<String, AllocError> {
    let mut text = String::from_str(alloc, "(")?;
    let mut number: usize = 0;
    for t in types {
        if !separate(number, &mut text)? {
            break;
        }
        push_type(alloc, case, *t, &mut text)?;
        number = number.saturating_add(1);
    }
    text.push_str(")")?;
    Ok(text)
}

/// The types of the parameters of a signature, in order: none for one that is no type.
///
/// # Errors
///
/// `AllocError` where memory is wanting.
pub fn params_of(
    alloc: Global,
    signature: &Signature,
) -> Result<Vec<Option<&TypeTerm>>, AllocError> {
    let mut all = Vec::new(alloc);
    for at in 0..signature.param_count() {
        add(&mut all, signature.param_at(at))?;
    }
    Ok(all)
}

/// The types of the results of a signature, in order: none for one that is no type.
///
/// # Errors
///
/// `AllocError` where memory is wanting.
pub(crate) fn results_of(
    alloc: Global,
    signature: &Signature,
) -> Result<Vec<Option<&TypeTerm>>, AllocError> {
    let mut all = Vec::new(alloc);
    for at in 0..signature.result_count() {
        add(&mut all, signature.result_at(at))?;
    }
    Ok(all)
}

// The results of a signature after its parameters: nothing where it has none, and in parentheses where it has several.
fn results_told(
    alloc: Global,
    case: &Case<'_>,
    signature: &Signature,
) -> Result<String, AllocError> {
    let types = results_of(alloc, signature)?;
    let mut text = String::new(alloc);
    if let Some(first) = types.first() {
        text.push_str(" ")?;
        if types.len() == 1 {
            push_type(alloc, case, *first, &mut text)?;
        } else {
            let all = types_told(alloc, case, &types)?;
            text.push_str(all.as_str())?;
        }
    }
    Ok(text)
}

/// A method of a name with its signature, as an interface type lists it: `Area(int) string`.
///
/// # Errors
///
/// `AllocError` where memory is wanting.
pub(crate) fn method_told(
    alloc: Global,
    case: &Case<'_>,
    name: &str,
    signature: &Signature,
) -> Result<String, AllocError> {
    let types = params_of(alloc, signature)?;
    let params = types_told(alloc, case, &types)?;
    let results = results_told(alloc, case, signature)?;
    Words::new(alloc)
        .and(name)
        .and(params.as_str())
        .and(results.as_str())
        .text()
}
