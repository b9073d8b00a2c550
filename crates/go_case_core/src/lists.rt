//! Values that are given: those of a list, or those of the one call that stands there.

use crate::case::Case;
use crate::fitting::{mark, mark_between};
use crate::telling::{is_of, is_value, kinds_told, results_of, type_told, types_told};
use go_diagnostic_core::{Message, Words, digits};
use go_judge_core::{Given, Judged, inside};
use go_report_core::denote_core::Stand;
use go_report_core::operand_core::Operand;
use go_term_core::{Basic, Signature, TypeTerm};
use go_tree_nodes::Expr;
use go_tree_nodes::text_core::add;
use std::alloc::{AllocError, Global};

/// Expressions in a list, with what they denote.
pub struct Values<'s> {
    exprs: Vec<&'s Expr>,
    judged: Vec<Judged>,
}

impl Drop for Values<'_> {
    fn drop(self) {
        let Values {
            exprs: _,
            judged: _,
        } = self;
    }
}

/// A value that does not fit: its number, from 0, and the type that is wanted of it.
#[derive(Clone, Copy)]
pub struct Misfit<'t> {
    pub number: usize,
    pub wanted: &'t TypeTerm,
}

/// Expressions in a list at the place of a fault, with what they denote.
///
/// # Errors
///
/// `AllocError` where memory is wanting.
pub fn values_of<'s>(
    alloc: Global,
    case: &Case<'_>,
    exprs: Vec<&'s Expr>,
) -> Result<Values<'s>, AllocError> {
    let judged = case.setting.judge(alloc, &exprs, Stand::Value)?;
    Ok(Values { exprs, judged })
}

impl<'s> Values<'s> {
    // What the only expression denotes; none where there are none or several.
    fn alone(&self) -> Option<&Judged> {
        if self.exprs.len() == 1 {
            return self.judged.first();
        }
        None
    }

    // The signature of the one call that gives several values; none where none stands there alone.
    fn signature(&self) -> Option<&Signature> {
        match self.alone() {
            Some(Judged::Several(signature)) => Some(signature),
            _ => None,
        }
    }

    // The expression of a number, from 0.
    fn expr(&self, number: usize) -> Option<&'s Expr> {
        self.exprs.get(number).copied()
    }

    /// The one call that gives no or several values; none where none stands there alone.
    pub fn call(&self) -> Option<&'s Expr> {
        match self.alone()?.count() {
            Some(_) => self.exprs.first().copied(),
            None => None,
        }
    }

    /// The one call that stands there alone, in parentheses or not, however many values it gives; none where something else stands there.
    pub fn only_call(&self) -> Option<&'s Expr> {
        if self.exprs.len() != 1 {
            return None;
        }
        let expr = self.exprs.first().copied()?;
        match inside(expr) {
            Expr::Call(_) => Some(expr),
            _ => None,
        }
    }

    /// Marks the value of a number, from 0, as what a message is of; where one call gives all values, the call.
    pub fn mark(&self, number: usize, message: &mut Message) {
        if let Some(call) = self.call() {
            mark(call, message);
        } else if let Some(expr) = self.expr(number) {
            mark(expr, message);
        }
    }

    /// Marks the values from a number on, from 0, as what a message is of; where one call gives all values, the call.
    pub fn mark_from(&self, number: usize, message: &mut Message) {
        match (self.expr(number), self.exprs.last()) {
            (Some(first), Some(last)) => mark_between(first, *last, message),
            _ => self.mark(0, message),
        }
    }

    /// How many values there are.
    pub fn count(&self) -> usize {
        match self.alone() {
            Some(judged) => match judged.count() {
                Some(count) => count,
                None => 1,
            },
            None => self.exprs.len(),
        }
    }

    /// Their types, in parentheses: `?` for one whose type is not known.
    ///
    /// # Errors
    ///
    /// `AllocError` where memory is wanting.
    pub fn kinds(&self, alloc: Global, case: &Case<'_>) -> Result<String, AllocError> {
        if let Some(signature) = self.signature() {
            let types = results_of(alloc, signature)?;
            return types_told(alloc, case, &types);
        }
        if self.call().is_some() {
            return String::from_str(alloc, "()");
        }
        kinds_told(alloc, case, &self.judged)
    }

    // What the expression of a number denotes; none where one call gives all values.
    fn judged_at(&self, number: usize) -> Option<&Judged> {
        if self.call().is_some() {
            return None;
        }
        self.judged.get(number)
    }

    /// The value of a number, from 0, as it is shown: of the values of one call the number and the call.
    ///
    /// # Errors
    ///
    /// `AllocError` where memory is wanting.
    pub fn written(
        &self,
        alloc: Global,
        case: &Case<'_>,
        number: usize,
    ) -> Result<String, AllocError> {
        if let Some(call) = self.call() {
            let which = digits(alloc, number.saturating_add(1))?;
            let call = case.shown(alloc, call)?;
            return Words::new(alloc)
                .and("value ")
                .and(which.as_str())
                .and(" of ")
                .and(call.as_str())
                .text();
        }
        match self.expr(number) {
            Some(expr) => case.shown(alloc, expr),
            None => Ok(String::new(alloc)),
        }
    }

    /// The type of the value of a number, from 0; none where it is untyped or not known.
    pub fn type_at(&self, number: usize) -> Option<&TypeTerm> {
        if let Some(signature) = self.signature() {
            return result_type(signature, number);
        }
        self.judged_at(number)?.value_type()
    }

    /// What the value of a number, from 0, is, in a sentence: `x is a string`. Where that is not known the value alone.
    ///
    /// # Errors
    ///
    /// `AllocError` where memory is wanting.
    pub fn is_text(
        &self,
        alloc: Global,
        case: &Case<'_>,
        number: usize,
    ) -> Result<String, AllocError> {
        let written = self.written(alloc, case, number)?;
        if let Some(operand) = self.operand(number) {
            return is_value(alloc, case, written.as_str(), operand);
        }
        match self.type_at(number) {
            Some(term) => {
                let name = type_told(alloc, case, term)?;
                is_of(alloc, written.as_str(), name.as_str())
            }
            None => Ok(written),
        }
    }

    /// The single value that the expression of a number, from 0, denotes; none where it is none, or not known.
    pub fn operand(&self, number: usize) -> Option<&Operand<TypeTerm>> {
        self.judged_at(number)?.value()
    }

    // The values, as far as they are known.
    fn given(&self, alloc: Global) -> Result<Vec<Given<'_>>, AllocError> {
        let mut all = Vec::new(alloc);
        if let Some(signature) = self.signature() {
            for at in 0..signature.result_count() {
                add(&mut all, given_result(signature.result_at(at)))?;
            }
            return Ok(all);
        }
        for judged in &self.judged {
            add(&mut all, given_value(judged))?;
        }
        Ok(all)
    }

    /// The number, from 0, of the first value that is over no basic type, or over `string` alone where that is wanted; none where none is known to be so.
    ///
    /// # Errors
    ///
    /// `AllocError` where the text of a constant has too many owners.
    pub fn first_other(&self, case: &Case<'_>, is_text: bool) -> Result<Option<usize>, AllocError> {
        let mut number: usize = 0;
        for judged in &self.judged {
            if is_other(case, judged, is_text)? {
                return Ok(Some(number));
            }
            number = number.saturating_add(1);
        }
        Ok(None)
    }
}

// A result of a call, by its type; a value of which nothing is known where it has none.
fn given_result(term: Option<&TypeTerm>) -> Given<'_> {
    match term {
        Some(term) => Given::Result(term),
        None => Given::Unknown,
    }
}

// What is denoted where a value is wanted.
fn given_value(judged: &Judged) -> Given<'_> {
    match judged.value() {
        Some(operand) => Given::Value(operand),
        None => Given::Unknown,
    }
}

// The type of the result of a number, from 0.
fn result_type(signature: &Signature, number: usize) -> Option<&TypeTerm> {
    if number < signature.result_count() {
        return signature.result_at(number);
    }
    None
}

// Whether what is denoted is a value that is over no basic type, or over `string` alone where that is wanted.
fn is_other(case: &Case<'_>, judged: &Judged, is_text: bool) -> Result<bool, AllocError> {
    let Some(operand) = judged.value() else {
        return Ok(false);
    };
    match case.setting.basic_under(operand)? {
        Some(Basic::Text) => Ok(false),
        Some(Basic::Int) => Ok(is_text),
        Some(Basic::Bool) => Ok(is_text),
        None => Ok(true),
    }
}

/// The first value that does not fit where these types are wanted, each of the value of its number: it is not assignable to it, and all in front of it are, as far as
/// they are known. None where no value is known not to fit.
///
/// The Go specification, "Assignability".
///
/// # Errors
///
/// `AllocError` where memory is wanting.
pub fn misfit_in<'t>(
    alloc: Global,
    case: &Case<'_>,
    values: &Values<'_>,
    wanted: &[Option<&'t TypeTerm>],
) -> Result<Option<Misfit<'t>>, AllocError> {
    let given = values.given(alloc)?;
    let Some(number) = case.setting.first_misfit(alloc, &given, wanted)? else {
        return Ok(None);
    };
    match wanted.get(number) {
        Some(Some(wanted)) => Ok(Some(Misfit {
            number,
            wanted: *wanted,
        })),
        Some(None) => Ok(None),
        None => Ok(None),
    }
}
