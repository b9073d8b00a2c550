//! What is said of a fault.

use go_member_messages::case_core::Case;
use go_member_messages::judge_core::{CheckedFile, Piece};
use go_member_messages::{of_literal, of_selector};
use go_message_core::diagnostic_core::{Message, ScannedFile};
use go_message_core::message_in;
use go_operand_messages::{of_constant, of_operands, of_type, of_unsupported};
use go_snap_core::{PlacedFault, Snapshot};
use go_text_core::Rule;
use go_value_messages::{of_call, of_statement};
use std::alloc::{AllocError, Global};

/// Whether what is said of a rule is made of what expressions denote: of the rules of selectors (S), literals (F), calls (C), forms that are not supported (X), and types
/// and statements (Y).
pub fn is_of_types(rule: Rule) -> bool {
    matches!(
        rule.number().as_bytes().first(),
        Some(b'S' | b'F' | b'C' | b'X' | b'Y')
    )
}

// What is said of a fault with what stands there; none where no more is known than the sentence of the rule.
fn said(alloc: Global, case: &Case<'_>, rule: Rule) -> Result<Option<Message>, AllocError> {
    match rule.number().as_bytes().first() {
        Some(b'S') => of_selector(alloc, case, rule),
        Some(b'F') => of_literal(alloc, case, rule),
        Some(b'C') => of_call(alloc, case, rule),
        Some(b'X') => of_unsupported(alloc, case),
        Some(b'Y') => match rule {
            Rule::Y1 | Rule::Y2 => Ok(Some(of_type(alloc, case, rule)?)),
            Rule::Y3 => of_operands(alloc, case),
            Rule::Y7 => of_constant(alloc, case),
            _ => of_statement(alloc, case, rule),
        },
        _ => Ok(None),
    }
}

// Whether a rule is one that the piece at the place breaks by itself, judged anew: of selectors, literals, calls, operands, values and what stands alone. The others are
// of types as they are declared, of ends of functions, of loops, of constants that lead back to themselves, and of forms that are not supported. Of the values of a
// `return` and of a specification types are wanted that are written, which no piece is judged by: what is said of them rests on the first one that does not fit.
fn is_of_piece(case: &Case<'_>, rule: Rule) -> bool {
    match rule {
        Rule::Y3 | Rule::Y8 => true,
        Rule::Y4 => !wants_written_types(case),
        _ => matches!(rule.number().as_bytes().first(), Some(b'S' | b'F' | b'C')),
    }
}

// Whether the piece at the place is a `return` or a specification.
fn wants_written_types(case: &Case<'_>) -> bool {
    match case.setting.piece() {
        Some(Piece::Return(_, _)) => true,
        Some(Piece::Spec(_, _)) => true,
        Some(Piece::Simple(_)) => false,
        Some(Piece::Condition(_)) => false,
        None => false,
    }
}

// What is said of a fault with what stands there, where the piece, judged anew, breaks the rule of the fault at its place; none where it does not.
fn said_if_broken(
    alloc: Global,
    case: &Case<'_>,
    rule: Rule,
) -> Result<Option<Message>, AllocError> {
    if is_of_piece(case, rule) && !case.setting.breaks(alloc, case.here.offset, rule)? {
        return Ok(None);
    }
    said(alloc, case, rule)
}

// What is said of a fault by what stands there; none where it lies in another file, and where no more is known.
fn said_there(
    alloc: Global,
    scanned: &ScannedFile<'_>,
    checked: &CheckedFile<'_>,
    module: &str,
    fault: &PlacedFault,
) -> Result<Option<Message>, AllocError> {
    match Case::of(alloc, scanned, checked, module, fault) {
        Ok(Some(case)) => said_if_broken(alloc, &case, fault.rule),
        Ok(None) => Ok(None),
        Err(error) => Err(error),
    }
}

// The file of a fault with what is known where its expressions are judged; none where it was not checked.
fn checked_file<'s>(
    alloc: Global,
    snapshot: &'s Snapshot,
    fault: &PlacedFault,
) -> Result<Option<CheckedFile<'s>>, AllocError> {
    let Some(source) = snapshot.sources().packages().get(fault.package) else {
        return Ok(None);
    };
    match source.files().get(fault.file) {
        Some(file) => CheckedFile::of(alloc, snapshot, source.path(), file.name()),
        None => Ok(None),
    }
}

// The same where it is wanted.
fn checked_where<'s>(
    alloc: Global,
    snapshot: &'s Snapshot,
    fault: &PlacedFault,
    has_types: bool,
) -> Result<Option<CheckedFile<'s>>, AllocError> {
    if has_types {
        return checked_file(alloc, snapshot, fault);
    }
    Ok(None)
}

/// The messages of the faults of one file: what is read of it for one serves the others.
pub struct FileMessages<'s> {
    scanned: ScannedFile<'s>,
    checked: Option<CheckedFile<'s>>,
}

impl Drop for FileMessages<'_> {
    fn drop(self) {
        let FileMessages {
            scanned: _,
            checked: _,
        } = self;
    }
}

impl<'s> FileMessages<'s> {
    /// The messages of the faults of the file of a fault; none where the snapshot has no such file. `has_types` says whether one of them has a rule of types
    /// ([`is_of_types`]): else of such a rule the sentence alone is told.
    ///
    /// The time is linear in the text of the file; with types also in the declarations of its package and of those that it reaches.
    ///
    /// # Errors
    ///
    /// `AllocError` where memory is wanting.
    pub fn of(
        alloc: Global,
        snapshot: &'s Snapshot,
        fault: &PlacedFault,
        has_types: bool,
    ) -> Result<Option<FileMessages<'s>>, AllocError> {
        let scanned = match ScannedFile::of(alloc, snapshot, fault) {
            Ok(Some(scanned)) => scanned,
            Ok(None) => return Ok(None),
            Err(error) => return Err(error),
        };
        match checked_where(alloc, snapshot, fault, has_types) {
            Ok(checked) => Ok(Some(FileMessages { scanned, checked })),
            Err(error) => Err(error),
        }
    }

    /// What is said of a fault of the file, where places are told by folders below that of the module of this path: a headline that names what stands there with
    /// its type, and lines after it. Of the rules of selectors, literals, calls, types and statements it is made of what the expressions there denote, as the
    /// check has it; of any other rule, and where no more is known, it is what [`go_message_core::message_in`] says. Of a fault of another file the headline is the
    /// sentence of its rule.
    ///
    /// Of a rule that a piece breaks by itself more is said only where the piece, judged anew of what is kept, breaks this very rule there.
    ///
    /// A type is told as it is written at the place, where it can be. A value that is said not to fit is the first that does not, as far as the values are known.
    ///
    /// The time is linear in the declaration round the fault, for each expression and each type that is told, at most some twenty; and in what `message_in` of
    /// `go_message_core` takes.
    ///
    /// # Errors
    ///
    /// `AllocError` where memory is wanting.
    pub fn message(
        &self,
        alloc: Global,
        module: &str,
        fault: &PlacedFault,
    ) -> Result<Message, AllocError> {
        if is_of_types(fault.rule) {
            if let Some(checked) = &self.checked {
                if let Some(message) = said_there(alloc, &self.scanned, checked, module, fault)? {
                    return Ok(message);
                }
            }
        }
        message_in(alloc, &self.scanned, module, fault)
    }
}

/// What is said of a fault of a snapshot, as by [`FileMessages::message`] of its file, which is read for it alone. Of a fault that lies in no file of the snapshot the
/// headline is the sentence of the rule.
///
/// # Errors
///
/// `AllocError` where memory is wanting.
pub fn message_below(
    alloc: Global,
    snapshot: &Snapshot,
    module: &str,
    fault: &PlacedFault,
) -> Result<Message, AllocError> {
    match FileMessages::of(alloc, snapshot, fault, is_of_types(fault.rule)) {
        Ok(Some(messages)) => messages.message(alloc, module, fault),
        Ok(None) => go_message_core::message_below(alloc, snapshot, module, fault),
        Err(error) => Err(error),
    }
}
