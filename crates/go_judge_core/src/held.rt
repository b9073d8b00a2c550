//! What expressions denote, held: it lends nothing of the place where they were judged.
use go_env_core::declared_core::{Face, hold};
use go_env_core::handle_core::{Decl, SignatureRef, TypeRef};
use go_stmt_core::denote_core::{Builtin, Denoted};
use go_stmt_core::operand_core::{Operand, ValueType};
use go_term_core::{Signature, TypeTerm, copy_signature};
use std::alloc::{AllocError, Global};

/// What an expression denotes.
pub enum Judged {
    /// A type, a function or a single value.
    Face(Face<TypeTerm, Signature>),
    /// The values of a call with several results, by the signature of what is called.
    Several(Signature),
    /// No value: a call without results.
    Nothing,
    /// The package that an import declares.
    Package,
    /// A predeclared function.
    Builtin(Builtin),
    /// A variable, a constant, a field or a result that has no type.
    Typeless,
    /// Nothing, since a rule is broken.
    Refused,
}

impl Drop for Judged {
    fn drop(self) {
        match self {
            Judged::Face(_) => {}
            Judged::Several(_) => {}
            Judged::Nothing => {}
            Judged::Package => {}
            Judged::Builtin(_) => {}
            Judged::Typeless => {}
            Judged::Refused => {}
        }
    }
}

// A type, a function or a single value, held.
fn held(alloc: Global, face: Face<TypeRef<'_>, SignatureRef<'_>>) -> Result<Judged, AllocError> {
    Ok(Judged::Face(hold(alloc, &face)?))
}

/// What an expression denotes, held.
///
/// # Errors
///
/// `AllocError` where memory is wanting.
pub(crate) fn hold_denoted(
    alloc: Global,
    denoted: Denoted<TypeRef<'_>, SignatureRef<'_>, Decl<'_>>,
) -> Result<Judged, AllocError> {
    match denoted {
        Denoted::Refused => Ok(Judged::Refused),
        Denoted::Typeless => Ok(Judged::Typeless),
        Denoted::Package(_) => Ok(Judged::Package),
        Denoted::Type(_, t) => held(alloc, Face::Type(t)),
        Denoted::Value(operand) => held(alloc, Face::Value(Some(operand))),
        Denoted::Several(signature) => {
            Ok(Judged::Several(copy_signature(alloc, signature.lent())?))
        }
        Denoted::Nothing => Ok(Judged::Nothing),
        Denoted::Func(_, signature) => held(alloc, Face::Func(signature)),
        Denoted::Builtin(_, builtin) => Ok(Judged::Builtin(builtin)),
    }
}

impl Judged {
    /// The single value that is denoted; none where it is none.
    pub fn value(&self) -> Option<&Operand<TypeTerm>> {
        match self {
            Judged::Face(Face::Value(Some(operand))) => Some(operand),
            _ => None,
        }
    }

    /// The type of the single value that is denoted; none where it is none, and where it is untyped.
    pub fn value_type(&self) -> Option<&TypeTerm> {
        match self.value() {
            Some(operand) => operand_type(operand),
            None => None,
        }
    }

    /// The type that is denoted; none where it is none.
    pub fn type_term(&self) -> Option<&TypeTerm> {
        match self {
            Judged::Face(Face::Type(Some(term))) => Some(term),
            _ => None,
        }
    }

    /// The signature of the function that is denoted; none where it is none.
    pub fn signature(&self) -> Option<&Signature> {
        match self {
            Judged::Face(Face::Func(signature)) => Some(signature),
            _ => None,
        }
    }

    /// Whether a rule is broken, or what is denoted has no type.
    pub fn is_refused(&self) -> bool {
        match self {
            Judged::Refused => true,
            Judged::Typeless => true,
            Judged::Face(_) => false,
            Judged::Several(_) => false,
            Judged::Nothing => false,
            Judged::Package => false,
            Judged::Builtin(_) => false,
        }
    }

    /// How many values there are, where they are not one: those of a call with no or several results. None for anything else.
    pub fn count(&self) -> Option<usize> {
        match self {
            Judged::Several(signature) => Some(signature.result_count()),
            Judged::Nothing => Some(0),
            Judged::Face(_) => None,
            Judged::Package => None,
            Judged::Builtin(_) => None,
            Judged::Typeless => None,
            Judged::Refused => None,
        }
    }
}

/// The type of an operand; none where it is untyped.
pub fn operand_type(operand: &Operand<TypeTerm>) -> Option<&TypeTerm> {
    match &operand.value_type {
        ValueType::Typed(term) => Some(term),
        ValueType::UntypedInt => None,
        ValueType::UntypedText => None,
        ValueType::UntypedBool => None,
        ValueType::Nil => None,
    }
}
