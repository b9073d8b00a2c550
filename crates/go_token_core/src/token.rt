//! Tokens, and what may stand in their way.
use crate::kind::{CommentKind, TokenKind};
use go_text_core::{Rule, Span};
use std::alloc::{AllocError, AllocFailed};

/// A token, and where it stands in its text.
#[derive(Clone, Copy, Debug, PartialEq, Eq)]
pub struct Token {
    /// What it is.
    pub kind: TokenKind,
    /// The bytes that it covers: none for a semicolon that the end of a line stands for, which is
    /// at the end of the token before it.
    pub span: Span,
}

/// A comment, and where it stands in its text.
#[derive(Clone, Copy, Debug, PartialEq, Eq)]
pub struct Comment {
    /// What it is.
    pub kind: CommentKind,
    /// The bytes that it covers.
    pub span: Span,
}

/// A fault of a text, and where it stands.
///
/// The rule is L1 at a character that may stand nowhere or begins nothing, L2 at the start of a
/// string or a general comment that is not ended, and L3 at the start of a string with a wrong
/// escape, of a rune, or of a number other than an integer literal up to 2^63 - 1.
#[derive(Clone, Copy, Debug, PartialEq, Eq)]
pub struct LexFault {
    /// The rule that the text breaks: L1, L2 or L3.
    pub rule: Rule,
    /// The byte of the text where the fault begins.
    pub offset: usize,
}

/// Why a text has no tokens.
#[derive(Clone, Copy, Debug, PartialEq, Eq)]
pub enum ScanError {
    /// Memory ran out.
    Memory,
    /// The text has a fault: the first from the left.
    Fault(LexFault),
}

impl From<AllocError> for ScanError {
    ghost use Rattle.std.specs.Prelude.{◌≡◌};
    ghost use Rattle.go_token_core.specs.declared.token.ScanError.TheVariants.{Memory};

    ghost from_gives = { λ _ e. e ≡ Memory };

    fn from(_error: AllocError) -> Self {
        ScanError::Memory
    }
}

impl<T: Drop> From<AllocFailed<T>> for ScanError {
    ghost use Rattle.std.specs.Prelude.{◌≡◌};
    ghost use Rattle.go_token_core.specs.declared.token.ScanError.TheVariants.{Memory};

    ghost from_gives = { λ _ e. e ≡ Memory };

    fn from(_error: AllocFailed<T>) -> Self {
        ScanError::Memory
    }
}
