//! The tokens around a place of a text.
ghost use Rattle.std.specs.Prelude.{◌≡◌, ◌≤◌, length};
ghost use Rattle.go_recovery_core.specs.mend.Forms.{around_of};
ghost use Rattle.go_recovery_core.specs.mend.Tokens.{opener_of};

use crate::mend::brackets::{line_before, open_before};
use crate::mend::tokens::{kind_after, kind_at, kind_before};
use go_tree_nodes::token_core::{Token, TokenKind};

/// The kinds of the tokens around a place of a text, none where there is no such token.
#[derive(Clone, Copy)]
pub(crate) struct Around {
    /// The one that stands at the place.
    pub(crate) met: Option<TokenKind>,
    /// The one behind that.
    pub(crate) after: Option<TokenKind>,
    /// The one before the place.
    pub(crate) before: Option<TokenKind>,
    /// The one before that.
    pub(crate) second: Option<TokenKind>,
    /// The one before that.
    pub(crate) third: Option<TokenKind>,
    /// The first one behind the last semicolon before the place.
    pub(crate) first: Option<TokenKind>,
    /// The one before the innermost bracket that is open at the place.
    pub(crate) opener: Option<TokenKind>,
    /// Whether a bracket is open at the place.
    pub(crate) is_open: bool,
}

// The kind of the token before a bracket.
fn opener_of(tokens: &[Token], bracket: Option<usize>) -> Option<TokenKind>
    ensures { result ≡ opener_of tokens.now bracket }
{
    match bracket {
        Some(number) => kind_before(tokens, number, 1),
        None => None,
    }
}

/// The tokens around the one of a number, which may be that of the text's end.
pub(crate) fn around_of(tokens: &[Token], number: usize) -> Around
    requires { number ≤ length tokens.now }
    ensures { result ≡ around_of tokens.now number }
{
    let bracket = open_before(tokens, number);
    Around {
        met: kind_at(tokens, number),
        after: kind_after(tokens, number),
        before: kind_before(tokens, number, 1),
        second: kind_before(tokens, number, 2),
        third: kind_before(tokens, number, 3),
        first: kind_at(tokens, line_before(tokens, number)),
        opener: opener_of(tokens, bracket),
        is_open: bracket.is_some(),
    }
}
