//! The tokens of a text around an offset.
ghost use Rattle.std.specs.Prelude.{◌≡◌, ◌≤◌, ◌+◌, IfOk, length, slice_get};
ghost use Rattle.go_scan_core.specs.Cutting.{tokens_of};
ghost use Rattle.go_recovery_core.specs.mend.Tokens.{kind_at, kind_before, place_of, tokens_or_none};

use go_scan_core::scan;
use go_tree_nodes::token_core::{ScanError, Token, TokenKind};
use std::alloc::{AllocError, Global};

/// The tokens of a text, and none where the text has a fault of its tokens.
pub(crate) fn tokens_in(alloc: Global, text: &str) -> Result<Vec<Token>, AllocError>
    ensures { IfOk result (λ v. v.items ≡ tokens_or_none (tokens_of text.now)) }
{
    match scan(alloc, text) {
        Ok(tokens) => Ok(tokens),
        Err(ScanError::Memory) => Err(AllocError),
        Err(ScanError::Fault(_)) => Ok(Vec::new(alloc)),
    }
}

/// How many tokens begin before an offset.
pub(crate) fn place_of(tokens: &[Token], offset: usize) -> usize
    ensures place { result ≡ place_of tokens.now offset }
    ensures within { result ≤ length tokens.now }
{
    tokens
        .iter()
        .take_while(|token| (token.span.start as usize) < offset)
        .count()
}

/// The token of a number, if there is one.
pub(crate) fn token_at(tokens: &[Token], number: usize) -> Option<Token>
    ensures { result ≡ slice_get tokens.now number }
{
    tokens.get(number).copied()
}

/// The kind of the token of a number.
pub(crate) fn kind_at(tokens: &[Token], number: usize) -> Option<TokenKind>
    ensures { result ≡ kind_at tokens.now number }
{
    match token_at(tokens, number) {
        Some(token) => Some(token.kind),
        None => None,
    }
}

/// The kind of the token that stands so many before the one of a number: one before for 1.
pub(crate) fn kind_before(tokens: &[Token], number: usize, count: usize) -> Option<TokenKind>
    ensures { result ≡ kind_before tokens.now number count }
{
    if count > number {
        return None;
    }
    kind_at(tokens, number - count)
}

/// The token behind the one of a number.
pub(crate) fn token_after(tokens: &[Token], number: usize) -> Option<Token>
    requires { number ≤ length tokens.now }
    ensures { result ≡ slice_get tokens.now (number + 1) }
{
    token_at(tokens, number + 1)
}

/// The kind of the token behind the one of a number.
pub(crate) fn kind_after(tokens: &[Token], number: usize) -> Option<TokenKind>
    requires { number ≤ length tokens.now }
    ensures { result ≡ kind_at tokens.now (number + 1) }
{
    kind_at(tokens, number + 1)
}
