//! The bracket that is open at a place, and the line that goes on there.
ghost use Rattle.std.specs.Prelude.{◌≡◌, ◌≤◌, ◌<◌, ◌+◌, ◌^◌, IfSome};
ghost use Rattle.go_recovery_core.specs.mend.Tokens.{assign_before, fewer, is_assign, is_closing, is_opening, is_semicolon, line_before, open_before, seen};

use crate::mend::tokens::{kind_at, token_at};
use go_tree_nodes::token_core::{Operator, Token, TokenKind};

fn is_opening(kind: Option<TokenKind>) -> bool
    ensures { result ≡ is_opening kind }
{
    matches!(
        kind,
        Some(TokenKind::Operator(Operator::OpenParen | Operator::OpenBracket | Operator::OpenBrace))
    )
}

fn is_closing(kind: Option<TokenKind>) -> bool
    ensures { result ≡ is_closing kind }
{
    matches!(
        kind,
        Some(TokenKind::Operator(
            Operator::CloseParen | Operator::CloseBracket | Operator::CloseBrace
        ))
    )
}

fn is_semicolon(kind: Option<TokenKind>) -> bool
    ensures { result ≡ is_semicolon kind }
{
    matches!(kind, Some(TokenKind::Operator(Operator::Semicolon)))
}

fn is_assign(kind: Option<TokenKind>) -> bool
    ensures { result ≡ is_assign kind }
{
    matches!(kind, Some(TokenKind::Operator(Operator::Assign)))
}

// How many closing brackets have no partner yet where one bracket more is an opening one, and none where that has no partner itself.
fn fewer(closed: usize) -> Option<usize>
    ensures value { result ≡ fewer closed }
    ensures few { IfSome result (λ n. n ≤ closed) }
{
    if closed == 0 {
        return None;
    }
    Some(closed - 1)
}

// How many closing brackets have no partner yet, with one token more, and none where that is the bracket that is open.
fn seen(kind: Option<TokenKind>, closed: usize) -> Option<usize>
    requires { closed + 1 < 2 ^ 64 }
    ensures value { result ≡ seen kind closed }
    ensures few { IfSome result (λ n. n ≤ closed + 1) }
{
    if is_closing(kind) {
        return Some(closed + 1);
    }
    if is_opening(kind) {
        return fewer(closed);
    }
    Some(closed)
}

/// The number of the innermost bracket that is open before the token of a number, if one is.
#[tactic(auto, using(crate::proofs::MendBracketLemmas::open_next, crate::proofs::MendBracketLemmas::open_here))]
pub(crate) fn open_before(tokens: &[Token], number: usize) -> Option<usize>
    ensures { result ≡ open_before tokens.now number 0 }
{
    let mut at = number;
    // How many closing brackets behind have no partner yet.
    let mut closed = 0;
    while at > 0 {
        at -= 1;
        match seen(kind_at(tokens, at), closed) {
            Some(count) => closed = count,
            None => return Some(at),
        }
    }
    None
}

/// The number of the first token after the last semicolon that stands before the token of a number.
#[tactic(auto, using(crate::proofs::MendBracketLemmas::line_next, crate::proofs::MendBracketLemmas::line_here))]
pub(crate) fn line_before(tokens: &[Token], number: usize) -> usize
    ensures { result ≡ line_before tokens.now number }
{
    let mut at = number;
    while at > 0 {
        if is_semicolon(kind_at(tokens, at - 1)) {
            return at;
        }
        at -= 1;
    }
    0
}

/// The last `=` after the last semicolon that stands before the token of a number.
#[tactic(auto, using(crate::proofs::MendBracketLemmas::assign_next, crate::proofs::MendBracketLemmas::assign_here, crate::proofs::MendBracketLemmas::assign_none))]
pub(crate) fn assign_before(tokens: &[Token], number: usize) -> Option<Token>
    ensures { result ≡ assign_before tokens.now number }
{
    let mut at = number;
    while at > 0 {
        if is_semicolon(kind_at(tokens, at - 1)) {
            return None;
        }
        if is_assign(kind_at(tokens, at - 1)) {
            return token_at(tokens, at - 1);
        }
        at -= 1;
    }
    None
}
