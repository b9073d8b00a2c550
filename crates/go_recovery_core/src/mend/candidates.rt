//! The changes that are tried.
ghost use Rattle.std.specs.Prelude.{◌≡◌, ◌≤◌, length};
ghost use Rattle.std.specs.List.{list_all};
ghost use Rattle.go_recovery_core.specs.mend.Candidates.{candidates, closing_of, doubled, end_of, if_apart, is_blank_between, is_blank_byte, is_word_kind, join, opened_before, put_in, taken, token_before, would_glue};
ghost use Rattle.go_recovery_core.specs.mend.Tokens.{bracket_of};

use crate::mend::brackets::{assign_before, open_before};
use crate::mend::forms::is_mark;
use crate::mend::mending::{Mark, Mending};
use crate::mend::tokens::{kind_at, token_after, token_at};
use go_tree_nodes::text_core::Span;
use go_tree_nodes::token_core::{Operator, Token, TokenKind};

// The mark that closes a bracket.
fn closing_of(bracket: Option<TokenKind>) -> Option<Mark>
    ensures { result ≡ closing_of bracket }
{
    match bracket {
        Some(TokenKind::Operator(Operator::OpenParen)) => Some(Mark::CloseParen),
        Some(TokenKind::Operator(Operator::OpenBrace)) => Some(Mark::CloseBrace),
        _ => None,
    }
}

fn bracket_of(tokens: &[Token], bracket: Option<usize>) -> Option<TokenKind>
    ensures { result ≡ bracket_of tokens.now bracket }
{
    match bracket {
        Some(number) => kind_at(tokens, number),
        None => None,
    }
}

fn put_in(mark: Option<Mark>, at: usize) -> Option<Mending>
    ensures { result ≡ put_in mark at }
{
    match mark {
        Some(token) => Some(Mending::PutIn { token, at }),
        None => None,
    }
}

// The token before the one of a number.
pub(crate) fn token_before(tokens: &[Token], number: usize) -> Option<Token>
    ensures { result ≡ token_before tokens.now number }
{
    if number == 0 {
        return None;
    }
    token_at(tokens, number - 1)
}

// Where a token ends, and 0 where there is none.
fn end_of(token: Option<Token>) -> usize
    ensures { result ≡ end_of token }
{
    match token {
        Some(token) => token.span.end as usize,
        None => 0,
    }
}

// A mark where there is another place for it.
fn if_apart(mark: Option<Mark>, at: usize, other: usize) -> Option<Mending>
    ensures { result ≡ if_apart mark at other }
{
    if at == other {
        return None;
    }
    put_in(mark, at)
}

// `(` before a name.
fn opened_before(token: Option<Token>) -> Option<Mending>
    ensures { result ≡ opened_before token }
{
    match token {
        Some(
            Token {
                kind: TokenKind::Identifier,
                span,
            },
        ) => Some(Mending::PutIn {
            token: Mark::OpenParen,
            at: span.start as usize,
        }),
        _ => None,
    }
}

// `=` before another one, so that the two compare.
fn doubled(assign: Option<Token>) -> Option<Mending>
    ensures { result ≡ doubled assign }
{
    match assign {
        Some(token) => Some(Mending::PutIn {
            token: Mark::Equal,
            at: token.span.start as usize,
        }),
        None => None,
    }
}

fn is_blank_byte(byte: u8) -> bool
    ensures { result ≡ is_blank_byte byte }
{
    byte == b' ' || byte == b'\t' || byte == b'\r' || byte == b'\n'
}

fn is_blank(gap: &str) -> bool
    ensures { result ≡ list_all is_blank_byte gap.now }
{
    gap.as_bytes().iter().all(|byte| is_blank_byte(*byte))
}

// Whether white space alone stands between two places.
fn is_blank_between(text: &str, start: u32, end: u32) -> bool
    ensures { result ≡ is_blank_between text.now start end }
{
    match (Span { start, end }).slice(text) {
        Some(gap) => is_blank(gap),
        None => false,
    }
}

// The end of a line before `{`, taken away.
fn join(text: &str, met: Token, after: Option<Token>) -> Option<Mending>
    ensures { result ≡ join text.now met after }
{
    match after {
        Some(brace) => {
            if is_mark(Some(brace.kind), Operator::OpenBrace)
                && is_blank_between(text, met.span.start, brace.span.start)
            {
                return Some(Mending::TakeAway {
                    from: met.span.start as usize,
                    to: brace.span.start as usize,
                });
            }
            None
        }
        None => None,
    }
}

pub(crate) fn is_word_kind(kind: TokenKind) -> bool
    ensures { result ≡ is_word_kind kind }
{
    !matches!(kind, TokenKind::Operator(_))
}

// Whether two tokens would become one without what stands between them.
fn would_glue(before: Option<Token>, met: Token, after: Option<Token>) -> bool
    ensures { result ≡ would_glue before met after }
{
    match (before, after) {
        (Some(one), Some(other)) => {
            one.span.end == met.span.start
                && met.span.end == other.span.start
                && is_word_kind(one.kind)
                && is_word_kind(other.kind)
        }
        _ => false,
    }
}

// The token met, or the end of the line before `{`, taken away.
fn taken(
    text: &str,
    before: Option<Token>,
    met: Option<Token>,
    after: Option<Token>,
) -> Option<Mending>
    ensures { result ≡ taken text.now before met after }
{
    let Some(met) = met else {
        return None;
    };
    if met.span.start == met.span.end {
        return join(text, met, after);
    }
    if would_glue(before, met, after) {
        return None;
    }
    Some(Mending::TakeAway {
        from: met.span.start as usize,
        to: met.span.end as usize,
    })
}

/// The changes that are tried at the token of a number, in this order, none where one makes no sense there: the mark that closes the innermost open
/// bracket, behind the token before or at the offset; `,`, `{` and `(` behind the token before; `(` before a name that stands before; the token taken
/// away, or the end of the line before `{`; `==` in place of the last `=` of the line.
pub(crate) fn candidates(
    text: &str,
    tokens: &[Token],
    number: usize,
    offset: usize,
) -> [Option<Mending>; 8]
    requires { number ≤ length tokens.now }
    ensures { result ≡ candidates text.now tokens.now number offset }
{
    let closing = closing_of(bracket_of(tokens, open_before(tokens, number)));
    let before = token_before(tokens, number);
    let end = end_of(before);
    [
        put_in(closing, end),
        if_apart(closing, offset, end),
        put_in(Some(Mark::Comma), end),
        put_in(Some(Mark::OpenBrace), end),
        put_in(Some(Mark::OpenParen), end),
        opened_before(before),
        taken(
            text,
            before,
            token_at(tokens, number),
            token_after(tokens, number),
        ),
        doubled(assign_before(tokens, number)),
    ]
}
