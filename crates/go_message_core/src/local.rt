//! The locals of a file that are open at a place.

use go_diagnostic_core::{Here, Tokens};
use go_report_core::answer::HeldLocal;
use go_tree_nodes::token_core::{Keyword, Operator, TokenKind};

// How the last brace that a search backward passed stands.
#[derive(Clone, Copy, PartialEq, Eq)]
enum LastBrace {
    /// None was passed, or it is still open where the search began.
    Open,
    /// It was closed in front of where the search began.
    Closed,
}

/// The local that is declared at an offset, among locals in order of their offsets.
pub(crate) fn local_at(locals: &[HeldLocal], offset: usize) -> Option<&HeldLocal> {
    match locals.binary_search_by(|local| local.offset.cmp(&offset)) {
        Ok(number) => locals.get(number),
        Err(_) => None,
    }
}

// Whether a token stands in the header of a function, an `if` or a `for`.
fn is_in_any_header(tokens: &Tokens<'_>, number: usize) -> bool {
    for back in 1..number.saturating_add(1) {
        let before = number.saturating_sub(back);
        match tokens.kind(before) {
            Some(TokenKind::Keyword(Keyword::If | Keyword::For | Keyword::Func)) => return true,
            Some(TokenKind::Operator(Operator::OpenBrace | Operator::CloseBrace)) => return false,
            Some(TokenKind::Keyword(_)) => return false,
            _ => {}
        }
    }
    false
}

/// The local of a name that is declared in front of a token and open there, the last such one: the number of its token.
pub(crate) fn open_local(
    tokens: &Tokens<'_>,
    locals: &[HeldLocal],
    before: usize,
    name: &str,
) -> Option<usize> {
    let mut closed: usize = 0;
    let mut last = LastBrace::Open;
    for back in 1..before.saturating_add(1) {
        let number = before.saturating_sub(back);
        if tokens.is(number, Operator::CloseBrace) {
            closed = closed.saturating_add(1);
        } else if tokens.is(number, Operator::OpenBrace) {
            last = if closed == 0 {
                LastBrace::Open
            } else {
                LastBrace::Closed
            };
            closed = closed.saturating_sub(1);
        } else if closed == 0 && is_declared(tokens, locals, number, name) {
            if last == LastBrace::Open || !is_in_any_header(tokens, number) {
                return Some(number);
            }
        }
    }
    None
}

/// Whether a token declares the local of a name.
pub(crate) fn is_declared(
    tokens: &Tokens<'_>,
    locals: &[HeldLocal],
    number: usize,
    name: &str,
) -> bool {
    tokens.word(number) == name && local_at(locals, tokens.start(number)).is_some()
}

/// The local of a name that is declared in front of a token in the same function, open there or not, the last such one.
pub(crate) fn earlier_local(
    tokens: &Tokens<'_>,
    locals: &[HeldLocal],
    before: usize,
    name: &str,
) -> Option<usize> {
    for back in 1..before.saturating_add(1) {
        let number = before.saturating_sub(back);
        if is_declared(tokens, locals, number, name) {
            return Some(number);
        }
        if tokens.is_keyword(number, Keyword::Func) && starts_line(tokens, number) {
            return None;
        }
    }
    None
}

// Whether a token stands where a declaration begins.
fn starts_line(tokens: &Tokens<'_>, number: usize) -> bool {
    match tokens.kind_before(number) {
        Some(TokenKind::Operator(Operator::Semicolon)) => true,
        Some(_) => false,
        None => true,
    }
}

/// The locals of the file of a place, in order of their offsets; none where the package is not checked.
pub(crate) fn locals_of<'s>(here: &Here<'s>) -> &'s [HeldLocal] {
    match here.snapshot.file(here.path(), here.file.name()) {
        Some(found) => found.made.answers.locals.as_slice(),
        None => &[],
    }
}

/// The local of a name that is open at a place: the number of its token.
pub(crate) fn local_here(here: &Here<'_>, name: &str) -> Option<usize> {
    open_local(here.tokens, locals_of(here), here.at, name)
}
