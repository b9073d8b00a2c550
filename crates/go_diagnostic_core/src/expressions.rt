//! Expressions and statements, as their tokens stand: brackets, and where a statement ends.

use crate::tokens::Tokens;
use go_token_core::{Keyword, Operator, TokenKind};

// How a token opens or closes what stands in brackets.
#[derive(Clone, Copy, PartialEq, Eq)]
enum Bracket {
    Opens,
    Closes,
    Neither,
}

// How a token opens or closes what stands in brackets.
fn bracket_of(kind: TokenKind) -> Bracket {
    match kind {
        TokenKind::Operator(Operator::OpenParen | Operator::OpenBracket | Operator::OpenBrace) =>
            Bracket::Opens,
        TokenKind::Operator(Operator::CloseParen | Operator::CloseBracket | Operator::CloseBrace) =>
            Bracket::Closes,
        _ => Bracket::Neither,
    }
}

impl<'t> Tokens<'t> {
    // How a token opens or closes what stands in brackets.
    fn bracket(&self, number: usize) -> Bracket {
        match self.kind(number) {
            Some(kind) => bracket_of(kind),
            None => Bracket::Neither,
        }
    }

    /// How many brackets are open after a token, where so many are open in front of it.
    pub fn depth_after(&self, number: usize, depth: usize) -> usize {
        match self.bracket(number) {
            Bracket::Opens => depth.saturating_add(1),
            Bracket::Closes => depth.saturating_sub(1),
            Bracket::Neither => depth,
        }
    }

    /// The bracket that closes what one opens; the last token where none does.
    pub fn closing(&self, open: usize) -> usize {
        let mut depth: usize = 0;
        for number in open..self.count() {
            depth = self.depth_after(number, depth);
            if depth == 0 {
                return number;
            }
        }
        self.count().saturating_sub(1)
    }

    /// The bracket that opens what one closes; the first token where none does.
    pub fn opening(&self, close: usize) -> usize {
        let mut depth: usize = 0;
        for back in 0..close {
            let number = close.saturating_sub(back);
            match self.bracket(number) {
                Bracket::Closes => depth = depth.saturating_add(1),
                Bracket::Opens => depth = depth.saturating_sub(1),
                Bracket::Neither => {}
            }
            if depth == 0 {
                return number;
            }
        }
        0
    }

    /// The bracket round a token that is open there, the innermost one; none where none is open.
    pub fn open_round(&self, number: usize) -> Option<usize> {
        let mut depth: usize = 0;
        for back in 1..number.saturating_add(1) {
            let before = number.saturating_sub(back);
            match self.bracket(before) {
                Bracket::Closes => depth = depth.saturating_add(1),
                Bracket::Opens if depth == 0 => return Some(before),
                Bracket::Opens => depth = depth.saturating_sub(1),
                Bracket::Neither => {}
            }
        }
        None
    }

    /// Whether a token stands in the header of an `if` or a `for`, where a brace opens a block.
    pub fn is_in_header(&self, number: usize) -> bool {
        for back in 1..number.saturating_add(1) {
            let before = number.saturating_sub(back);
            match self.kind(before) {
                Some(TokenKind::Keyword(Keyword::If | Keyword::For)) => return true,
                Some(TokenKind::Operator(Operator::OpenBrace | Operator::CloseBrace)) => {
                    return false;
                }
                Some(TokenKind::Keyword(_)) => return false,
                _ => {}
            }
        }
        false
    }

    /// The last token of the statement that begins at a token: the last in front of a semicolon, or of a brace that opens a block.
    pub fn statement_end(&self, first: usize) -> usize {
        let is_header = self.is_in_header(first);
        let mut depth: usize = 0;
        for number in first..self.count() {
            let is_end = self.is(number, Operator::Semicolon)
                || self.bracket(number) == Bracket::Closes
                || (is_header && self.is(number, Operator::OpenBrace));
            if depth == 0 && is_end {
                return number.saturating_sub(1).max(first);
            }
            depth = self.depth_after(number, depth);
        }
        self.count().saturating_sub(1).max(first)
    }

    /// The first token of this operator from one token up to another where no bracket is open; none where there is none.
    pub fn find_outside(&self, first: usize, last: usize, operator: Operator) -> Option<usize> {
        let mut depth: usize = 0;
        for number in first..last.saturating_add(1) {
            if depth == 0 && self.is(number, operator) {
                return Some(number);
            }
            depth = self.depth_after(number, depth);
        }
        None
    }
}
