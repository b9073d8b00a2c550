//! Texts with their tokens: what stands at the place of a fault, in front of it and after it.

use go_scan_core::scan;
use go_token_core::text_core::Span;
use go_token_core::{Keyword, Operator, ScanError, Token, TokenKind};
use std::alloc::{AllocError, Global};

/// A text with its tokens, which are numbered from 0.
///
/// The Go specification, "Tokens", "Semicolons".
pub struct Tokens<'t> {
    text: &'t str,
    // None where the text has a fault of its tokens.
    list: Vec<Token>,
}

impl Drop for Tokens<'_> {
    fn drop(self) {
        let Tokens { text: _, list: _ } = self;
    }
}

impl<'t> Tokens<'t> {
    /// A text with its tokens, as `scan` gives them; with none where it has a fault of its tokens. The time is linear in the text.
    ///
    /// # Errors
    ///
    /// `AllocError` where memory is wanting.
    pub fn of(alloc: Global, text: &'t str) -> Result<Tokens<'t>, AllocError> {
        match scan(alloc, text) {
            Ok(list) => Ok(Tokens { text, list }),
            Err(ScanError::Fault(_)) => Ok(Tokens {
                text,
                list: Vec::new(alloc),
            }),
            Err(ScanError::Memory) => Err(AllocError),
        }
    }

    /// How many tokens there are.
    pub fn count(&self) -> usize {
        self.list.len()
    }

    /// The number of the first token that begins at an offset in bytes or after it; how many tokens there are where none does.
    pub fn from(&self, offset: usize) -> usize {
        self.list
            .partition_point(|token| (token.span.start as usize) < offset)
    }

    /// The kind of a token; none where there is no token of this number.
    pub fn kind(&self, number: usize) -> Option<TokenKind> {
        match self.list.get(number) {
            Some(token) => Some(token.kind),
            None => None,
        }
    }

    /// The kind of the token in front of one; none where there is none.
    pub fn kind_before(&self, number: usize) -> Option<TokenKind> {
        match number.checked_sub(1) {
            Some(before) => self.kind(before),
            None => None,
        }
    }

    /// Whether a token is this operator.
    pub fn is(&self, number: usize, operator: Operator) -> bool {
        self.kind(number) == Some(TokenKind::Operator(operator))
    }

    /// Whether a token is this keyword.
    pub fn is_keyword(&self, number: usize, keyword: Keyword) -> bool {
        self.kind(number) == Some(TokenKind::Keyword(keyword))
    }

    /// Whether a token is an identifier.
    pub fn is_name(&self, number: usize) -> bool {
        self.kind(number) == Some(TokenKind::Identifier)
    }

    /// Whether the token in front of one is this operator.
    pub fn is_before(&self, number: usize, operator: Operator) -> bool {
        self.kind_before(number) == Some(TokenKind::Operator(operator))
    }

    /// Where a token begins, in bytes from the start of the text; the end of the text where there is no such token.
    pub fn start(&self, number: usize) -> usize {
        match self.list.get(number) {
            Some(token) => token.span.start as usize,
            None => self.text.len(),
        }
    }

    /// The text from the first byte of a token up to the last one of another; nothing where there is no such text.
    pub fn piece(&self, first: usize, last: usize) -> &'t str {
        let Some(first) = self.list.get(first) else {
            return "";
        };
        let Some(last) = self.list.get(last) else {
            return "";
        };
        let span = Span {
            start: first.span.start,
            end: last.span.end,
        };
        match span.slice(self.text) {
            Some(piece) => piece,
            None => "",
        }
    }

    /// The text of a token; nothing where there is no token of this number.
    pub fn word(&self, number: usize) -> &'t str {
        self.piece(number, number)
    }
}
