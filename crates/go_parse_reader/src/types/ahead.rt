//! The tokens ahead of the parser.
ghost use Rattle.std.specs.Prelude.{◌≡◌, ◌==◌, IfOk, length, true, is_some};
ghost use Rattle.std.specs.Option.{option_map};
ghost use Rattle.go_tree_nodes.specs.text_core.Slices.{slice_of};
ghost use Rattle.go_parse_reader.specs.types.mirrors.Giving.{Gives, IsOffset, NeverMemory};
ghost use Rattle.go_parse_reader.specs.types.mirrors.Marks as marks;
ghost use Rattle.go_parse_reader.specs.types.mirrors.Marks.{need, mark_at, keyword_at, name_at, number_at, text_at};
ghost use Rattle.go_tree_nodes.specs.Terminals.{terminals};
ghost use Rattle.go_parse_reader.specs.types.mirrors.TypeReading as reading;

use crate::types::stop::Stop;
use go_tree_nodes::text_core::{Name, Span};
use go_tree_nodes::token_core::{Keyword, Operator, Token, TokenKind, integer_value};
use go_tree_nodes::{Ident, TextLiteral};
use std::alloc::{AllocError, Global};
use std::marker::Model;

/// The name that stands at a place of a text.
fn ident(alloc: Global, text: &str, span: Span) -> Result<Option<Ident>, AllocError>
    ensures { IfOk result (λ x. x ≡ option_map (λ name. record { name = name; span = span }) (slice_of text.now span)) }
{
    match span.slice(text) {
        Some(spelled) => Ok(Some(Ident {
            name: Name::from_text(alloc, spelled)?,
            span,
        })),
        None => Ok(None),
    }
}

/// The string literal that stands at a place of a text.
fn text_literal(alloc: Global, text: &str, span: Span) -> Result<Option<TextLiteral>, AllocError>
    ensures { IfOk result (λ x. x ≡ option_map (λ spelled. record { spelled = spelled; span = span }) (slice_of text.now span)) }
{
    match span.slice(text) {
        Some(spelled) => Ok(Some(TextLiteral {
            spelled: Name::from_text(alloc, spelled)?,
            span,
        })),
        None => Ok(None),
    }
}

/// The tokens of a text that are left. Contracts see them as terminals.
#[derive(Drop)]
pub struct Ahead<'a> {
    text: &'a str,
    tokens: &'a [Token],
}

impl<'a> Model for Ahead<'a> {
    ghost use Rattle.std.specs.Prelude.{List};
    ghost use Rattle.go_tree_nodes.specs.Terminals.{Terminal, terminals};

    ghost Value = { List Terminal };

    ghost view = { λ a. terminals a.text.now a.tokens.now };
}

impl<'a> Ahead<'a> {
    /// All tokens of a text.
    pub fn new(text: &'a str, tokens: &'a [Token]) -> Ahead<'a>
        ensures { result ≡ terminals text.now tokens.now }
    {
        Ahead { text, tokens }
    }

    /// The offset in bytes of the token in front, or of the end of the text.
    pub fn offset(&self) -> usize
        ensures { IsOffset result self.now }
    {
        match self.tokens.first() {
            Some(first) => first.span.start as usize,
            None => self.text.len(),
        }
    }

    /// Whether no token is left.
    pub fn is_empty(&self) -> bool
        ensures { result ≡ (length self.now == 0) }
    {
        self.tokens.is_empty()
    }

    /// The operator or punctuation mark in front, and what is behind it.
    pub fn mark(&self, want: Operator) -> Option<(Span, Ahead<'a>)>
        ensures { result ≡ mark_at want self.now }
    {
        let (first, rest) = self.tokens.split_first()?;
        match first.kind {
            TokenKind::Operator(found) if found == want => {
                Some((first.span, Ahead::new(self.text, rest)))
            }
            _ => None,
        }
    }

    /// Any operator or punctuation mark in front, and what is behind it.
    pub fn any_mark(&self) -> Option<(Operator, Span, Ahead<'a>)>
        ensures { result ≡ marks.mark_that (λ o. true) self.now }
    {
        let (first, rest) = self.tokens.split_first()?;
        match first.kind {
            TokenKind::Operator(found) => { Some((found, first.span, Ahead::new(self.text, rest))) }
            _ => None,
        }
    }

    /// The operator or punctuation mark in front if it stands there, and what is behind it.
    pub fn some_mark(self, want: Operator) -> (Option<Span>, Ahead<'a>)
        ensures { (result.0, result.1) ≡ marks.some_mark want self.entry }
    {
        match self.mark(want) {
            Some((span, rest)) => (Some(span), rest),
            None => (None, self),
        }
    }

    /// The keyword in front, and what is behind it.
    pub fn word(&self, want: Keyword) -> Option<(Span, Ahead<'a>)>
        ensures { result ≡ keyword_at want self.now }
    {
        let (first, rest) = self.tokens.split_first()?;
        match first.kind {
            TokenKind::Keyword(found) if found == want => {
                Some((first.span, Ahead::new(self.text, rest)))
            }
            _ => None,
        }
    }

    /// The name in front, and what is behind it.
    ///
    /// # Errors
    ///
    /// [`AllocError`] where memory runs out.
    pub fn name(&self, alloc: Global) -> Result<Option<(Ident, Ahead<'a>)>, AllocError>
        ensures { IfOk result (λ x. x ≡ name_at self.now) }
    {
        let Some((first, rest)) = self.tokens.split_first() else {
            return Ok(None);
        };
        match first.kind {
            TokenKind::Identifier => {
                let Some(name) = ident(alloc, self.text, first.span)? else {
                    return Ok(None);
                };
                Ok(Some((name, Ahead::new(self.text, rest))))
            }
            _ => Ok(None),
        }
    }

    /// What is behind the name in front.
    pub fn behind_name(&self) -> Option<Ahead<'a>>
        ensures { result ≡ option_map (λ x. x.1) (name_at self.now) }
    {
        let (first, rest) = self.tokens.split_first()?;
        match first.kind {
            TokenKind::Identifier => {
                first.span.slice(self.text)?;
                Some(Ahead::new(self.text, rest))
            }
            _ => None,
        }
    }

    /// The value of the integer literal in front, its place, and what is behind it.
    pub fn integer(&self) -> Option<(u64, Span, Ahead<'a>)>
        ensures { result ≡ number_at self.now }
    {
        let (first, rest) = self.tokens.split_first()?;
        match first.kind {
            TokenKind::Integer => {
                let value = integer_value(first.span.slice(self.text)?)?;
                Some((value, first.span, Ahead::new(self.text, rest)))
            }
            _ => None,
        }
    }

    /// The string literal in front, and what is behind it.
    ///
    /// # Errors
    ///
    /// [`AllocError`] where memory runs out.
    pub fn text(&self, alloc: Global) -> Result<Option<(TextLiteral, Ahead<'a>)>, AllocError>
        ensures { IfOk result (λ x. x ≡ text_at self.now) }
    {
        let Some((first, rest)) = self.tokens.split_first() else {
            return Ok(None);
        };
        match first.kind {
            TokenKind::String => {
                let Some(literal) = text_literal(alloc, self.text, first.span)? else {
                    return Ok(None);
                };
                Ok(Some((literal, Ahead::new(self.text, rest))))
            }
            _ => Ok(None),
        }
    }

    /// The operator or punctuation mark that has to stand in front, and what is behind it.
    ///
    /// # Errors
    ///
    /// [`Stop::Grammar`] where it does not, with the offset in bytes of what stands there.
    pub fn need_mark(&self, want: Operator) -> Result<(Span, Ahead<'a>), Stop>
        ensures value { Gives (λ x. (x.0, x.1)) result (need (mark_at want self.now)) }
        ensures surely { NeverMemory result }
    {
        self.mark(want).ok_or(Stop::Grammar(self.offset()))
    }

    /// The keyword that has to stand in front, and what is behind it.
    ///
    /// # Errors
    ///
    /// [`Stop::Grammar`] where it does not, with the offset in bytes of what stands there.
    pub fn need_word(&self, want: Keyword) -> Result<(Span, Ahead<'a>), Stop>
        ensures value { Gives (λ x. (x.0, x.1)) result (need (keyword_at want self.now)) }
        ensures surely { NeverMemory result }
    {
        self.word(want).ok_or(Stop::Grammar(self.offset()))
    }

    /// The name that has to stand in front, and what is behind it.
    ///
    /// # Errors
    ///
    /// [`Stop::Grammar`] where none does, with the offset in bytes of what stands there, and
    /// [`Stop::Memory`] where memory runs out.
    pub fn need_name(&self, alloc: Global) -> Result<(Ident, Ahead<'a>), Stop>
        ensures { Gives (λ x. (x.0, x.1)) result (need (name_at self.now)) }
    {
        self.name(alloc)?.ok_or(Stop::Grammar(self.offset()))
    }

    /// The mark that has to stand in front between two items of a list, or none before the mark that closes the list;
    /// and what is behind it.
    ///
    /// # Errors
    ///
    /// [`Stop::Grammar`] where neither stands there, with the offset in bytes of what does.
    pub fn mark_or_end(
        self,
        between: Operator,
        close: Operator,
    ) -> Result<(Option<Span>, Ahead<'a>), Stop>
        ensures value { Gives (λ x. (x.0, x.1)) result (marks.mark_or_end between close self.entry) }
        ensures surely { NeverMemory result }
    {
        if let Some((span, rest)) = self.mark(between) {
            return Ok((Some(span), rest));
        }
        if self.mark(close).is_none() {
            return Err(Stop::Grammar(self.offset()));
        }
        Ok((None, self))
    }

    /// Whether a type may begin in front.
    pub fn begins_type(&self) -> bool
        ensures { result ≡ reading.begins_type self.now }
    {
        self.behind_name().is_some()
            || self.mark(Operator::Star).is_some()
            || self.mark(Operator::OpenParen).is_some()
            || self.word(Keyword::Struct).is_some()
            || self.word(Keyword::Interface).is_some()
    }

    /// Whether a string literal is in front.
    fn begins_text(&self) -> bool
        ensures { result ≡ is_some (text_at self.now) }
    {
        let Some(first) = self.tokens.first() else {
            return false;
        };
        match first.kind {
            TokenKind::String => first.span.slice(self.text).is_some(),
            _ => false,
        }
    }

    /// Whether what may stand behind an embedded field is in front.
    pub fn ends_embedded(&self) -> bool
        ensures { result ≡ reading.ends_embedded self.now }
    {
        self.mark(Operator::Dot).is_some()
            || self.begins_text()
            || self.mark(Operator::Semicolon).is_some()
            || self.mark(Operator::CloseBrace).is_some()
    }
}
