//! The words of what is said of a fault of the grammar.
ghost use Rattle.std.specs.Prelude.{◌≡◌, ◌++◌, IfOk, string_bytes};
ghost use Rattle.std.specs.List.{list_any};
ghost use Rattle.std.specs.Option.{option_map};
ghost use Rattle.go_recovery_core.specs.mend.Said.{closing_quote, end_words, headline_text, help_text, is_boundary_word, is_control, is_opened, is_shown, kind_words, met_text, opening_quote, put_in_text, spelled_text, take_away_words, token_text};
ghost use Rattle.go_tree_nodes.specs.text_core.Slices.{slice_of};

use crate::mend::candidates::is_word_kind;
use crate::mend::mending::{Mark, Mending};
use crate::mend::outcome::Mend;
use go_tree_nodes::token_core::{Keyword, Operator, Token, TokenKind};
use std::alloc::{AllocError, Global};

/// What is said of a tree that is too high.
pub const TOO_HIGH: &str =
    "nested more than 200 deep, where each operator in a row counts as one level: Go has no such limit";

const LONGEST_SHOWN: usize = 40;

/// Three texts, one behind the other.
pub(crate) fn joined(
    alloc: Global,
    first: &str,
    second: &str,
    third: &str,
) -> Result<String, AllocError>
    ensures { IfOk result (λ s. string_bytes s ≡ first.now ++ (second.now ++ third.now)) }
{
    let mut all = String::from_str(alloc, first)?;
    all.push_str(second)?;
    all.push_str(third)?;
    Ok(all)
}

fn is_control(byte: u8) -> bool
    ensures { result ≡ is_control byte }
{
    byte < 32
}

fn has_control(spelled: &str) -> bool
    ensures { result ≡ list_any is_control spelled.now }
{
    spelled.as_bytes().iter().any(|byte| is_control(*byte))
}

/// Whether a piece of a text is short enough to be shown, and of one line.
pub(crate) fn is_shown(spelled: &str) -> bool
    ensures { result ≡ is_shown spelled.now }
{
    spelled.len() <= LONGEST_SHOWN && !has_control(spelled)
}

fn kind_words(kind: TokenKind) -> &'static str
    ensures { result.now ≡ kind_words kind }
{
    match kind {
        TokenKind::Identifier => "unexpected name",
        TokenKind::Integer => "unexpected number",
        TokenKind::String => "unexpected string",
        TokenKind::Keyword(_) => "unexpected keyword",
        TokenKind::Operator(_) => "unexpected mark",
    }
}

fn opening_quote(kind: TokenKind) -> &'static str
    ensures { result.now ≡ opening_quote kind }
{
    if is_word_kind(kind) {
        "unexpected "
    } else {
        "unexpected \""
    }
}

fn closing_quote(kind: TokenKind) -> &'static str
    ensures { result.now ≡ closing_quote kind }
{
    if is_word_kind(kind) { "" } else { "\"" }
}

// What is said of a token that is spelled so.
fn spelled_said(alloc: Global, kind: TokenKind, spelled: &str) -> Result<String, AllocError>
    ensures { IfOk result (λ s. string_bytes s ≡ spelled_text kind spelled.now) }
{
    if is_shown(spelled) {
        return joined(alloc, opening_quote(kind), spelled, closing_quote(kind));
    }
    String::from_str(alloc, kind_words(kind))
}

// What is said of a token.
fn token_said(alloc: Global, text: &str, token: Token) -> Result<String, AllocError>
    ensures { IfOk result (λ s. string_bytes s ≡ token_text token.kind (slice_of text.now token.span)) }
{
    match token.span.slice(text) {
        Some(spelled) => spelled_said(alloc, token.kind, spelled),
        None => String::from_str(alloc, kind_words(token.kind)),
    }
}

// What is said of the end of a line, which may be the last one.
fn end_words(text: &str, end: u32) -> &'static str
    ensures { result.now ≡ end_words text.now end }
{
    if end as usize == text.len() {
        "unexpected end of the file"
    } else {
        "unexpected end of the line"
    }
}

// What is said of the token met.
fn met_said(alloc: Global, text: &str, met: Option<Token>) -> Result<String, AllocError>
    ensures { IfOk result (λ s. string_bytes s ≡ met_text text.now met) }
{
    match met {
        Some(token) => {
            if token.span.start == token.span.end {
                return String::from_str(alloc, end_words(text, token.span.end));
            }
            token_said(alloc, text, token)
        }
        None => String::from_str(alloc, "unexpected end of the file"),
    }
}

// What is said of a mark that is put in.
fn put_in_said(alloc: Global, mark: Mark) -> Result<String, AllocError>
    ensures { IfOk result (λ s. string_bytes s ≡ put_in_text mark) }
{
    match mark {
        Mark::Equal => joined(alloc, "write == in place of =", "", ""),
        Mark::OpenParen | Mark::CloseParen | Mark::OpenBrace | Mark::CloseBrace | Mark::Comma => {
            joined(alloc, "put in ", mark.text(), "")
        }
    }
}

// What is said of a token that is taken away, or of the end of a line.
fn take_away_words(met: Option<Token>) -> &'static str
    ensures { result.now ≡ take_away_words met }
{
    match met {
        Some(token) => {
            if token.span.start == token.span.end {
                "put the { on this line"
            } else {
                "take it away"
            }
        }
        None => "take it away",
    }
}

// Whether a bracket that is open in front of this token was hardly meant to be.
fn is_boundary_word(met: Option<Token>) -> bool
    ensures { result ≡ is_boundary_word met }
{
    match met {
        None => true,
        Some(token) => match token.kind {
            TokenKind::Keyword(word) => matches!(
                word,
                Keyword::Func | Keyword::Type | Keyword::Var | Keyword::Const | Keyword::Import
            ),
            TokenKind::Operator(mark) => {
                matches!(mark, Operator::CloseParen | Operator::CloseBrace)
            }
            _ => false,
        },
    }
}

impl Mend {
    /// The headline: `unexpected end of the line`, or `maps: Go has them, govisd does not support them yet`. It has one line. The text is the one that the
    /// fault is of.
    ///
    /// # Errors
    ///
    /// `AllocError` where memory runs out.
    pub fn headline(&self, alloc: Global, text: &str) -> Result<String, AllocError>
        ensures { IfOk result (λ s. string_bytes s ≡ headline_text text.now self.now) }
    {
        if self.too_high {
            return String::from_str(alloc, TOO_HIGH);
        }
        match self.form {
            Some(form) => joined(
                alloc,
                form.words(),
                ": Go has them, govisd does not support them yet",
                "",
            ),
            None => met_said(alloc, text, self.met),
        }
    }

    /// What helps, if anything is known that does: `put in )`, `take it away`, `write == in place of =`, `Go's loop is for`. It has one line. Where a mark is put in is told by
    /// `mending`: it may be another place than that of the fault.
    ///
    /// # Errors
    ///
    /// `AllocError` where memory runs out.
    pub fn help(&self, alloc: Global) -> Result<Option<String>, AllocError>
        ensures { IfOk result (λ s. option_map string_bytes s ≡ help_text self.now) }
    {
        if let Some(word) = self.foreign {
            return Ok(Some(String::from_str(alloc, word.advice())?));
        }
        match self.mending {
            Some(Mending::PutIn { token, at: _ }) => Ok(Some(put_in_said(alloc, token)?)),
            Some(Mending::TakeAway { from: _, to: _ }) => {
                Ok(Some(String::from_str(alloc, take_away_words(self.met))?))
            }
            None => Ok(None),
        }
    }

    /// Whether the bracket that is open is worth telling: one is, and the end of the text was met, or what begins a declaration, or a closing bracket,
    /// where no form of Go stands.
    pub fn is_opened(&self) -> bool
        ensures { result ≡ is_opened self.now }
    {
        self.open.is_some()
            && self.form.is_none()
            && self.foreign.is_none()
            && is_boundary_word(self.met)
    }
}
