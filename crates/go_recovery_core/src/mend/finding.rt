//! What is found about a fault of the grammar.
ghost use Rattle.std.specs.Prelude.{◌≡◌, ◌≤◌, IfOk, IfSome, false, length, true};
ghost use Rattle.go_parse_core.specs.Correct.{HasNoLowTree};
ghost use Rattle.go_recovery_core.specs.mend.Mended.{mended_text};
ghost use Rattle.go_recovery_core.specs.mend.Mends.{Fits, FitsNot, HasSomeTree, IsFirstFit, IsForeignAt, IsMend, IsMendingAt, IsSpelledSo, IsToldAt, IsToldOf, is_grammar, is_height, open_offset};

use crate::mend::around::around_of;
use crate::mend::brackets::open_before;
use crate::mend::candidates::{candidates, token_before};
use crate::mend::foreign::{ForeignWord, foreign_word};
use crate::mend::forms::{is_start, late_form, sure_form};
use crate::mend::mending::{Mending, mended};
use crate::mend::outcome::{Mend, Told, mend_of};
use crate::mend::tokens::{kind_before, place_of, token_at, tokens_in};
use go_parse_core::{ParseError, SynFault, tree_of};
use go_tree_nodes::text_core::Rule;
use go_tree_nodes::token_core::{Token, TokenKind};
use std::alloc::{AllocError, Global};

/// The most bytes of a text for which a change is looked for, since each one that is tried is parsed.
pub const GREATEST_LENGTH: usize = 100_000;

// Whether a text has a tree that is low enough.
fn has_tree(alloc: Global, text: &str) -> Result<bool, AllocError>
    ensures some { IfOk result (λ has. has ≡ true → HasSomeTree text.now) }
    ensures none { IfOk result (λ has. has ≡ false → HasNoLowTree text.now) }
{
    match tree_of(alloc, text) {
        Ok(_) => Ok(true),
        Err(ParseError::Memory) => Err(AllocError),
        Err(ParseError::Fault(_)) => Ok(false),
    }
}

// Whether a change gives a text a tree.
fn fits(alloc: Global, text: &str, candidate: Option<Mending>) -> Result<bool, AllocError>
    ensures some { IfOk result (λ fit. fit ≡ true → Fits text.now candidate) }
    ensures none { IfOk result (λ fit. fit ≡ false → FitsNot text.now candidate) }
{
    match candidate {
        Some(mending) => {
            let new = mended(alloc, text, &mending)?;
            has_tree(alloc, new.as_str())
        }
        None => Ok(false),
    }
}

// The first of some changes that gives a text a tree.
fn first_fit(
    alloc: Global,
    text: &str,
    candidates: &[Option<Mending>],
) -> Result<Option<Mending>, AllocError>
    ensures { IfOk result (λ mending. IsFirstFit text.now candidates.now mending) }
{
    match candidates {
        [] => Ok(None),
        [first, rest @ ..] => {
            if fits(alloc, text, *first)? {
                return Ok(*first);
            }
            first_fit(alloc, text, rest)
        }
    }
}

// The change that is told at the token of a number.
fn mending_at(
    alloc: Global,
    text: &str,
    tokens: &[Token],
    number: usize,
    offset: usize,
) -> Result<Option<Mending>, AllocError>
    requires { number ≤ length tokens.now }
    ensures { IfOk result (λ mending. IsMendingAt text.now tokens.now number offset mending) }
{
    if text.len() > GREATEST_LENGTH {
        return Ok(None);
    }
    first_fit(alloc, text, &candidates(text, tokens, number, offset))
}

// The word of another language that a token is.
fn foreign_token(text: &str, token: Option<Token>) -> Option<ForeignWord>
    ensures { IfSome result (IsSpelledSo text.now token) }
{
    match token {
        Some(
            Token {
                kind: TokenKind::Identifier,
                span,
            },
        ) => match span.slice(text) {
            Some(spelled) => foreign_word(spelled),
            None => None,
        },
        _ => None,
    }
}

// The word of another language that begins a statement or a declaration at the token of a number, or before it.
fn foreign_at(text: &str, tokens: &[Token], number: usize) -> Option<ForeignWord>
    ensures { IfSome result (IsForeignAt text.now tokens.now number) }
{
    if is_start(kind_before(tokens, number, 1)) {
        return foreign_token(text, token_at(tokens, number));
    }
    if is_start(kind_before(tokens, number, 2)) {
        return foreign_token(text, token_before(tokens, number));
    }
    None
}

fn is_grammar(rule: Rule) -> bool
    ensures { result ≡ is_grammar rule }
{
    matches!(rule, Rule::P1)
}

fn is_height(rule: Rule) -> bool
    ensures { result ≡ is_height rule }
{
    matches!(rule, Rule::P2)
}

// Where a bracket stands.
fn open_offset(tokens: &[Token], bracket: Option<usize>) -> Option<usize>
    ensures { result ≡ open_offset tokens.now bracket }
{
    match bracket {
        Some(number) => match token_at(tokens, number) {
            Some(token) => Some(token.span.start as usize),
            None => None,
        },
        None => None,
    }
}

// What is told of a fault of the grammar at the token of a number.
fn told_at(
    alloc: Global,
    text: &str,
    tokens: &[Token],
    number: usize,
    offset: usize,
) -> Result<Told, AllocError>
    requires { number ≤ length tokens.now }
    ensures { IfOk result (IsToldAt text.now tokens.now number offset) }
{
    let around = around_of(tokens, number);
    if let Some(form) = sure_form(&around) {
        return Ok(Told::Form(form));
    }
    if let Some(word) = foreign_at(text, tokens, number) {
        return Ok(Told::Foreign(word));
    }
    if let Some(mending) = mending_at(alloc, text, tokens, number, offset)? {
        return Ok(Told::Mending(mending));
    }
    match late_form(&around) {
        Some(form) => Ok(Told::Form(form)),
        None => Ok(Told::Nothing),
    }
}

// What is told of a fault of a rule.
fn told_of(
    alloc: Global,
    text: &str,
    tokens: &[Token],
    number: usize,
    fault: SynFault,
) -> Result<Told, AllocError>
    requires { number ≤ length tokens.now }
    ensures { IfOk result (IsToldOf text.now tokens.now number fault) }
{
    if is_grammar(fault.rule) {
        return told_at(alloc, text, tokens, number, fault.offset);
    }
    Ok(Told::Nothing)
}

/// What is said of a fault of the grammar, P1 or P2, by the text and the offset of the fault alone: the token met there, which bracket is open, and the
/// first of these that there is: the form of Go that stands there and that the grammar of govisd lacks; the word of another language; the change with
/// which the text has a tree; and a form of Go that a mistake may look like too.
///
/// At most eight changes are tried, each by a parse of the text with the change, and none of a text of more than [`GREATEST_LENGTH`] bytes. All else takes
/// time linear in the text. A text that has a fault of its tokens is said to have none.
///
/// # Errors
///
/// `AllocError` where memory runs out.
pub fn mend(alloc: Global, text: &str, fault: SynFault) -> Result<Mend, AllocError>
    ensures said { IfOk result (IsMend text.now fault) }
    // With the change that is told the text has a tree.
    ensures fits { IfOk result (λ m. IfSome m.mending (λ x. HasSomeTree (mended_text text.now x))) }
{
    let tokens = tokens_in(alloc, text)?;
    let number = place_of(&tokens, fault.offset);
    let told = told_of(alloc, text, &tokens, number, fault)?;
    let open = open_offset(&tokens, open_before(&tokens, number));
    Ok(mend_of(
        fault.offset,
        token_at(&tokens, number),
        open,
        is_height(fault.rule),
        told,
    ))
}
