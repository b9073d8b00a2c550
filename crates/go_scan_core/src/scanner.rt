//! From a text to its tokens and comments.
ghost use Rattle.std.specs.Prelude.{◌≡◌, ℕ, ◌+◌, ◌^◌, ◌<◌, ◌≤◌, [], ◌++◌, ◌==◌, if◌then◌else◌, None, length, take, drop, All, OnOk, IfOk};
ghost use Rattle.std.specs.List.{prefix_len};
ghost use Rattle.std.specs.Str.{chars};
ghost use Rattle.go_token_core.specs.Characters.{first_passes, is_space};
ghost use Rattle.go_scan_core.specs.Cutting.{Answers, AnswersBy, comments_of, tokens_of};
ghost use Rattle.go_scan_core.specs.Parts.{ends_statement, holds_line_end, semicolon_after, semicolon_behind, width};
ghost use Rattle.go_scan_core.specs.mirrors.Cutting.{closed, cut, fault_of, parts_of, remarked};
ghost use Rattle.go_scan_core.specs.Texts.{CommentHasItsText, HasItsText, IsFilled};
ghost use Rattle.go_scan_core.specs.Tokens.{CommentsInOrder, FindsComments, Scans, TokensInOrder};

use crate::piece::{Piece, width};
use crate::reading::front_piece;
use go_token_core::text_core::{Rule, Span};
use go_token_core::{
    Comment, Keyword, LexFault, Operator, ScanError, Token, TokenKind, characters_of,
};
use std::alloc::{AllocError, Global};

// The most bytes of a text that is scanned: the offsets of spans have 32 bits.
const GREATEST_LENGTH: usize = 4294967295;

/// Whether the end of a line behind such a token stands for a semicolon.
fn is_ending(kind: TokenKind) -> bool
    ensures { result ≡ ends_statement kind }
{
    match kind {
        TokenKind::Identifier | TokenKind::Integer | TokenKind::String => true,
        TokenKind::Keyword(k) => matches!(
            k,
            Keyword::Break | Keyword::Continue | Keyword::Fallthrough | Keyword::Return
        ),
        TokenKind::Operator(o) => matches!(
            o,
            Operator::Increment
                | Operator::Decrement
                | Operator::CloseParen
                | Operator::CloseBracket
                | Operator::CloseBrace
        ),
    }
}

/// Adds the semicolon that the last token of a line asks for.
fn end_line(tokens: &mut Vec<Token>, last: Option<Token>) -> Result<(), AllocError>
    ensures { OnOk result (tokens.new.items ≡ tokens.old.items ++ semicolon_after last) }
{
    if let Some(token) = last {
        if is_ending(token.kind) {
            let place = Span {
                start: token.span.end,
                end: token.span.end,
            };
            tokens.push(Token {
                kind: TokenKind::Operator(Operator::Semicolon),
                span: place,
            })?;
        }
    }
    Ok(())
}

/// Adds the semicolon that the last token of a line asks for, where a line ends. Answers the last
/// token of the line that goes on.
fn end_line_if(
    tokens: &mut Vec<Token>,
    last: Option<Token>,
    ends: bool,
) -> Result<Option<Token>, AllocError>
    ensures tokens { OnOk result (tokens.new.items ≡ tokens.old.items ++ (if ends then semicolon_after last else [])) }
    ensures last { IfOk result (λ l. l ≡ (if ends then None else last)) }
{
    if ends {
        end_line(tokens, last)?;
        return Ok(None);
    }
    Ok(last)
}

/// Whether the end of a line is among the characters.
fn holds_line_end(text: &[char]) -> bool
    ensures { result ≡ holds_line_end text.now }
{
    text.iter().any(|c| *c == '\n')
}

/// The fault behind so many characters of a text that begins at the byte `start`.
fn fault_behind(text: &[char], start: u32, rule: Rule, len: usize) -> LexFault
    requires inside { len ≤ length text.now }
    requires fits { start + width text.now < 2 ^ 32 }
    ensures { result ≡ fault_of rule (start + width (take len text.now)) }
{
    let (sound, _) = text.split_at(len);
    LexFault {
        rule,
        offset: (start + width(sound)) as usize,
    }
}

/// How many white-space characters stand at the front.
fn space_len(text: &[char]) -> usize
    ensures { result ≡ prefix_len is_space text.now }
{
    text.iter()
        .take_while(|c| matches!(**c, ' ' | '\t' | '\r'))
        .count()
}

/// What stands behind the white space at the front of a text that begins at the byte `start`, and
/// the byte where it begins.
fn behind_spaces(text: &[char], start: u32) -> (&[char], u32)
    requires { start + width text.now < 2 ^ 32 }
    ensures rest { result.0.now ≡ drop (prefix_len is_space text.now) text.now }
    ensures place { result.1 ≡ start + prefix_len is_space text.now }
{
    let count = space_len(text);
    let (_, rest) = text.split_at(count);
    (rest, start + count as u32)
}

/// The tokens and the comments of the characters that begin at the byte `start`.
fn read_characters(
    alloc: Global,
    text: &[char],
    start: u32,
) -> Result<(Vec<Token>, Vec<Comment>), ScanError>
    requires { start + width text.now < 2 ^ 32 }
    ensures tokens { AnswersBy (λ v. v.0.items) result (closed None (cut text.now 0 start)) }
    ensures comments { AnswersBy (λ v. v.1.items) result (remarked (cut text.now 0 start)) }
{
    let mut tokens = Vec::new(alloc);
    let mut comments = Vec::new(alloc);
    let mut last = None;
    let mut at = start;
    let mut rest = text;
    while !rest.is_empty() {
        let (piece, len) = match front_piece(rest) {
            Ok(found) => found,
            Err((rule, len)) => return Err(ScanError::Fault(fault_behind(rest, at, rule, len))),
        };
        let (front, others) = rest.split_at(len);
        let end = at + width(front);
        let (behind, next) = behind_spaces(others, end);
        let span = Span { start: at, end };
        match piece {
            Piece::Space => {}
            Piece::LineEnd => {
                end_line(&mut tokens, last)?;
                last = None;
            }
            Piece::Lexeme(kind) => {
                let token = Token { kind, span };
                tokens.push(token)?;
                last = Some(token);
            }
            Piece::Remark(kind) => {
                comments.push(Comment { kind, span })?;
                last = end_line_if(&mut tokens, last, holds_line_end(front))?;
            }
        }
        at = next;
        rest = behind;
    }
    end_line(&mut tokens, last)?;
    Ok((tokens, comments))
}

/// Whether a byte order mark is first.
fn has_mark(text: &[char]) -> bool
    ensures { result ≡ first_passes (λ c. c == 65279) text.now }
{
    matches!(text, ['\u{feff}', ..])
}

/// The tokens and the comments of a text, behind a byte order mark at its start.
#[tactic(auto, unfolding(crate::specs::mirrors::Cutting::parts_of))]
fn read(alloc: Global, text: &str) -> Result<(Vec<Token>, Vec<Comment>), ScanError>
    ensures tokens { AnswersBy (λ v. v.0.items) result (tokens_of text.now) }
    ensures comments { AnswersBy (λ v. v.1.items) result (comments_of text.now) }
{
    if text.len() > GREATEST_LENGTH {
        return Err(ScanError::Memory);
    }
    let characters = characters_of(alloc, text)?;
    if has_mark(&characters) {
        read_characters(alloc, &characters[1..], 3)
    } else {
        read_characters(alloc, &characters, 0)
    }
}

/// The tokens of a text, without its comments.
fn tokens_alone(alloc: Global, text: &str) -> Result<Vec<Token>, ScanError>
    ensures { Answers result (tokens_of text.now) }
{
    match read(alloc, text) {
        Ok((tokens, _)) => Ok(tokens),
        Err(error) => Err(error),
    }
}

/// The comments of a text, without its tokens.
fn comments_alone(alloc: Global, text: &str) -> Result<Vec<Comment>, ScanError>
    ensures { Answers result (comments_of text.now) }
{
    match read(alloc, text) {
        Ok((_, comments)) => Ok(comments),
        Err(error) => Err(error),
    }
}

/// The tokens of a text in their order, or its first fault from the left.
///
/// Each token is the longest one that begins at its place (the Go specification, "Tokens"). Where
/// the last token of a line is an identifier, a literal, `break`, `continue`, `fallthrough`,
/// `return`, `++`, `--`, `)`, `]` or `}`, a semicolon follows it, with the empty span at its end
/// ("Semicolons"); the end of the text ends the last line, and so does a general comment that holds
/// the end of a line. A byte order mark at the start of the text is passed over. Offsets count the
/// bytes of the text from its start, the mark included.
///
/// # Errors
///
/// [`ScanError::Fault`] with the first fault from the left: within a string or a comment the
/// leftmost cause counts. [`ScanError::Memory`] where memory runs out.
pub fn scan(alloc: Global, text: &str) -> Result<Vec<Token>, ScanError>
    ensures answer { Scans text.now result }
    ensures value { Answers result (tokens_of text.now) }
    ensures spans { IfOk result (λ v. TokensInOrder 0 v.items (length text.now)) }
    ensures slices { IfOk result (λ v. All (HasItsText text.now) v.items) }
    ensures filled { IfOk result (λ v. All IsFilled v.items) }
{
    tokens_alone(alloc, text)
}

/// The comments of a text in their order, or its first fault from the left.
///
/// # Errors
///
/// [`ScanError::Fault`] with the fault that [`scan`] answers, and [`ScanError::Memory`] where memory
/// runs out.
pub fn comments(alloc: Global, text: &str) -> Result<Vec<Comment>, ScanError>
    ensures answer { FindsComments text.now result }
    ensures value { Answers result (comments_of text.now) }
    ensures spans { IfOk result (λ v. CommentsInOrder 0 v.items (length text.now)) }
    ensures slices { IfOk result (λ v. All (CommentHasItsText text.now) v.items) }
{
    comments_alone(alloc, text)
}
