//! What the front of a text reads as: a piece and its characters, or a fault.
ghost use Rattle.std.specs.Prelude.{◌≡◌, ◌≤◌, nat_eq, find, length};
ghost use Rattle.std.specs.List.{prefix_len, starts_with};
ghost use Rattle.std.specs.Str.{bytes_eq};
ghost use Rattle.go_token_core.specs.Characters.{continues, first_passes, in_line, letter_or_digit};
ghost use Rattle.go_scan_core.specs.Enclosed.{opening};
ghost use Rattle.go_scan_core.specs.mirrors.Enclosed.{enclosed_at};
ghost use Rattle.go_scan_core.specs.mirrors.Reading.{keyword_spelled, integer_at, operator_at, longest_operator, piece_at, piece_from, identifier_at};
ghost use Rattle.go_token_core.specs.Spelling.{keyword_spelling, operator_spelling};

use crate::candidates::{keywords_with, operators_with};
use crate::enclosed::{Enclosure, enclosed_len};
use crate::front::{Front, front_at};
use crate::number::number_width;
use crate::piece::Piece;
use go_token_core::text_core::{Rule, is_digit, is_letter};
use go_token_core::{CommentKind, Keyword, Operator, TokenKind, literal_value};

/// Whether an identifier may have the character behind its first.
fn is_letter_or_digit(c: char) -> bool
    ensures { result ≡ letter_or_digit c }
{
    is_letter(c) || is_digit(c)
}

/// How many letters and digits stand at the front.
fn word_len(text: &[char]) -> usize
    ensures { result ≡ prefix_len letter_or_digit text.now }
{
    text.iter().take_while(|c| is_letter_or_digit(**c)).count()
}

/// The one of the keywords that is spelled so, if there is one.
fn keyword_among(keywords: &[Keyword], word: &[char]) -> Option<Keyword>
    ensures { result ≡ find (λ k. bytes_eq word.now (keyword_spelling k)) keywords.now }
{
    keywords.iter().copied().find(|k| word == k.spelling())
}

/// The keyword that is spelled so, if there is one.
fn keyword(word: &[char]) -> Option<Keyword>
    ensures { result ≡ keyword_spelled word.now }
{
    match word {
        [first, ..] => keyword_among(keywords_with(*first), word),
        [] => None,
    }
}

/// Whether the operator stands at the front.
fn begins(text: &[char], operator: Operator) -> bool
    ensures { result ≡ starts_with nat_eq text.now (operator_spelling operator) }
{
    text.starts_with(operator.spelling())
}

/// The first of the operators that stands at the front, if there is one.
fn operator_among(operators: &[Operator], text: &[char]) -> Option<Operator>
    ensures { result ≡ find (λ o. starts_with nat_eq text.now (operator_spelling o)) operators.now }
{
    operators.iter().copied().find(|o| begins(text, *o))
}

/// The longest operator at the front, if there is one.
fn operator(text: &[char]) -> Option<Operator>
    ensures { result ≡ longest_operator text.now }
{
    match text {
        [first, ..] => operator_among(operators_with(*first), text),
        [] => None,
    }
}

/// The identifier or keyword at the front, where a letter is first.
#[tactic(auto, unfolding(crate::specs::mirrors::Reading::identifier_at))]
fn word(text: &[char]) -> (Piece, usize)
    ensures { result ≡ identifier_at text.now }
{
    let len = word_len(text);
    let kind = match keyword(&text[..len]) {
        Some(k) => TokenKind::Keyword(k),
        None => TokenKind::Identifier,
    };
    (Piece::Lexeme(kind), len)
}

/// Whether the first character may not stand behind a number.
fn may_not_follow(text: &[char]) -> bool
    ensures { result ≡ first_passes continues text.now }
{
    match text {
        [c, ..] => is_letter_or_digit(*c) || *c == '.',
        [] => false,
    }
}

/// The integer literal at the front, where a digit is first.
#[tactic(auto, unfolding(crate::specs::mirrors::Reading::integer_at))]
fn number(text: &[char]) -> Result<(Piece, usize), (Rule, usize)>
    ensures { result ≡ integer_at text.now }
{
    let len = number_width(text);
    let (digits, rest) = text.split_at(len);
    if may_not_follow(rest) || literal_value(digits).is_none() {
        return Err((Rule::L3, 0));
    }
    Ok((Piece::Lexeme(TokenKind::Integer), len))
}

/// The string or general comment at the front, as this piece.
fn enclosed(
    enclosure: Enclosure,
    piece: Piece,
    text: &[char],
) -> Result<(Piece, usize), (Rule, usize)>
    requires { length (opening enclosure) ≤ length text.now }
    ensures { result ≡ piece_from piece (enclosed_at enclosure text.now) }
{
    let len = enclosed_len(enclosure, text)?;
    Ok((piece, len))
}

/// How many characters of the line stand at the front.
fn line_len(text: &[char]) -> usize
    ensures { result ≡ prefix_len in_line text.now }
{
    text.iter()
        .take_while(|c| !matches!(**c, '\n' | '\0' | '\u{feff}'))
        .count()
}

/// The operator or punctuation mark at the front.
#[tactic(auto, unfolding(crate::specs::mirrors::Reading::operator_at))]
fn mark(text: &[char]) -> Result<(Piece, usize), (Rule, usize)>
    ensures { result ≡ operator_at text.now }
{
    match operator(text) {
        Some(o) => Ok((Piece::Lexeme(TokenKind::Operator(o)), o.spelling().len())),
        None => Err((Rule::L1, 0)),
    }
}

/// The piece at the front and its number of characters, or the rule that the front breaks and the
/// number of characters before the place of the fault.
#[tactic(auto, unfolding(crate::specs::mirrors::Reading::piece_at))]
pub fn front_piece(text: &[char]) -> Result<(Piece, usize), (Rule, usize)>
    ensures { result ≡ piece_at text.now }
{
    let string = Piece::Lexeme(TokenKind::String);
    match front_at(text) {
        Front::Nothing => Err((Rule::L1, 0)),
        Front::Space => Ok((Piece::Space, 1)),
        Front::LineEnd => Ok((Piece::LineEnd, 1)),
        Front::Quote => enclosed(Enclosure::Quoted, string, text),
        Front::Backquote => enclosed(Enclosure::Raw, string, text),
        Front::LineComment => Ok((Piece::Remark(CommentKind::Line), line_len(text))),
        Front::GeneralComment => {
            enclosed(
                Enclosure::General,
                Piece::Remark(CommentKind::General),
                text,
            )
        }
        Front::Refused => Err((Rule::L3, 0)),
        Front::Letter => Ok(word(text)),
        Front::Digit => number(text),
        Front::Other => mark(text),
    }
}
