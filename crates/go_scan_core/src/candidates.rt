//! Keywords and operators by their first characters.
ghost use Rattle.std.specs.Prelude.{◌≡◌};
ghost use Rattle.go_scan_core.specs.mirrors.Candidates.{keywords_with, operators_with};

use go_token_core::{Keyword, Operator};

/// The keywords that begin with the character.
#[tactic(auto, unfolding(crate::specs::mirrors::Candidates::keywords_with))]
pub fn keywords_with(first: char) -> &'static [Keyword]
    ensures { result.now ≡ keywords_with first }
{
    match first {
        'b' => &[Keyword::Break],
        'c' => &[
            Keyword::Case,
            Keyword::Chan,
            Keyword::Const,
            Keyword::Continue,
        ],
        'd' => &[Keyword::Default, Keyword::Defer],
        'e' => &[Keyword::Else],
        'f' => &[Keyword::Fallthrough, Keyword::For, Keyword::Func],
        'g' => &[Keyword::Go, Keyword::Goto],
        'i' => &[Keyword::If, Keyword::Import, Keyword::Interface],
        'm' => &[Keyword::Map],
        'p' => &[Keyword::Package],
        'r' => &[Keyword::Range, Keyword::Return],
        's' => &[Keyword::Select, Keyword::Struct, Keyword::Switch],
        't' => &[Keyword::Type],
        'v' => &[Keyword::Var],
        _ => &[],
    }
}

/// The operators and punctuation marks that begin with the character, longer ones first.
#[tactic(auto, unfolding(crate::specs::mirrors::Candidates::operators_with))]
pub fn operators_with(first: char) -> &'static [Operator]
    ensures { result.now ≡ operators_with first }
{
    match first {
        '<' => &[
            Operator::ShiftLeftAssign,
            Operator::ShiftLeft,
            Operator::Arrow,
            Operator::LessEqual,
            Operator::Less,
        ],
        '>' => &[
            Operator::ShiftRightAssign,
            Operator::ShiftRight,
            Operator::GreaterEqual,
            Operator::Greater,
        ],
        '&' => &[
            Operator::AndNotAssign,
            Operator::AndNot,
            Operator::AndAssign,
            Operator::LogicalAnd,
            Operator::And,
        ],
        '.' => &[Operator::Ellipsis, Operator::Dot],
        '+' => &[Operator::PlusAssign, Operator::Increment, Operator::Plus],
        '-' => &[Operator::MinusAssign, Operator::Decrement, Operator::Minus],
        '*' => &[Operator::StarAssign, Operator::Star],
        '/' => &[Operator::SlashAssign, Operator::Slash],
        '%' => &[Operator::PercentAssign, Operator::Percent],
        '|' => &[Operator::OrAssign, Operator::LogicalOr, Operator::Or],
        '^' => &[Operator::CaretAssign, Operator::Caret],
        '=' => &[Operator::Equal, Operator::Assign],
        '!' => &[Operator::NotEqual, Operator::Not],
        ':' => &[Operator::Define, Operator::Colon],
        '~' => &[Operator::Tilde],
        '(' => &[Operator::OpenParen],
        '[' => &[Operator::OpenBracket],
        '{' => &[Operator::OpenBrace],
        ',' => &[Operator::Comma],
        ')' => &[Operator::CloseParen],
        ']' => &[Operator::CloseBracket],
        '}' => &[Operator::CloseBrace],
        ';' => &[Operator::Semicolon],
        _ => &[],
    }
}
