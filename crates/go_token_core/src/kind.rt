//! The kinds of tokens, and how keywords and operators are spelled.
ghost use Rattle.std.specs.Prelude.{◌≡◌};
ghost use Rattle.go_token_core.specs.Spelling.{keyword_spelling, operator_spelling};

/// A keyword: a word that is no identifier.
///
/// The Go specification, "Keywords".
#[derive(Clone, Copy, Debug, PartialEq, Eq)]
pub enum Keyword {
    /// `break`
    Break,
    /// `case`
    Case,
    /// `chan`
    Chan,
    /// `const`
    Const,
    /// `continue`
    Continue,
    /// `default`
    Default,
    /// `defer`
    Defer,
    /// `else`
    Else,
    /// `fallthrough`
    Fallthrough,
    /// `for`
    For,
    /// `func`
    Func,
    /// `go`
    Go,
    /// `goto`
    Goto,
    /// `if`
    If,
    /// `import`
    Import,
    /// `interface`
    Interface,
    /// `map`
    Map,
    /// `package`
    Package,
    /// `range`
    Range,
    /// `return`
    Return,
    /// `select`
    Select,
    /// `struct`
    Struct,
    /// `switch`
    Switch,
    /// `type`
    Type,
    /// `var`
    Var,
}

/// An operator or a punctuation mark.
///
/// The Go specification, "Operators and punctuation".
#[derive(Clone, Copy, Debug, PartialEq, Eq)]
pub enum Operator {
    /// `<<=`
    ShiftLeftAssign,
    /// `>>=`
    ShiftRightAssign,
    /// `&^=`
    AndNotAssign,
    /// `...`
    Ellipsis,
    /// `<<`
    ShiftLeft,
    /// `>>`
    ShiftRight,
    /// `&^`
    AndNot,
    /// `+=`
    PlusAssign,
    /// `-=`
    MinusAssign,
    /// `*=`
    StarAssign,
    /// `/=`
    SlashAssign,
    /// `%=`
    PercentAssign,
    /// `&=`
    AndAssign,
    /// `|=`
    OrAssign,
    /// `^=`
    CaretAssign,
    /// `&&`
    LogicalAnd,
    /// `||`
    LogicalOr,
    /// `<-`
    Arrow,
    /// `++`
    Increment,
    /// `--`
    Decrement,
    /// `==`
    Equal,
    /// `!=`
    NotEqual,
    /// `<=`
    LessEqual,
    /// `>=`
    GreaterEqual,
    /// `:=`
    Define,
    /// `+`
    Plus,
    /// `-`
    Minus,
    /// `*`
    Star,
    /// `/`
    Slash,
    /// `%`
    Percent,
    /// `&`
    And,
    /// `|`
    Or,
    /// `^`
    Caret,
    /// `<`
    Less,
    /// `>`
    Greater,
    /// `=`
    Assign,
    /// `!`
    Not,
    /// `~`
    Tilde,
    /// `(`
    OpenParen,
    /// `[`
    OpenBracket,
    /// `{`
    OpenBrace,
    /// `,`
    Comma,
    /// `.`
    Dot,
    /// `)`
    CloseParen,
    /// `]`
    CloseBracket,
    /// `}`
    CloseBrace,
    /// `;`
    Semicolon,
    /// `:`
    Colon,
}

/// What a token is.
///
/// The Go specification, "Tokens".
#[derive(Clone, Copy, Debug, PartialEq, Eq)]
pub enum TokenKind {
    /// A letter with the letters and digits behind it, spelled as no keyword. The Go specification,
    /// "Identifiers".
    Identifier,
    /// An integer literal, up to 2^63 - 1. The Go specification, "Integer literals".
    Integer,
    /// A string literal, interpreted or raw. The Go specification, "String literals".
    String,
    /// A keyword.
    Keyword(Keyword),
    /// An operator or a punctuation mark, or the semicolon of the end of a line.
    Operator(Operator),
}

/// What a comment is.
///
/// The Go specification, "Comments".
#[derive(Clone, Copy, Debug, PartialEq, Eq)]
pub enum CommentKind {
    /// From `//` up to the end of the line, without it.
    Line,
    /// From `/*` to `*/`.
    General,
}

/// All keywords, in alphabetical order.
pub const KEYWORDS: [Keyword; 25] = [
    Keyword::Break,
    Keyword::Case,
    Keyword::Chan,
    Keyword::Const,
    Keyword::Continue,
    Keyword::Default,
    Keyword::Defer,
    Keyword::Else,
    Keyword::Fallthrough,
    Keyword::For,
    Keyword::Func,
    Keyword::Go,
    Keyword::Goto,
    Keyword::If,
    Keyword::Import,
    Keyword::Interface,
    Keyword::Map,
    Keyword::Package,
    Keyword::Range,
    Keyword::Return,
    Keyword::Select,
    Keyword::Struct,
    Keyword::Switch,
    Keyword::Type,
    Keyword::Var,
];

/// All operators and punctuation marks, longer ones first.
pub const OPERATORS: [Operator; 48] = [
    Operator::ShiftLeftAssign,
    Operator::ShiftRightAssign,
    Operator::AndNotAssign,
    Operator::Ellipsis,
    Operator::ShiftLeft,
    Operator::ShiftRight,
    Operator::AndNot,
    Operator::PlusAssign,
    Operator::MinusAssign,
    Operator::StarAssign,
    Operator::SlashAssign,
    Operator::PercentAssign,
    Operator::AndAssign,
    Operator::OrAssign,
    Operator::CaretAssign,
    Operator::LogicalAnd,
    Operator::LogicalOr,
    Operator::Arrow,
    Operator::Increment,
    Operator::Decrement,
    Operator::Equal,
    Operator::NotEqual,
    Operator::LessEqual,
    Operator::GreaterEqual,
    Operator::Define,
    Operator::Plus,
    Operator::Minus,
    Operator::Star,
    Operator::Slash,
    Operator::Percent,
    Operator::And,
    Operator::Or,
    Operator::Caret,
    Operator::Less,
    Operator::Greater,
    Operator::Assign,
    Operator::Not,
    Operator::Tilde,
    Operator::OpenParen,
    Operator::OpenBracket,
    Operator::OpenBrace,
    Operator::Comma,
    Operator::Dot,
    Operator::CloseParen,
    Operator::CloseBracket,
    Operator::CloseBrace,
    Operator::Semicolon,
    Operator::Colon,
];

// The spellings in the order of the keywords.
const KEYWORD_SPELLINGS: [&[char]; 25] = [
    &['b', 'r', 'e', 'a', 'k'],
    &['c', 'a', 's', 'e'],
    &['c', 'h', 'a', 'n'],
    &['c', 'o', 'n', 's', 't'],
    &['c', 'o', 'n', 't', 'i', 'n', 'u', 'e'],
    &['d', 'e', 'f', 'a', 'u', 'l', 't'],
    &['d', 'e', 'f', 'e', 'r'],
    &['e', 'l', 's', 'e'],
    &['f', 'a', 'l', 'l', 't', 'h', 'r', 'o', 'u', 'g', 'h'],
    &['f', 'o', 'r'],
    &['f', 'u', 'n', 'c'],
    &['g', 'o'],
    &['g', 'o', 't', 'o'],
    &['i', 'f'],
    &['i', 'm', 'p', 'o', 'r', 't'],
    &['i', 'n', 't', 'e', 'r', 'f', 'a', 'c', 'e'],
    &['m', 'a', 'p'],
    &['p', 'a', 'c', 'k', 'a', 'g', 'e'],
    &['r', 'a', 'n', 'g', 'e'],
    &['r', 'e', 't', 'u', 'r', 'n'],
    &['s', 'e', 'l', 'e', 'c', 't'],
    &['s', 't', 'r', 'u', 'c', 't'],
    &['s', 'w', 'i', 't', 'c', 'h'],
    &['t', 'y', 'p', 'e'],
    &['v', 'a', 'r'],
];

impl Keyword {
    /// The characters of the keyword.
    #[tactic(auto, unfolding(crate::specs::Spelling::keyword_spelling))]
    pub fn spelling(self) -> &'static [char]
        ensures { result.now ≡ keyword_spelling self }
    {
        KEYWORD_SPELLINGS[self as usize]
    }
}

// The spellings in the order of the operators.
const OPERATOR_SPELLINGS: [&[char]; 48] = [
    &['<', '<', '='],
    &['>', '>', '='],
    &['&', '^', '='],
    &['.', '.', '.'],
    &['<', '<'],
    &['>', '>'],
    &['&', '^'],
    &['+', '='],
    &['-', '='],
    &['*', '='],
    &['/', '='],
    &['%', '='],
    &['&', '='],
    &['|', '='],
    &['^', '='],
    &['&', '&'],
    &['|', '|'],
    &['<', '-'],
    &['+', '+'],
    &['-', '-'],
    &['=', '='],
    &['!', '='],
    &['<', '='],
    &['>', '='],
    &[':', '='],
    &['+'],
    &['-'],
    &['*'],
    &['/'],
    &['%'],
    &['&'],
    &['|'],
    &['^'],
    &['<'],
    &['>'],
    &['='],
    &['!'],
    &['~'],
    &['('],
    &['['],
    &['{'],
    &[','],
    &['.'],
    &[')'],
    &[']'],
    &['}'],
    &[';'],
    &[':'],
];

impl Operator {
    /// The characters of the operator or punctuation mark.
    #[tactic(auto, unfolding(crate::specs::Spelling::operator_spelling))]
    pub fn spelling(self) -> &'static [char]
        ensures { result.now ≡ operator_spelling self }
    {
        OPERATOR_SPELLINGS[self as usize]
    }
}
