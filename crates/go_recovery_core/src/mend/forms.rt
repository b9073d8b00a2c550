//! The forms of Go that the grammar of govisd lacks, by the tokens around the place where a text stops being one of it.
ghost use Rattle.std.specs.Prelude.{◌≡◌};
ghost use Rattle.go_recovery_core.specs.mend.Forms.{bare_form, bracket_form, form_words, func_form, is_alias, is_embedded, is_header, is_mark, is_name, is_repeated, is_start, is_word, keyword_form, late_form, mark_form, met_form, name_form, paren_form, set_form, sure_form};

use crate::mend::around::Around;
use go_tree_nodes::token_core::{Keyword, Operator, TokenKind};

/// A form of Go that the grammar of govisd lacks.
#[derive(Clone, Copy, Debug, PartialEq, Eq)]
pub enum FormOfGo {
    /// `[` where no type parameters may stand.
    Slices,
    /// `~` or `|` between the methods of an interface.
    TypeSets,
    /// `[` behind the name of a function or a type.
    TypeParameters,
    /// `switch`
    Switch,
    /// `select`
    Select,
    /// `defer`
    Defer,
    /// `go`
    Go,
    /// `goto`
    Goto,
    /// `fallthrough`
    Fallthrough,
    /// `map`
    Map,
    /// `chan` or `<-`
    Channel,
    /// `range`
    Range,
    /// `...`
    Variadic,
    /// `func` where a type or an expression stands.
    FunctionValue,
    /// `.(`
    TypeAssertion,
    /// An alias of anything but the name of a type.
    Alias,
    /// The name of a type between the methods of an interface.
    EmbeddedInterface,
    /// A constant in parentheses with no expression of its own.
    RepeatedConstants,
    /// A function's header with no body behind it.
    FunctionWithoutBody,
    /// `type` within a function.
    LocalType,
    /// A name and `:` before a statement.
    Label,
    /// A label behind `break` or `continue`.
    LabelledJump,
}

// The words in the order of the forms.
const WORDS: [&str; 22] = [
    "slices, arrays and indexing",
    "type sets in interfaces",
    "type parameters",
    "switch statements",
    "select statements",
    "defer statements",
    "go statements",
    "goto statements",
    "fallthrough statements",
    "maps",
    "channels",
    "range clauses",
    "variadic parameters",
    "functions as values",
    "type assertions and type switches",
    "aliases of anything but the name of a type",
    "interfaces embedded in interfaces",
    "constants without an expression of their own",
    "functions without a body",
    "types declared in functions",
    "labels",
    "labels behind break and continue",
];

impl FormOfGo {
    /// What the form is called, in the plural: `slices, arrays and indexing`.
    #[tactic(auto, unfolding(crate::specs::mend::Forms::form_words))]
    pub fn words(self) -> &'static str
        ensures { result.now ≡ form_words self }
    {
        WORDS[self as usize]
    }
}

pub(crate) fn is_name(kind: Option<TokenKind>) -> bool
    ensures { result ≡ is_name kind }
{
    matches!(kind, Some(TokenKind::Identifier))
}

pub(crate) fn is_mark(kind: Option<TokenKind>, mark: Operator) -> bool
    ensures { result ≡ is_mark kind mark }
{
    match kind {
        Some(TokenKind::Operator(found)) => found == mark,
        _ => false,
    }
}

pub(crate) fn is_word(kind: Option<TokenKind>, word: Keyword) -> bool
    ensures { result ≡ is_word kind word }
{
    match kind {
        Some(TokenKind::Keyword(found)) => found == word,
        _ => false,
    }
}

// Whether an alias goes on at the place, behind its `=`.
fn is_alias(around: &Around) -> bool
    ensures { result ≡ is_alias around.now }
{
    is_mark(around.before, Operator::Assign)
        && is_name(around.second)
        && (is_word(around.third, Keyword::Type) || is_word(around.opener, Keyword::Type))
}

// `[`
fn bracket_form(around: &Around) -> FormOfGo
    ensures { result ≡ bracket_form around.now }
{
    if is_word(around.opener, Keyword::Interface) {
        return FormOfGo::TypeSets;
    }
    if is_name(around.before)
        && (is_word(around.second, Keyword::Func) || is_word(around.second, Keyword::Type))
    {
        return FormOfGo::TypeParameters;
    }
    FormOfGo::Slices
}

// Whether an interface's name ends at the place among the methods of another one.
fn is_embedded(around: &Around) -> bool
    ensures { result ≡ is_embedded around.now }
{
    is_word(around.opener, Keyword::Interface)
        && (is_mark(around.met, Operator::Dot)
            || is_name(around.before)
                && (is_mark(around.met, Operator::Semicolon)
                    || is_mark(around.met, Operator::CloseBrace)))
}

// Whether a constant's name ends at the place, in parentheses, with nothing behind it.
fn is_repeated(around: &Around) -> bool
    ensures { result ≡ is_repeated around.now }
{
    is_word(around.opener, Keyword::Const)
        && is_name(around.before)
        && (is_mark(around.met, Operator::Semicolon) || is_mark(around.met, Operator::CloseParen))
}

// A name that stands alone in an interface or among constants.
fn bare_form(around: &Around) -> Option<FormOfGo>
    ensures { result ≡ bare_form around.now }
{
    if is_embedded(around) {
        return Some(FormOfGo::EmbeddedInterface);
    }
    if is_repeated(around) {
        return Some(FormOfGo::RepeatedConstants);
    }
    None
}

// `(`
fn paren_form(before: Option<TokenKind>) -> Option<FormOfGo>
    ensures { result ≡ paren_form before }
{
    if is_mark(before, Operator::Dot) {
        return Some(FormOfGo::TypeAssertion);
    }
    None
}

// `~` or `|`
fn set_form(opener: Option<TokenKind>) -> Option<FormOfGo>
    ensures { result ≡ set_form opener }
{
    if is_word(opener, Keyword::Interface) {
        return Some(FormOfGo::TypeSets);
    }
    None
}

fn mark_form(mark: Operator, around: &Around) -> Option<FormOfGo>
    ensures { result ≡ mark_form mark around.now }
{
    match mark {
        Operator::OpenBracket => Some(bracket_form(around)),
        Operator::Arrow => Some(FormOfGo::Channel),
        Operator::Ellipsis => Some(FormOfGo::Variadic),
        Operator::OpenParen => paren_form(around.before),
        Operator::Tilde => set_form(around.opener),
        Operator::Or => set_form(around.opener),
        _ => bare_form(around),
    }
}

// Whether a declaration or a statement may begin behind this token.
pub(crate) fn is_start(before: Option<TokenKind>) -> bool
    ensures { result ≡ is_start before }
{
    before.is_none()
        || is_mark(before, Operator::Semicolon)
        || is_mark(before, Operator::OpenBrace)
        || is_mark(before, Operator::CloseBrace)
}

// `func`
fn func_form(before: Option<TokenKind>) -> Option<FormOfGo>
    ensures { result ≡ func_form before }
{
    if is_start(before) {
        return None;
    }
    Some(FormOfGo::FunctionValue)
}

fn keyword_form(word: Keyword, before: Option<TokenKind>) -> Option<FormOfGo>
    ensures { result ≡ keyword_form word before }
{
    match word {
        Keyword::Switch => Some(FormOfGo::Switch),
        Keyword::Select => Some(FormOfGo::Select),
        Keyword::Defer => Some(FormOfGo::Defer),
        Keyword::Go => Some(FormOfGo::Go),
        Keyword::Goto => Some(FormOfGo::Goto),
        Keyword::Fallthrough => Some(FormOfGo::Fallthrough),
        Keyword::Map => Some(FormOfGo::Map),
        Keyword::Chan => Some(FormOfGo::Channel),
        Keyword::Range => Some(FormOfGo::Range),
        Keyword::Func => func_form(before),
        _ => None,
    }
}

// A name behind `break` or `continue`.
fn name_form(before: Option<TokenKind>) -> Option<FormOfGo>
    ensures { result ≡ name_form before }
{
    if is_word(before, Keyword::Break) || is_word(before, Keyword::Continue) {
        return Some(FormOfGo::LabelledJump);
    }
    None
}

// The form that the token at the place begins.
fn met_form(around: &Around) -> Option<FormOfGo>
    ensures { result ≡ met_form around.now }
{
    match around.met {
        Some(TokenKind::Keyword(word)) => keyword_form(word, around.before),
        Some(TokenKind::Operator(mark)) => mark_form(mark, around),
        Some(TokenKind::Identifier) => name_form(around.before),
        _ => None,
    }
}

/// The form of Go that is told whatever change would give the text a tree, by the tokens around.
pub(crate) fn sure_form(around: &Around) -> Option<FormOfGo>
    ensures { result ≡ sure_form around.now }
{
    if let Some(form) = met_form(around) {
        return Some(form);
    }
    if is_alias(around) {
        return Some(FormOfGo::Alias);
    }
    None
}

// Whether a function's header ends at the place with no body behind it.
fn is_header(around: &Around) -> bool
    ensures { result ≡ is_header around.now }
{
    is_mark(around.met, Operator::Semicolon)
        && !around.is_open
        && is_word(around.first, Keyword::Func)
        && !is_mark(around.after, Operator::OpenBrace)
}

/// The form of Go that is told only where no change gives the text a tree, by the tokens around.
pub(crate) fn late_form(around: &Around) -> Option<FormOfGo>
    ensures { result ≡ late_form around.now }
{
    if is_word(around.met, Keyword::Type) && around.is_open {
        return Some(FormOfGo::LocalType);
    }
    if is_mark(around.met, Operator::Colon) && is_name(around.before) {
        return Some(FormOfGo::Label);
    }
    if is_header(around) {
        return Some(FormOfGo::FunctionWithoutBody);
    }
    None
}
