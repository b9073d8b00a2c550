//! Letters, digits and names of Go, the spans of a text and the numbers of the rules. Beside them stands what every
//! layer uses: lists that grow, and boxes.
//!
//! The Go specification, "Letters and digits", "Exported identifiers" and "Uniqueness of identifiers".
#![tactic(auto)]

mod name;
mod room;
mod rule;
mod span;

ghost use Rattle.std.specs.Prelude.{◌≡◌, ◌↔◌, IsTrue};
ghost use Rattle.std.specs.Str.{chars};
ghost use Rattle.go_text_core.specs.Text.{letter, digit, uppercase, exported, is_blank, SameId};

pub use name::Name;
pub use room::{add, boxed, fitted};
pub use rule::Rule;
pub use span::Span;
use unicode::properties::{GeneralCategory, GeneralCategoryGroup};

/// Whether a character is a letter: `_` or of the categories Lu, Ll, Lt, Lm, Lo.
#[tactic(auto, using(crate::proofs::Ascii::ascii_letter), unfolding(crate::specs::Text::letter))]
pub fn is_letter(c: char) -> bool
    ensures { result ≡ letter c }
{
    if c.is_ascii() {
        return c.is_ascii_alphabetic() || c == '_';
    }
    GeneralCategoryGroup::Letter.contains(GeneralCategory::for_char(c))
}

/// Whether a character is a digit of identifiers: of the category Nd.
#[tactic(auto, using(crate::proofs::Ascii::ascii_digit), unfolding(crate::specs::Text::digit))]
pub fn is_digit(c: char) -> bool
    ensures { result ≡ digit c }
{
    if c.is_ascii() {
        return c.is_ascii_digit();
    }
    GeneralCategory::for_char(c) == GeneralCategory::DecimalNumber
}

#[tactic(auto, using(crate::proofs::Ascii::ascii_uppercase), unfolding(crate::specs::Text::uppercase))]
fn is_uppercase(c: char) -> bool
    ensures { result ≡ uppercase c }
{
    if c.is_ascii() {
        return c.is_ascii_uppercase();
    }
    GeneralCategory::for_char(c) == GeneralCategory::UppercaseLetter
}

/// Whether a name is the blank identifier.
pub fn is_blank(name: &str) -> bool
    ensures { result ≡ is_blank name.now }
{
    name == "_"
}

/// Whether a name is exported: its first character is of the category Lu.
pub fn is_exported(name: &str) -> bool
    ensures { result ≡ exported (chars name.now) }
{
    match name.chars().next() {
        Some(c) => is_uppercase(c),
        None => false,
    }
}

/// Whether two identifiers, each with the package where it was written, are the same.
pub fn same_id(a: &str, a_pkg: &str, b: &str, b_pkg: &str) -> bool
    ensures { IsTrue result ↔ SameId a.now a_pkg.now b.now b_pkg.now }
{
    a == b && (is_exported(a) || a_pkg == b_pkg)
}
