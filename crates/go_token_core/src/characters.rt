//! The characters of texts.
ghost use Rattle.std.specs.Prelude.{◌≡◌, IfOk, length};
ghost use Rattle.std.specs.Char.{len_utf8};
ghost use Rattle.std.specs.List.{sum_by};
ghost use Rattle.std.specs.Str.{chars};

use std::alloc::{AllocError, Global};

/// The characters of a text. In UTF-8 they take as many bytes as the text has.
///
/// The Go specification, "Source code representation".
///
/// # Errors
///
/// [`AllocError`] where memory runs out.
pub fn characters_of(alloc: Global, text: &str) -> Result<Vec<char>, AllocError>
    ensures items { IfOk result (λ v. v.items ≡ chars text.now) }
    ensures size { sum_by len_utf8 (chars text.now) ≡ length text.now }
{
    text.chars().collect(alloc)
}
