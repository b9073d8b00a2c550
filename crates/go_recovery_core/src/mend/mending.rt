//! One change of a text.
ghost use Rattle.std.specs.Prelude.{◌≡◌, IfOk, string_bytes};
ghost use Rattle.go_recovery_core.specs.mend.Mended.{is_cut, mark_text, mended_text, spliced};
ghost use Rattle.go_tree_nodes.specs.text_core.Boundaries.{is_boundary_of};

use std::alloc::{AllocError, Global};

/// A mark that is put in.
#[derive(Clone, Copy, Debug, PartialEq, Eq)]
pub enum Mark {
    /// `(`
    OpenParen,
    /// `)`
    CloseParen,
    /// `{`
    OpenBrace,
    /// `}`
    CloseBrace,
    /// `,`
    Comma,
    /// `=`, in front of another one
    Equal,
}

impl Mark {
    /// The mark as it is written.
    pub fn text(self) -> &'static str
        ensures { result.now ≡ mark_text self }
    {
        match self {
            Mark::OpenParen => "(",
            Mark::CloseParen => ")",
            Mark::OpenBrace => "{",
            Mark::CloseBrace => "}",
            Mark::Comma => ",",
            Mark::Equal => "=",
        }
    }
}

/// One change of a text. Offsets are in bytes of the text, from its start.
#[derive(Clone, Copy, Debug, PartialEq, Eq)]
pub enum Mending {
    /// A mark is put in at an offset.
    PutIn {
        /// The mark.
        token: Mark,
        /// The offset of the byte in front of which it is put.
        at: usize,
    },
    /// The bytes from one offset up to another are taken away.
    TakeAway {
        /// The offset of the first byte that is taken away.
        from: usize,
        /// The offset after the last one.
        to: usize,
    },
}

/// Whether an offset lies between two characters of a text, or at one of its ends.
pub(crate) fn is_boundary(text: &str, offset: usize) -> bool
    ensures { result ≡ is_boundary_of text.now offset }
{
    text.is_char_boundary(offset)
}

/// Whether two offsets are in order and lie between characters of a text.
pub(crate) fn is_cut(text: &str, from: usize, to: usize) -> bool
    ensures { result ≡ is_cut text.now from to }
{
    from <= to && is_boundary(text, from) && is_boundary(text, to)
}

// A text with another one in the place of the bytes between two offsets.
fn spliced(
    alloc: Global,
    text: &str,
    from: usize,
    to: usize,
    new: &str,
) -> Result<String, AllocError>
    ensures { IfOk result (λ s. string_bytes s ≡ spliced text.now from to new.now) }
{
    if !is_cut(text, from, to) {
        return String::from_str(alloc, text);
    }
    let mut all = String::from_str(alloc, &text[..from])?;
    all.push_str(new)?;
    all.push_str(&text[to..])?;
    Ok(all)
}

/// The text with a change. A change at an offset that is none of the text, or lies within a character, leaves the text as it is.
///
/// # Errors
///
/// `AllocError` where memory runs out.
pub fn mended(alloc: Global, text: &str, mending: &Mending) -> Result<String, AllocError>
    ensures { IfOk result (λ s. string_bytes s ≡ mended_text text.now mending.now) }
{
    match *mending {
        Mending::PutIn { token, at } => spliced(alloc, text, at, at, token.text()),
        Mending::TakeAway { from, to } => spliced(alloc, text, from, to, ""),
    }
}
