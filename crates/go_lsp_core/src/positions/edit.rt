//! Edits of a text.
ghost use Rattle.std.specs.Prelude.{◌≡◌, ◌++◌, IfOk, IsCharBoundary, drop, string_bytes, take};
ghost use Rattle.go_lsp_core.specs.positions.Edits.{applied};

use crate::positions::offsets::offset_of;
use crate::positions::place::{Encoding, Range};
use std::alloc::{AllocError, Global};

// A text with another one in the place of a part of it.
fn spliced(
    alloc: Global,
    text: &str,
    from: usize,
    to: usize,
    new: &str,
) -> Result<String, AllocError>
    requires from { IsCharBoundary text.now from }
    requires to { IsCharBoundary text.now to }
    ensures { IfOk result (λ s. string_bytes s ≡ take from text.now ++ (new.now ++ drop to text.now)) }
{
    let mut all = String::from_str(alloc, &text[..from])?;
    all.push_str(new)?;
    all.push_str(&text[to..])?;
    Ok(all)
}

/// The text after an edit: `new` stands in the place of the range, or of the whole text where there is no range. The positions of the range are those of the
/// text before the edit, each with the offset that [`offset_of`] gives it. A range whose end stands before its start is taken the other way round.
///
/// # Errors
///
/// `AllocError` where memory runs out.
pub fn apply(
    alloc: Global,
    text: &str,
    encoding: Encoding,
    range: Option<Range>,
    new: &str,
) -> Result<String, AllocError>
    ensures { IfOk result (λ s. string_bytes s ≡ applied encoding text.now range new.now) }
{
    let Some(range) = range else {
        return String::from_str(alloc, new);
    };
    let start = offset_of(text, encoding, range.start);
    let end = offset_of(text, encoding, range.end);
    spliced(alloc, text, start.min(end), start.max(end), new)
}
