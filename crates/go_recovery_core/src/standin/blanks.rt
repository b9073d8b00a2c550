//! Blanks in the place of parts of a text.
ghost use Rattle.std.specs.Prelude.{◌≡◌, ◌∷◌, [], IfOk};
ghost use Rattle.go_recovery_core.specs.standin.Blanks.{all_blanked, blank};

use crate::standin::part::Interval;
use std::alloc::{AllocError, Global};

// A space, or the end of a line as it is.
fn blank(byte: u8) -> u8
    ensures { result ≡ blank byte }
{
    if byte == b'\n' || byte == b'\r' {
        byte
    } else {
        b' '
    }
}

// Blanks a part.
fn blank_part(bytes: &mut [u8], part: Interval)
    ensures { bytes.new ≡ all_blanked (part ∷ []) bytes.old }
{
    for at in part.start..part.end.min(bytes.len()) {
        bytes[at] = blank(bytes[at]);
    }
}

// Blanks parts, one after the other.
fn blank_parts(bytes: &mut [u8], parts: &[Interval])
    ensures { bytes.new ≡ all_blanked parts.now bytes.old }
{
    for part in parts {
        blank_part(bytes, *part);
    }
}

/// A text with blanks in the place of parts of it. It takes time in what the text and the parts have together.
pub(crate) fn all_blanked(
    alloc: Global,
    text: &[u8],
    parts: &[Interval],
) -> Result<Vec<u8>, AllocError>
    ensures { IfOk result (λ v. v.items ≡ all_blanked parts.now text.now) }
{
    let mut bytes = Vec::from_slice(alloc, text)?;
    blank_parts(bytes.as_mut_slice(), parts);
    Ok(bytes)
}
