//! A piece of a text.
ghost use Rattle.std.specs.Prelude.{◌≡◌, ◌↔◌, IsTrue};
ghost use Rattle.std.specs.Str.{IsCharBoundary};
ghost use Rattle.std.specs.Option.{option_map};
ghost use Rattle.go_text_core.specs.Boundaries.{is_boundary_of};

/// The bytes of a text from `start` up to `end`. Offsets have 32 bits, since trees keep many spans: a text that is
/// scanned has less than 2^32 bytes.
#[derive(Clone, Copy, Debug, PartialEq, Eq)]
pub struct Span {
    /// The offset in bytes of the first byte.
    pub start: u32,
    /// The offset in bytes behind the last byte.
    pub end: u32,
}

fn is_boundary(text: &str, offset: usize) -> bool
    ensures { result ≡ is_boundary_of text.now offset }
{
    text.is_char_boundary(offset)
}

impl Span {
    ghost use Rattle.go_text_core.specs.Slices.{slice_of};

    /// The piece of a text that the span covers, or none where that is no piece of it:
    /// where the span ends before its start or behind the text, or cuts a character.
    pub fn slice(self, text: &str) -> Option<&str>
        ensures { option_map (λ s. s.now) result ≡ slice_of text.now self }
    {
        let (start, end) = (self.start as usize, self.end as usize);
        if start <= end && is_boundary(text, start) && is_boundary(text, end) {
            return Some(&text[start..end]);
        }
        None
    }
}
