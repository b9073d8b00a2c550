//! A text with a table of its lines.
ghost use Rattle.std.specs.Prelude.{◌≡◌, IfOk, IsCharBoundary};
ghost use Rattle.go_lsp_core.specs.positions.Positions.{offset_at, position_at, units};

use crate::positions::place::{Encoding, Position, Range};
use crate::positions::starts::{offset_by, position_by, starts_in};
use std::alloc::{AllocError, Global};
use std::marker::Model;

/// A text with a table of where its lines start. To make one takes one walk over the text; then each position takes a search by halves in the table and a walk
/// over one line. Contracts see it as the text.
pub struct Lines<'t> {
    text: &'t str,
    starts: Vec<usize>,
}

impl<'t> Drop for Lines<'t> {
    fn drop(self) {
        let Lines { text: _, starts: _ } = self;
    }
}

impl<'t> Model for Lines<'t> {
    ghost use Rattle.std.specs.Prelude.{List, ℕ, ◌≡◌};
    ghost use Rattle.go_lsp_core.specs.positions.mirrors.Starts.{starts_from};

    ghost Value = { List ℕ };

    ghost view = { λ t. t.text.now };

    ghost invariant = { λ t. t.starts.items ≡ starts_from 0 t.text.now };
}

impl<'t> Lines<'t> {
    /// Finds where the lines of a text start.
    ///
    /// # Errors
    ///
    /// `AllocError` where memory runs out.
    pub fn new(alloc: Global, text: &'t str) -> Result<Lines<'t>, AllocError>
        ensures { IfOk result (λ t. t ≡ text.now) }
    {
        let starts = starts_in(alloc, text.as_bytes())?;
        Ok(Lines { text, starts })
    }

    /// The text.
    pub fn text(&self) -> &'t str
        ensures { result.now ≡ self.now }
    {
        self.text
    }

    /// The position of an offset, as [`position_of`](crate::positions::position_of) answers it.
    pub fn position_of(&self, encoding: Encoding, offset: usize) -> Position
        ensures { result ≡ position_at (units encoding) self.now offset }
    {
        position_by(
            encoding,
            self.text.as_bytes(),
            self.starts.as_slice(),
            offset,
        )
    }

    /// The offset of a position, as [`offset_of`](crate::positions::offset_of) answers it.
    pub fn offset_of(&self, encoding: Encoding, position: Position) -> usize
        ensures offset { result ≡ offset_at (units encoding) self.now position.line position.character }
        ensures boundary { IsCharBoundary self.now result }
    {
        offset_by(
            encoding,
            self.text.as_bytes(),
            self.starts.as_slice(),
            position,
        )
    }

    /// The part of the text between two offsets.
    pub fn range_of(&self, encoding: Encoding, start: usize, end: usize) -> Range
        ensures start { result.start ≡ position_at (units encoding) self.now start }
        ensures end { result.end ≡ position_at (units encoding) self.now end }
    {
        Range {
            start: self.position_of(encoding, start),
            end: self.position_of(encoding, end),
        }
    }
}
