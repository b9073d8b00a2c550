//! Lines and columns.
ghost use Rattle.std.specs.Prelude.{◌≡◌, ◌≤◌, length, take};
ghost use Rattle.go_folder_core.specs.Places.{IsPosition};

use std::marker::Model;

/// A place of a text, as Go's tools count: lines and bytes in a line from 1.
#[derive(Clone, Copy, Debug, PartialEq, Eq)]
pub struct Position {
    /// The number of the line.
    pub line: usize,
    /// The number of the byte in the line.
    pub column: usize,
}

// The place behind some bytes of a text, where the first ones of them, so many, are counted already, and end at this place.
fn position_from(bytes: &[u8], counted: usize, at: Position) -> Position
    requires within { counted ≤ length bytes.now }
    requires counted { IsPosition (take counted bytes.now) at }
    ensures { IsPosition bytes.now result }
{
    let mut line = at.line;
    let mut column = at.column;
    let (_, rest) = bytes.split_at(counted);
    for byte in rest {
        if *byte == b'\n' {
            line += 1;
            column = 1;
        } else {
            column += 1;
        }
    }
    Position { line, column }
}

// The place of a text's first byte.
const START: Position = Position { line: 1, column: 1 };

/// The line and the column of an offset in bytes of a text; of an offset behind the text, those of its end.
pub fn position_of(text: &str, offset: usize) -> Position
    ensures { IsPosition (take offset text.now) result }
{
    let bytes = text.as_bytes();
    position_from(&bytes[..offset.min(bytes.len())], 0, START)
}

/// A text whose lines are counted from the front on: places that are asked for in order cost together no more than the text is long. Contracts see
/// the text.
pub struct LineCounter<'t> {
    text: &'t str,
    /// How many bytes are counted.
    counted: usize,
    /// The place behind them.
    at: Position,
}

impl<'t> Drop for LineCounter<'t> {
    fn drop(self) {
        let LineCounter {
            text: _,
            counted: _,
            at: _,
        } = self;
    }
}

impl<'t> Model for LineCounter<'t> {
    ghost use Rattle.std.specs.Prelude.{List, ℕ, ◌≤◌, length, take};
    ghost use Rattle.go_folder_core.specs.Places.{IsPosition};

    ghost Value = { List ℕ };

    ghost view = { λ c. c.text.now };

    ghost invariant = { λ c. (c.counted ≤ length c.text.now) × IsPosition (take c.counted c.text.now) c.at };
}

impl<'t> LineCounter<'t> {
    /// A text of which nothing is counted yet.
    pub fn new(text: &'t str) -> LineCounter<'t>
        ensures { result ≡ text.now }
    {
        LineCounter {
            text,
            counted: 0,
            at: START,
        }
    }

    /// The line and the column of an offset in bytes of the text; of an offset behind the text, those of its end. What is counted already is not
    /// counted again, unless the offset stands in front of what was asked for last.
    pub fn position_of(&mut self, offset: usize) -> Position
        ensures place { IsPosition (take offset self.old) result }
        ensures text { self.new ≡ self.old }
    {
        let bytes = self.text.as_bytes();
        let end = offset.min(bytes.len());
        let at = if end < self.counted {
            position_from(&bytes[..end], 0, START)
        } else {
            position_from(&bytes[..end], self.counted, self.at)
        };
        *self = LineCounter {
            text: self.text,
            counted: end,
            at,
        };
        at
    }
}
