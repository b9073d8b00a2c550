//! Where the lines of a text start.
ghost use Rattle.std.specs.Prelude.{◌≡◌, ℕ, ◌+◌, ◌<◌, ◌≤◌, ◌^◌, IfOk, nat_le, count_by, length, slice_index};
ghost use Rattle.std.specs.List.Sorted.{IsNonDecreasingBy};
ghost use Rattle.go_lsp_core.specs.positions.Positions.{offset_at, position_at, units};
ghost use Rattle.go_lsp_core.specs.positions.mirrors.Starts.{start_at, starts_from};
ghost use Rattle.go_lsp_core.specs.positions.mirrors.Walks.{total};

use crate::positions::offsets::{ends_line, position_in, reach};
use crate::positions::place::{Encoding, Position};
use std::alloc::{AllocError, Global};

// Where the lines after the first one start.
pub(crate) fn starts_in(alloc: Global, bytes: &[u8]) -> Result<Vec<usize>, AllocError>
    ensures { IfOk result (λ v. v.items ≡ starts_from 0 bytes.now) }
{
    let mut starts = Vec::new(alloc);
    for at in 0..bytes.len() {
        if ends_line(bytes, at) {
            starts.push(at + 1)?;
        }
    }
    Ok(starts)
}

// How many of the lines after the first one start at this offset or before it.
fn line_of(starts: &[usize], offset: usize) -> usize
    requires { IsNonDecreasingBy (λ s. s) starts.now }
    ensures bound { result ≤ length starts.now }
    ensures count { result ≡ count_by (λ s. nat_le s offset) starts.now }
    ensures before { (i : ℕ) → i < result → slice_index starts.now i ≤ offset }
{
    starts.partition_point(
        |start: &usize| -> bool
            ensures { result ≡ nat_le start.now offset }
        { *start <= offset },
    )
}

// Where a line starts.
fn start_of(starts: &[usize], line: usize) -> usize
    requires { line ≤ length starts.now }
    ensures { result ≡ start_at starts.now line }
{
    if line == 0 { 0 } else { starts[line - 1] }
}

// The position of an offset.
pub(crate) fn position_by(
    encoding: Encoding,
    bytes: &[u8],
    starts: &[usize],
    offset: usize,
) -> Position
    requires fits { total (units encoding) bytes.now < 2 ^ 64 }
    requires starts { starts.now ≡ starts_from 0 bytes.now }
    ensures { result ≡ position_at (units encoding) bytes.now offset }
{
    let line = line_of(starts, offset);
    let start = start_of(starts, line);
    let (_, rest) = bytes.split_at(start);
    let within = position_in(encoding, rest, offset - start);
    Position {
        line,
        character: within.character,
    }
}

// The offset of a position.
pub(crate) fn offset_by(
    encoding: Encoding,
    bytes: &[u8],
    starts: &[usize],
    position: Position,
) -> usize
    requires { starts.now ≡ starts_from 0 bytes.now }
    ensures { result ≡ offset_at (units encoding) bytes.now position.line position.character }
{
    if position.line > starts.len() {
        return bytes.len();
    }
    let start = start_of(starts, position.line);
    let (_, rest) = bytes.split_at(start);
    start + reach(encoding, rest, position.character)
}
