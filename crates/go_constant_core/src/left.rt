//! What is left of texts while they are compared.
ghost use Rattle.std.specs.Prelude.{◌≡◌, ◌<◌, ◌++◌, [], length, MatchOption};
ghost use Rattle.std.specs.List.{concat};
ghost use Rattle.std.specs.Ordering.{nat_cmp};
ghost use Rattle.std.specs.Cmp.Lexicographic.{slice_cmp};
ghost use Rattle.go_constant_core.specs.Texts.{IsFilled, bytes_left, pieces_left};

use crate::pieces::{Block, Piece};
use std::cmp::Ordering;

/// What is left of a text: bytes, the pieces behind them, and the blocks behind these.
#[derive(Clone, Copy)]
pub(crate) struct Left<'a> {
    pub(crate) bytes: &'a [u8],
    pub(crate) pieces: &'a [Piece],
    pub(crate) blocks: &'a [Block],
}

/// What is left from the first byte of pieces on; none where they have no byte.
#[tactic(auto, using(crate::proofs::Joined::found_here))]
fn in_pieces<'a>(pieces: &'a [Piece], blocks: &'a [Block]) -> Option<Left<'a>>
    ensures { MatchOption result (concat pieces.now ≡ []) (λ left. (bytes_left left ≡ concat pieces.now ++ concat blocks.now) × (0 < length left.bytes.now)) }
{
    let mut rest = pieces;
    'turns: while let Some((piece, more)) = rest.split_first() {
        let bytes = piece.bytes();
        if !bytes.is_empty() {
            return Some(Left {
                bytes,
                pieces: more,
                blocks,
            });
        }
        rest = more;
    }
    None
}

/// What is left from the first byte of blocks on; none where they have no byte.
fn in_blocks<'a>(blocks: &'a [Block]) -> Option<Left<'a>>
    ensures { MatchOption result (concat blocks.now ≡ []) (λ left. (bytes_left left ≡ concat blocks.now) × (0 < length left.bytes.now)) }
{
    let mut rest = blocks;
    'turns: while let Some((block, more)) = rest.split_first() {
        if let Some(left) = in_pieces(block.pieces(), more) {
            return Some(left);
        }
        rest = more;
    }
    None
}

impl<'a> Left<'a> {
    /// The same bytes, of which some stand in front where there are any.
    fn filled(self) -> Left<'a>
        ensures same { bytes_left result ≡ bytes_left self.entry }
        ensures filled { IsFilled result }
    {
        if !self.bytes.is_empty() {
            return self;
        }
        if let Some(left) = in_pieces(self.pieces, self.blocks) {
            return left;
        }
        if let Some(left) = in_blocks(self.blocks) {
            return left;
        }
        Left {
            bytes: self.bytes,
            pieces: &[],
            blocks: &[],
        }
    }

    /// These bytes, and what is left behind the bytes in front.
    fn behind(self, bytes: &'a [u8]) -> Left<'a>
        ensures same { bytes_left result ≡ bytes.now ++ pieces_left self.entry }
        ensures filled { IsFilled result }
    {
        let left = Left {
            bytes,
            pieces: self.pieces,
            blocks: self.blocks,
        };
        left.filled()
    }
}

/// How two texts stand to one another, by bytes. It takes no memory.
pub(crate) fn compared(a: Left<'_>, b: Left<'_>) -> Ordering
    ensures { result ≡ slice_cmp nat_cmp (bytes_left a.entry) (bytes_left b.entry) }
{
    let mut x = a.filled();
    let mut y = b.filled();
    'turns: loop {
        let many = x.bytes.len().min(y.bytes.len());
        if many == 0 {
            return x.bytes.cmp(y.bytes);
        }
        let one = x.bytes.split_at(many);
        let other = y.bytes.split_at(many);
        match one.0.cmp(other.0) {
            Ordering::Less => return Ordering::Less,
            Ordering::Greater => return Ordering::Greater,
            Ordering::Equal => {}
        }
        x = x.behind(one.1);
        y = y.behind(other.1);
    }
}
