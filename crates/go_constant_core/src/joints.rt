//! Texts that are joined by their blocks.
ghost use Rattle.std.specs.Prelude.{◌≡◌, ◌++◌, IfOk, OnOk};
ghost use Rattle.std.specs.List.{concat};

use crate::pieces::{Block, Piece, add_blocks, shared_pieces};
use go_token_core::text_core::add;
use std::alloc::{AllocError, Global};

/// How many bytes a piece has at most that is made of two.
pub(crate) const PIECE: usize = 4096;

/// How many pieces a block has at most that is made of two.
const BLOCK: usize = 64;

/// Adds pieces at the end of blocks: one block of all, or two where these are too many for one.
fn add_pieces(
    alloc: Global,
    blocks: &mut Vec<Block>,
    front: Vec<Piece>,
    back: &[Piece],
) -> Result<(), AllocError>
    ensures { OnOk result (concat blocks.new.items ≡ concat blocks.old.items ++ (concat front.items ++ concat back.now)) }
{
    let mut front = front;
    if front.len() + back.len() <= BLOCK {
        for piece in back {
            add(&mut front, piece.share()?)?;
        }
        return add(blocks, Block::new(alloc, front)?);
    }
    add(blocks, Block::new(alloc, front)?)?;
    add(blocks, Block::new(alloc, shared_pieces(alloc, back)?)?)
}

/// Adds the pieces of two blocks at the end of others. Where the two pieces that meet are short, they become one.
fn add_joint(
    alloc: Global,
    blocks: &mut Vec<Block>,
    a: &[Piece],
    b: &[Piece],
) -> Result<(), AllocError>
    ensures { OnOk result (concat blocks.new.items ≡ concat blocks.old.items ++ (concat a.now ++ concat b.now)) }
{
    if let Some((last, front)) = a.split_last() {
        if let Some((first, back)) = b.split_first() {
            if last.bytes().len() + first.bytes().len() <= PIECE {
                let mut pieces = shared_pieces(alloc, front)?;
                add(&mut pieces, Piece::joined(alloc, last, first)?)?;
                return add_pieces(alloc, blocks, pieces, back);
            }
        }
    }
    let pieces = shared_pieces(alloc, a)?;
    add_pieces(alloc, blocks, pieces, b)
}

/// The blocks of two texts one behind the other, of which the two that meet may become one.
fn met(
    alloc: Global,
    front: &[Block],
    last: &Block,
    first: &Block,
    back: &[Block],
) -> Result<Vec<Block>, AllocError>
    ensures { IfOk result (λ blocks. concat blocks.items ≡ (concat front.now ++ last.now) ++ (first.now ++ concat back.now)) }
{
    let mut blocks = Vec::with_capacity(alloc, front.len() + 1)?;
    add_blocks(&mut blocks, front)?;
    add_joint(alloc, &mut blocks, last.pieces(), first.pieces())?;
    add_blocks(&mut blocks, back)?;
    Ok(blocks)
}

/// The blocks of two texts one behind the other.
fn apart(alloc: Global, a: &[Block], b: &[Block]) -> Result<Vec<Block>, AllocError>
    ensures { IfOk result (λ blocks. blocks.items ≡ a.now ++ b.now) }
{
    let mut blocks = Vec::new(alloc);
    add_blocks(&mut blocks, a)?;
    add_blocks(&mut blocks, b)?;
    Ok(blocks)
}

/// The blocks of one text, and then those of another; the two that meet may become one.
///
/// # Errors
///
/// `AllocError` where memory is wanting.
pub(crate) fn joined_blocks(
    alloc: Global,
    a: &[Block],
    b: &[Block],
) -> Result<Vec<Block>, AllocError>
    ensures { IfOk result (λ blocks. concat blocks.items ≡ concat a.now ++ concat b.now) }
{
    match a.split_last() {
        None => apart(alloc, a, b),
        Some((last, front)) => match b.split_first() {
            None => apart(alloc, a, b),
            Some((first, back)) => met(alloc, front, last, first, back),
        },
    }
}
