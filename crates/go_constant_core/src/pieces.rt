//! Pieces of texts, and blocks of pieces.
ghost use Rattle.std.specs.Prelude.{◌≡◌, ◌++◌, IfOk, OnOk};
ghost use Rattle.std.specs.List.{concat};

use go_token_core::text_core::add;
use std::alloc::{AllocError, Global};
use std::marker::Model;
use std::sync::Arc;

/// Bytes of a text, shared by all texts that have them. Contracts see the bytes.
pub(crate) struct Piece {
    bytes: Arc<Vec<u8>>,
}

impl Drop for Piece {
    fn drop(self) {
        let Piece { bytes: _ } = self;
    }
}

impl Model for Piece {
    ghost use Rattle.std.specs.Prelude.{List, ℕ};
    ghost use Rattle.std.specs.Arc.{arc_value};

    ghost Value = { List ℕ };

    ghost view = { λ p. (arc_value p.bytes).items };
}

impl Piece {
    /// A piece of these bytes, which are not copied.
    ///
    /// # Errors
    ///
    /// `AllocError` where memory is wanting.
    pub(crate) fn new(alloc: Global, bytes: Vec<u8>) -> Result<Piece, AllocError>
        ensures { IfOk result (λ piece. piece ≡ bytes.items) }
    {
        Ok(Piece {
            bytes: Arc::new(alloc, bytes)?,
        })
    }

    /// The bytes of one piece, and then those of another, which are copied.
    ///
    /// # Errors
    ///
    /// `AllocError` where memory is wanting.
    pub(crate) fn joined(alloc: Global, a: &Piece, b: &Piece) -> Result<Piece, AllocError>
        ensures { IfOk result (λ piece. piece ≡ a.now ++ b.now) }
    {
        let mut bytes = Vec::with_capacity(alloc, a.bytes().len() + b.bytes().len())?;
        bytes.extend_from_slice(a.bytes())?;
        bytes.extend_from_slice(b.bytes())?;
        Piece::new(alloc, bytes)
    }

    /// The same piece once more. It takes no memory.
    ///
    /// # Errors
    ///
    /// `AllocError` where it has too many owners.
    pub(crate) fn share(&self) -> Result<Piece, AllocError>
        ensures { IfOk result (λ piece. piece ≡ self.now) }
    {
        Ok(Piece {
            bytes: Arc::try_clone(&self.bytes)?,
        })
    }

    /// The bytes.
    pub(crate) fn bytes(&self) -> &[u8]
        ensures { result.now ≡ self.now }
    {
        self.bytes.as_slice()
    }
}

/// Pieces once more, each a handle.
///
/// # Errors
///
/// `AllocError` where memory is wanting.
pub(crate) fn shared_pieces(alloc: Global, pieces: &[Piece]) -> Result<Vec<Piece>, AllocError>
    ensures { IfOk result (λ shared. shared.items ≡ pieces.now) }
{
    let mut shared = Vec::with_capacity(alloc, pieces.len())?;
    for piece in pieces {
        add(&mut shared, piece.share()?)?;
    }
    Ok(shared)
}

/// Pieces of a text, shared by all texts that have them. Contracts see the bytes.
pub(crate) struct Block {
    pieces: Arc<Vec<Piece>>,
}

impl Drop for Block {
    fn drop(self) {
        let Block { pieces: _ } = self;
    }
}

impl Model for Block {
    ghost use Rattle.std.specs.Prelude.{List, ℕ};
    ghost use Rattle.std.specs.Arc.{arc_value};
    ghost use Rattle.std.specs.List.{concat};

    ghost Value = { List ℕ };

    ghost view = { λ b. concat (arc_value b.pieces).items };
}

impl Block {
    /// A block of these pieces.
    ///
    /// # Errors
    ///
    /// `AllocError` where memory is wanting.
    pub(crate) fn new(alloc: Global, pieces: Vec<Piece>) -> Result<Block, AllocError>
        ensures { IfOk result (λ block. block ≡ concat pieces.items) }
    {
        Ok(Block {
            pieces: Arc::new(alloc, pieces)?,
        })
    }

    /// A block of one piece.
    ///
    /// # Errors
    ///
    /// `AllocError` where memory is wanting.
    pub(crate) fn of_one(alloc: Global, piece: &Piece) -> Result<Block, AllocError>
        ensures { IfOk result (λ block. block ≡ piece.now) }
    {
        let mut pieces = Vec::with_capacity(alloc, 1)?;
        add(&mut pieces, piece.share()?)?;
        Block::new(alloc, pieces)
    }

    /// The same block once more. It takes no memory.
    ///
    /// # Errors
    ///
    /// `AllocError` where it has too many owners.
    pub(crate) fn share(&self) -> Result<Block, AllocError>
        ensures { IfOk result (λ block. block ≡ self.now) }
    {
        Ok(Block {
            pieces: Arc::try_clone(&self.pieces)?,
        })
    }

    /// The pieces.
    pub(crate) fn pieces(&self) -> &[Piece]
        ensures { concat result.now ≡ self.now }
    {
        self.pieces.as_slice()
    }
}

/// Adds blocks at the end of others, each a handle.
///
/// # Errors
///
/// `AllocError` where memory is wanting.
pub(crate) fn add_blocks(blocks: &mut Vec<Block>, more: &[Block]) -> Result<(), AllocError>
    ensures { OnOk result (blocks.new.items ≡ blocks.old.items ++ more.now) }
{
    for block in more {
        add(blocks, block.share()?)?;
    }
    Ok(())
}
