//! Pieces of a list of batches.
ghost use Rattle.std.specs.Prelude.{◌≡◌, IfOk, slice_get};
ghost use Rattle.std.specs.Option.{option_copied};

use crate::kept::KeptBatch;
use go_path_core::text_core::add;
use std::alloc::{AllocError, Global};
use std::marker::Model;
use std::sync::Arc;

/// How many batches a full piece has.
pub(crate) const PIECE: usize = 64;

/// A batch. A handle over one shared pointer; contracts see the batch.
#[derive(Drop)]
pub(crate) struct SharedBatch {
    batch: Arc<KeptBatch>,
}

impl Model for SharedBatch {
    ghost use Rattle.std.specs.Arc.{arc_value};
    ghost use Rattle.go_submit_core.specs.declared.published.PublishedBatch.{PublishedBatch};
    ghost use Rattle.go_submit_core.specs.Coding.{coded_batch};

    ghost Value = { PublishedBatch };

    ghost coded = { coded_batch };

    ghost view = { λ b. arc_value b.batch };
}

/// Batches, in order. A handle over one shared pointer; contracts see the batches.
#[derive(Drop)]
pub(crate) struct Piece {
    batches: Arc<Vec<SharedBatch>>,
}

impl Model for Piece {
    ghost use Rattle.std.specs.Prelude.{List};
    ghost use Rattle.std.specs.Arc.{arc_value};
    ghost use Rattle.go_submit_core.specs.declared.published.PublishedBatch.{PublishedBatch};
    ghost use Rattle.go_submit_core.specs.Coding.{coded_batches};

    ghost Value = { List PublishedBatch };

    ghost coded = { coded_batches };

    ghost view = { λ p. (arc_value p.batches).items };
}

impl SharedBatch {
    /// A batch, to be shared.
    ///
    /// # Errors
    ///
    /// `AllocError` where memory is wanting.
    pub(crate) fn new(alloc: Global, batch: KeptBatch) -> Result<SharedBatch, AllocError>
        ensures { IfOk result (λ b. b ≡ batch) }
    {
        Ok(SharedBatch {
            batch: Arc::new(alloc, batch)?,
        })
    }

    /// The same batch once more. It takes no memory.
    ///
    /// # Errors
    ///
    /// `AllocError` where it has too many owners.
    pub(crate) fn share(&self) -> Result<SharedBatch, AllocError>
        ensures { IfOk result (λ b. b ≡ self.now) }
    {
        Ok(SharedBatch {
            batch: Arc::try_clone(&self.batch)?,
        })
    }

    /// The batch.
    pub(crate) fn batch(&self) -> &KeptBatch
        ensures { result.now ≡ self.now }
    {
        &self.batch
    }
}

impl Piece {
    /// A piece of these batches.
    ///
    /// # Errors
    ///
    /// `AllocError` where memory is wanting.
    pub(crate) fn new(alloc: Global, batches: Vec<SharedBatch>) -> Result<Piece, AllocError>
        ensures { IfOk result (λ p. p ≡ batches.items) }
    {
        Ok(Piece {
            batches: Arc::new(alloc, batches)?,
        })
    }

    /// The same piece once more. It takes no memory.
    ///
    /// # Errors
    ///
    /// `AllocError` where it has too many owners.
    pub(crate) fn share(&self) -> Result<Piece, AllocError>
        ensures { IfOk result (λ p. p ≡ self.now) }
    {
        Ok(Piece {
            batches: Arc::try_clone(&self.batches)?,
        })
    }

    /// The batches.
    pub(crate) fn batches(&self) -> &[SharedBatch]
        ensures { result.now ≡ self.now }
    {
        self.batches.as_slice()
    }
}

/// Pieces once more, each a handle.
///
/// # Errors
///
/// `AllocError` where memory is wanting.
pub(crate) fn shared_pieces(alloc: Global, pieces: &[Piece]) -> Result<Vec<Piece>, AllocError>
    ensures { IfOk result (λ shared. shared.items ≡ pieces.now) }
{
    let mut shared = Vec::with_capacity(alloc, pieces.len().saturating_add(1))?;
    for piece in pieces {
        add(&mut shared, piece.share()?)?;
    }
    Ok(shared)
}

/// Batches once more, each a handle, with room for a piece of them.
///
/// # Errors
///
/// `AllocError` where memory is wanting.
pub(crate) fn shared_batches(
    alloc: Global,
    batches: &[SharedBatch],
) -> Result<Vec<SharedBatch>, AllocError>
    ensures { IfOk result (λ shared. shared.items ≡ batches.now) }
{
    let mut shared = Vec::with_capacity(alloc, PIECE)?;
    for batch in batches {
        add(&mut shared, batch.share()?)?;
    }
    Ok(shared)
}

/// The batch at a place, where there is one.
pub(crate) fn batch_at(batches: &[SharedBatch], place: usize) -> Option<&KeptBatch>
    ensures { option_copied result ≡ slice_get batches.now place }
{
    match batches.get(place) {
        Some(handle) => Some(handle.batch()),
        None => None,
    }
}
