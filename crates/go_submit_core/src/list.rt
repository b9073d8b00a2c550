//! Published batches, listed.
ghost use Rattle.std.specs.Prelude.{◌≡◌, [], ◌++◌, ◌∷◌, IfOk, length, slice_get};
ghost use Rattle.std.specs.Option.{option_copied};

use crate::kept::KeptBatch;
use crate::piece::{PIECE, Piece, SharedBatch, batch_at, shared_batches, shared_pieces};
use go_path_core::text_core::add;
use std::alloc::{AllocError, Global};
use std::marker::Model;
use std::sync::Arc;

/// Batches, in order, of which a longer list takes few words: what is full is shared, by pieces of 64, and so is the list of the pieces until one more
/// is full. Contracts see the list.
#[derive(Drop)]
pub(crate) struct BatchList {
    full: Arc<Vec<Piece>>,
    last: Vec<SharedBatch>,
    count: usize,
}

impl Model for BatchList {
    ghost use Rattle.std.specs.Prelude.{List};
    ghost use Rattle.std.specs.Arc.{arc_value};
    ghost use Rattle.go_submit_core.specs.declared.published.PublishedBatch.{PublishedBatch};
    ghost use Rattle.go_submit_core.specs.Coding.{coded_batches};
    ghost use Rattle.go_submit_core.specs.mirrors.Listing.{IsListed, listed};

    ghost Value = { List PublishedBatch };

    ghost coded = { coded_batches };

    ghost view = { λ l. listed (arc_value l.full).items l.last.items };

    ghost invariant = { λ l. IsListed (arc_value l.full).items l.last.items l.count };
}

// These batches and one more.
fn last_with(
    alloc: Global,
    batches: &[SharedBatch],
    batch: KeptBatch,
) -> Result<Vec<SharedBatch>, AllocError>
    ensures { IfOk result (λ last. last.items ≡ batches.now ++ batch ∷ []) }
{
    let mut last = shared_batches(alloc, batches)?;
    add(&mut last, SharedBatch::new(alloc, batch)?)?;
    Ok(last)
}

// These pieces and one more.
fn full_with(
    alloc: Global,
    pieces: &[Piece],
    batches: Vec<SharedBatch>,
) -> Result<Vec<Piece>, AllocError>
    ensures { IfOk result (λ full. full.items ≡ pieces.now ++ batches.items ∷ []) }
{
    let piece = Piece::new(alloc, batches)?;
    let mut full = shared_pieces(alloc, pieces)?;
    add(&mut full, piece)?;
    Ok(full)
}

impl BatchList {
    /// No batch.
    ///
    /// # Errors
    ///
    /// `AllocError` where memory is wanting.
    pub(crate) fn new(alloc: Global) -> Result<BatchList, AllocError>
        ensures { IfOk result (λ l. l ≡ []) }
    {
        let full = Arc::new(alloc, Vec::new(alloc))?;
        Ok(BatchList {
            full,
            last: Vec::new(alloc),
            count: 0,
        })
    }

    /// These batches, and one more. They are shared: it takes one pointer for each batch behind the full pieces, which are fewer than 64, and, each time
    /// that one more piece is full, one for each piece.
    ///
    /// # Errors
    ///
    /// `AllocError` where memory is wanting.
    pub(crate) fn with_one(&self, alloc: Global, batch: KeptBatch) -> Result<BatchList, AllocError>
        ensures { IfOk result (λ l. l ≡ self.now ++ batch ∷ []) }
    {
        let count = self.count.checked_add(1).ok_or(AllocError)?;
        let last = last_with(alloc, &self.last, batch)?;
        if last.len() < PIECE {
            let full = Arc::try_clone(&self.full)?;
            return Ok(BatchList { full, last, count });
        }
        let pieces = full_with(alloc, self.full.as_slice(), last)?;
        Ok(BatchList {
            full: Arc::new(alloc, pieces)?,
            last: Vec::new(alloc),
            count,
        })
    }

    /// How many batches there are.
    pub(crate) fn len(&self) -> usize
        ensures { result ≡ length self.now }
    {
        self.count
    }

    /// The batch at a place, where there is one.
    pub(crate) fn get(&self, place: usize) -> Option<&KeptBatch>
        ensures { option_copied result ≡ slice_get self.now place }
    {
        let number = place / PIECE;
        let full = self.full.as_slice();
        if place >= self.count {
            None
        } else if number < full.len() {
            batch_at(full[number].batches(), place % PIECE)
        } else {
            batch_at(&self.last, place % PIECE)
        }
    }
}
