//! Pieces of a list of summaries.
ghost use Rattle.std.specs.Prelude.{◌≡◌, IfOk, slice_get};
ghost use Rattle.std.specs.Option.{option_map};

use crate::summary::Summary;
use go_term_core::text_core::add;
use std::alloc::{AllocError, Global};
use std::marker::Model;
use std::sync::Arc;

/// Summaries, in order. A handle over one shared pointer; contracts see the summaries.
#[derive(Drop)]
pub(crate) struct Piece {
    summaries: Arc<Vec<Summary>>,
}

impl Model for Piece {
    ghost use Rattle.std.specs.Prelude.{List};
    ghost use Rattle.std.specs.Arc.{arc_value};
    ghost use Rattle.std.specs.Coded.{coded_list};
    ghost use Rattle.go_summary_core.specs.Summaries.{SummaryModel};
    ghost use Rattle.go_summary_core.specs.codes.SummaryCodes.{coded_summary};

    ghost Value = { List SummaryModel };

    ghost coded = { coded_list coded_summary };

    ghost view = { λ p. (arc_value p.summaries).items };
}

impl Piece {
    /// A piece of these summaries.
    ///
    /// # Errors
    ///
    /// `AllocError` where memory is wanting.
    pub(crate) fn new(alloc: Global, summaries: Vec<Summary>) -> Result<Piece, AllocError>
        ensures { IfOk result (λ p. p ≡ summaries.items) }
    {
        Ok(Piece {
            summaries: Arc::new(alloc, summaries)?,
        })
    }

    /// The same piece once more. It takes no memory.
    ///
    /// # Errors
    ///
    /// `AllocError` where it has too many owners.
    pub(crate) fn share(&self) -> Result<Piece, AllocError>
        ensures { IfOk result (λ p. p ≡ self.now) }
    {
        Ok(Piece {
            summaries: Arc::try_clone(&self.summaries)?,
        })
    }

    /// The summaries.
    pub(crate) fn summaries(&self) -> &[Summary]
        ensures { result.now ≡ self.now }
    {
        self.summaries.as_slice()
    }
}

/// Pieces once more, each a handle.
///
/// # Errors
///
/// `AllocError` where memory is wanting.
pub(crate) fn shared_pieces(alloc: Global, pieces: &[Piece]) -> Result<Vec<Piece>, AllocError>
    ensures { IfOk result (λ shared. shared.items ≡ pieces.now) }
{
    let mut shared = Vec::with_capacity(alloc, pieces.len())?;
    for piece in pieces {
        add(&mut shared, piece.share()?)?;
    }
    Ok(shared)
}

/// Summaries once more, each a handle.
///
/// # Errors
///
/// `AllocError` where memory is wanting.
pub(crate) fn shared_summaries(
    alloc: Global,
    summaries: &[Summary],
) -> Result<Vec<Summary>, AllocError>
    ensures { IfOk result (λ shared. shared.items ≡ summaries.now) }
{
    let mut shared = Vec::with_capacity(alloc, summaries.len())?;
    for summary in summaries {
        add(&mut shared, summary.share()?)?;
    }
    Ok(shared)
}

/// The summary at a place, where there is one.
pub(crate) fn summary_at(summaries: &[Summary], place: usize) -> Option<&Summary>
    ensures { option_map (λ s. s.now) result ≡ slice_get summaries.now place }
{
    summaries.get(place)
}
