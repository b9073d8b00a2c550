//! What packages tell, listed.
ghost use Rattle.std.specs.Prelude.{◌≡◌, [], ◌++◌, ◌∷◌, All, IfOk, OnErr, OnOk, length, slice_get};
ghost use Rattle.std.specs.Option.{option_map};
ghost use Rattle.go_summary_core.specs.Summaries.{IsOfOne};

use crate::piece::{Piece, shared_pieces, shared_summaries, summary_at};
use crate::summary::Summary;
use std::alloc::{AllocError, Global};
use std::marker::Model;

/// How many summaries each full piece has.
const PIECE: usize = 64;

/// What packages tell, in order: a list that grows at its end, and of which another handle takes few words, since what is full is shared, by
/// pieces of 64. Contracts see the list.
pub struct SummaryList {
    full: Vec<Piece>,
    last: Vec<Summary>,
    count: usize,
}

impl Drop for SummaryList {
    fn drop(self) {
        let SummaryList {
            full: _,
            last: _,
            count: _,
        } = self;
    }
}

impl Model for SummaryList {
    ghost use Rattle.std.specs.Prelude.{List};
    ghost use Rattle.std.specs.Coded.{coded_list};
    ghost use Rattle.go_summary_core.specs.Summaries.{SummaryModel};
    ghost use Rattle.go_summary_core.specs.codes.SummaryCodes.{coded_summary};
    ghost use Rattle.go_summary_core.specs.Told.{IsListed, listed};

    ghost Value = { List SummaryModel };

    ghost coded = { coded_list coded_summary };

    ghost view = { λ l. listed l.full.items l.last.items };

    ghost invariant = { λ l. IsListed l.full.items l.last.items l.count };
}

// One more at the end of a list, which is as it was where there is no room.
fn put<T: Drop>(all: &mut Vec<T>, last: T) -> Result<(), AllocError>
    ensures added { OnOk result (all.new.items ≡ all.old.items ++ last ∷ []) }
    ensures kept { OnErr result (all.new.items ≡ all.old.items) }
{
    all.push(last)?;
    Ok(())
}

// A piece of these summaries and one more.
fn piece_with(summaries: &Vec<Summary>, last: Summary) -> Result<Piece, AllocError>
    ensures { IfOk result (λ p. p ≡ summaries.now.items ++ last ∷ []) }
{
    let alloc = *summaries.allocator();
    let mut all = shared_summaries(alloc, summaries)?;
    put(&mut all, last)?;
    let piece = Piece::new(alloc, all)?;
    Ok(piece)
}

impl SummaryList {
    /// A list of nothing.
    pub fn new(alloc: Global) -> SummaryList
        ensures { result ≡ [] }
    {
        SummaryList {
            full: Vec::new(alloc),
            last: Vec::new(alloc),
            count: 0,
        }
    }

    /// How many summaries there are. All of each is of one package.
    pub fn len(&self) -> usize
        ensures value { result ≡ length self.now }
        ensures own { All IsOfOne self.now }
    {
        self.count
    }

    /// Adds a summary at the end.
    ///
    /// # Errors
    ///
    /// `AllocError` where memory is wanting; the list is as it was then.
    pub fn push(&mut self, summary: Summary) -> Result<(), AllocError>
        ensures added { OnOk result (self.new ≡ self.old ++ summary ∷ []) }
        ensures kept { OnErr result (self.new ≡ self.old) }
    {
        // All of a summary is of one package.
        let _path = summary.path();
        let count = self.count.checked_add(1).ok_or(AllocError)?;
        if self.last.len() + 1 < PIECE {
            put(&mut self.last, summary)?;
        } else {
            let piece = piece_with(&self.last, summary)?;
            put(&mut self.full, piece)?;
            self.last.clear();
        }
        self.count = count;
        Ok(())
    }

    /// The same list once more: handles of its full pieces, and of the summaries behind them, which are fewer than 64.
    ///
    /// # Errors
    ///
    /// `AllocError` where memory is wanting.
    pub fn share(&self, alloc: Global) -> Result<SummaryList, AllocError>
        ensures { IfOk result (λ l. l ≡ self.now) }
    {
        let full = shared_pieces(alloc, &self.full)?;
        let last = shared_summaries(alloc, &self.last)?;
        Ok(SummaryList {
            full,
            last,
            count: self.count,
        })
    }

    /// The summary at a place, where there is one.
    pub fn get(&self, place: usize) -> Option<&Summary>
        ensures { option_map (λ s. s.now) result ≡ slice_get self.now place }
    {
        let number = place / PIECE;
        if place >= self.count {
            None
        } else if number < self.full.len() {
            summary_at(self.full[number].summaries(), place % PIECE)
        } else {
            summary_at(&self.last, place % PIECE)
        }
    }
}
