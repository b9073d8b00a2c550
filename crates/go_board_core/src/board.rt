//! The published batches, as readers of the board see them.
ghost use Rattle.std.specs.Prelude.{◌≡◌, ◌-◌, IfOk, length, slice_get};
ghost use Rattle.std.specs.Option.{option_copied};
ghost use Rattle.go_submit_core.specs.Published.{AreSound};

use go_submit_core::{Batches, KeptBatch, PublishedBatch};
use left_right::Absorb;
use std::alloc::AllocError;
use std::marker::Model;

/// The published batches. Contracts see them as a list.
pub struct Board {
    batches: Batches,
}

impl Drop for Board {
    fn drop(self) {
        let Board { batches: _ } = self;
    }
}

impl Model for Board {
    ghost use Rattle.std.specs.Prelude.{List};
    ghost use Rattle.go_submit_core.specs.declared.published.PublishedBatch.{PublishedBatch};
    ghost use Rattle.go_submit_core.specs.Coding.{coded_batches};

    ghost Value = { List PublishedBatch };

    ghost coded = { coded_batches };

    ghost view = { λ b. b.batches };
}

impl Board {
    /// A board of these batches.
    pub fn of(batches: &Batches) -> Result<Board, AllocError>
        ensures { IfOk result (λ b. b ≡ batches.now) }
    {
        Ok(Board {
            batches: batches.share()?,
        })
    }

    /// The same board once more. It takes no memory.
    pub fn share(&self) -> Result<Board, AllocError>
        ensures { IfOk result (λ b. b ≡ self.now) }
    {
        Board::of(&self.batches)
    }

    pub fn len(&self) -> usize
        ensures { result ≡ length self.now }
    {
        self.batches.len()
    }

    /// The batch of a number, counted from 0.
    pub fn get(&self, number: usize) -> Option<&KeptBatch>
        ensures value { option_copied result ≡ slice_get self.now number }
        ensures sound { AreSound self.now }
    {
        self.batches.get(number)
    }

    /// The last batch, with its whole snapshot.
    pub fn last(&self) -> Option<&PublishedBatch>
        ensures value { option_copied result ≡ slice_get self.now (length self.now - 1) }
        ensures sound { AreSound self.now }
    {
        self.batches.last()
    }
}

impl Absorb<Board> for Board {
    type State = [PublishedBatch; 0];

    ghost state = { λ b. b };

    ghost applied = { λ _ next. next };

    fn absorb_first(&mut self, operation: &Board, _other: &Board) -> Result<(), AllocError> {
        *self = operation.share()?;
        Ok(())
    }

    fn absorb_second(&mut self, operation: Board, _other: &Board) -> Result<(), Board> {
        *self = operation;
        Ok(())
    }
}
