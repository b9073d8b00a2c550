//! Published batches as they are listed.
ghost use Rattle.std.specs.Prelude.{◌≡◌, IfOk};
ghost use Rattle.std.specs.Option.{option_copied};
ghost use Rattle.go_submit_core.specs.Published.{LeavesWhere};

use crate::history::KeptSnapshot;
use crate::published::PublishedBatch;
use crate::submission::Submissions;
use go_snap_core::Snapshot;
use std::alloc::{AllocError, Global};
use std::marker::Model;

/// A batch that was published, as it is listed: its snapshot shares with the one of the batch before what is the same there. Contracts see the published
/// batch.
pub struct KeptBatch {
    submissions: Submissions,
    snapshot: KeptSnapshot,
}

impl Drop for KeptBatch {
    fn drop(self) {
        let KeptBatch {
            submissions: _,
            snapshot: _,
        } = self;
    }
}

impl Model for KeptBatch {
    ghost use Rattle.go_submit_core.specs.declared.published.PublishedBatch.{PublishedBatch};
    ghost use Rattle.go_submit_core.specs.Coding.{coded_batch};
    ghost use Rattle.go_submit_core.specs.Published.{batch_of};

    ghost Value = { PublishedBatch };

    ghost coded = { coded_batch };

    ghost view = { λ b. batch_of b.submissions b.snapshot };
}

// A snapshot as it is kept behind a batch, if there is one.
fn snapshot_behind(
    alloc: Global,
    earlier: Option<&KeptBatch>,
    snapshot: &Snapshot,
    same: &[bool],
) -> Result<KeptSnapshot, AllocError>
    requires { LeavesWhere (option_copied earlier) snapshot.now same.now }
    ensures { IfOk result (λ kept. kept ≡ snapshot.now) }
{
    match earlier {
        Some(batch) => KeptSnapshot::over(alloc, batch.snapshot(), snapshot, same),
        None => KeptSnapshot::of(alloc, snapshot),
    }
}

impl KeptBatch {
    /// A batch as it is listed behind an earlier one, if there is one. The marks say, by the numbers of packages, which of them are as they are there: where
    /// all of a piece are marked, it is shared.
    ///
    /// # Errors
    ///
    /// `AllocError` where memory is wanting.
    pub(crate) fn behind(
        alloc: Global,
        earlier: Option<&KeptBatch>,
        batch: &PublishedBatch,
        same: &[bool],
    ) -> Result<KeptBatch, AllocError>
        requires { LeavesWhere (option_copied earlier) batch.now.snapshot same.now }
        ensures { IfOk result (λ kept. kept ≡ batch.now) }
    {
        let snapshot = snapshot_behind(alloc, earlier, batch.snapshot.get(), same)?;
        let submissions = batch.submissions.share()?;
        Ok(KeptBatch {
            submissions,
            snapshot,
        })
    }

    /// What was submitted, in order.
    pub fn submissions(&self) -> &Submissions
        ensures { result.now ≡ self.now.submissions }
    {
        &self.submissions
    }

    /// The snapshot of all that was published up to the batch.
    pub fn snapshot(&self) -> &KeptSnapshot
        ensures { result.now ≡ self.now.snapshot }
    {
        &self.snapshot
    }
}
