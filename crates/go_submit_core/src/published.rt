//! Batches that were published.
use crate::submission::Submissions;
use go_snap_core::SharedSnapshot;

/// A batch that was published: what was submitted, in order, and the snapshot of all that was published up to it. Both are shared.
pub struct PublishedBatch {
    pub submissions: Submissions,
    pub snapshot: SharedSnapshot,
}

impl Drop for PublishedBatch {
    fn drop(self) {
        let PublishedBatch {
            submissions: _,
            snapshot: _,
        } = self;
    }
}
