//! The batch that runs.
use go_batch_core::{Batch, Steady};
use go_submit_core::Submissions;

/// The batch that runs, with its generation and what was submitted.
pub struct Running {
    pub generation: u64,
    pub submissions: Submissions,
    pub batch: Batch,
}

impl Drop for Running {
    fn drop(self) {
        let Running {
            generation: _,
            submissions: _,
            batch: _,
        } = self;
    }
}

/// A batch that is formed, with what of the last snapshot is as it was in it.
#[derive(Drop)]
pub struct Formed {
    pub running: Running,
    pub steady: Option<Steady>,
}
