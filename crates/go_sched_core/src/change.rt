//! What a step changes.
use crate::event::SessionId;
use crate::running::Running;
use go_batch_core::{Ending, Next, ReadPart, Retold, Steady};
use go_path_core::Module;
use go_submit_core::{Batches, Submission};
use std::collections::LinkedList;

/// An action that is to be handed out, with the last published part of its package, whether its input is the one of that part, whether
/// it has that part with it over another input, and whether its input seems to be another.
#[derive(Drop)]
pub struct Hand {
    pub next: Next,
    pub earlier: Option<ReadPart>,
    pub kept: bool,
    pub stood: bool,
    pub other: bool,
}

/// What a step changes, with all that it grows.
#[derive(Drop)]
pub enum Change {
    Open(Module),
    Close(SessionId),
    Submit(LinkedList<Submission>),
    /// An action of the batch that runs.
    HandOut(Hand),
    /// A batch of all that waits, what of the last snapshot is as it was in it, and its first action.
    Begin(Running, Option<Steady>, Hand),
    /// A batch of all that waits, which has no action.
    PublishNew(Batches),
    /// The end of an action, and what its package tells beside what it told in the last snapshot.
    Finish(Ending, Retold),
    /// The batch that runs, with its last part.
    PublishLast(Batches),
    GiveBack,
}
