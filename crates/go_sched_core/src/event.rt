//! Events and replies.
use go_batch_core::{ReadInput, ReadPart};
use go_path_core::Module;
use go_path_core::text_core::Rule;
use go_submit_core::{ModuleTree, Ticket};

/// The number of a session: that of its open among the accepted ones, from 1.
#[derive(Clone, Copy, PartialEq, Eq)]
pub struct SessionId(pub u64);

/// Where a submission stands.
#[derive(Clone, Copy, PartialEq, Eq)]
pub enum TicketState {
    /// No batch has it yet.
    Waiting,
    /// It is in the batch that runs.
    Running,
    /// It is in the published batch of this number, from 1.
    Published(u64),
    /// Its batch was given back.
    GivenBack,
}

/// A session with the module that it holds.
pub struct Held {
    pub session: SessionId,
    pub own: Module,
}

impl Drop for Held {
    fn drop(self) {
        let Held { session: _, own: _ } = self;
    }
}

/// What happens to the core.
pub enum Event {
    /// A session opens a module.
    Open(Module),
    /// A session ends.
    Close(SessionId),
    /// A session submits the packages of its module.
    Submit(SessionId, ModuleTree),
    /// A worker asks for an action.
    Take,
    /// A worker has finished the action of this number, by this part.
    Finish(u64, ReadPart),
    /// A worker gives the batch of this generation back.
    GiveBack(u64),
}

impl Drop for Event {
    fn drop(self) {
        match self {
            Event::Open(_) => {}
            Event::Close(_) => {}
            Event::Submit(_, _) => {}
            Event::Take => {}
            Event::Finish(_, _) => {}
            Event::GiveBack(_) => {}
        }
    }
}

/// The compilation of one package in a generation: its number, the input of the package, and the package's last published part, where there is one.
pub struct Action {
    pub generation: u64,
    pub number: u64,
    pub input: ReadInput,
    pub earlier: Option<ReadPart>,
    /// The number of the package, where the core knows that the earlier part is made of this input: then it can be finished by `Core::prepare_kept`.
    pub kept: Option<usize>,
    /// Whether the input seems to be another than that of the earlier part, so that comparing the two is no use. Nothing rests on it but time.
    pub other: bool,
}

impl Drop for Action {
    fn drop(self) {
        let Action {
            generation: _,
            number: _,
            input: _,
            earlier: _,
            kept: _,
            other: _,
        } = self;
    }
}

/// What the core replies.
#[derive(Drop)]
pub enum Reply {
    /// The number of the session.
    Opened(SessionId),
    Closed,
    Submitted(Ticket),
    /// An action was taken.
    Act(Action),
    /// No action is ready, and no batch can be formed.
    Idle,
    /// An action is finished, and others of its batch are not.
    Finished,
    /// The number, from 1, of the batch that is published by this step.
    Published(u64),
    GaveBack,
    Refused(Rule),
}
