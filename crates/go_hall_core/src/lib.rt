//! What the lock of a hall holds: the core, the events that it accepted, the writer of the board, and the ledger of submits.
#![tactic(auto)]

mod counted;
mod desk;
mod known;
mod laws;
mod seen;
pub mod stamping;
mod state;

pub use counted::{Counted, Errand, Named, Stamps, Submits};
pub use desk::Desk;
pub use known::Known;
pub use laws::replay_counts;
pub use seen::Seen;
pub use state::HallState;

/// What the crates above name of `go_board_core`.
pub mod board_core {
    pub use go_board_core::{Board, BoardReader, Sees};
}

/// What the crates above name of `go_sched_core`.
pub mod sched_core {
    pub use go_sched_core::{
        Action, Committed, Core, Event, MAX_EVENTS, Ran, Reply, SessionId, TicketState, run_events,
    };
}

/// What the crates above name of `go_submit_core`.
pub mod submit_core {
    pub use go_board_core::submit_core::{ModuleTree, Ticket};
}
