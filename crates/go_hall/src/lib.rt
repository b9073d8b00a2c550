//! A hall: sessions that edit, build and ask, workers that compile, and the core that they share under one lock. Sessions read what is published on a
//! board with no lock.
#![tactic(auto)]

mod hall;
mod laws;
mod session;
mod worker;

pub use go_session_core::overlay::edits_change_one_file;
pub use go_session_core::queries::{Fault, Look};
pub use hall::Hall;
pub use laws::refusals_are_listed;
pub use session::{Built, Session};
pub use worker::{Gate, OpenGate, WorkEnd, work};

/// What the crates above name of `go_hall_core`.
pub mod hall_core {
    pub use go_hall_core::{Named, Stamps, Submits};
}

/// What the crates above name of `go_sched_core`.
pub mod sched_core {
    pub use go_hall_core::sched_core::{
        Action, Committed, Core, Event, MAX_EVENTS, Ran, Reply, SessionId, TicketState, run_events,
    };
}
