//! The daemon: a hall with its workers, asked by one script of many sessions or by connections of one session each.
#![tactic(auto)]

mod connections;
pub mod desks;
mod door;
mod laws;
mod notices;
mod script;
mod workers;

pub use connections::{run_serve, serve_connection};
pub use door::Serving;
pub use laws::halls_cross;
pub use notices::{Notice, Tells};
pub use script::{Served, run_script};

/// The turns of a script and of a connection: reads of at most 65,536 bytes each.
const TURNS: u64 = 16_777_216;

/// The parts of a hall's ledger of submits: more than sessions can be opened.
const PARTS: u64 = 1_048_577;

/// The stack of a worker and of a connection in bytes, which the limit of the process does not make smaller: a tree of height 200 wants some 800 KB.
const STACK: usize = 2_097_152;

/// What the crates above name of `go_hall`.
pub mod hall {
    pub use go_hall::{Built, Gate, Hall, OpenGate, Session, WorkEnd, work};
}

/// What the crates above name of `go_hall_core`.
pub mod hall_core {
    pub use go_hall::hall_core::{Named, Stamps, Submits};
}

/// What the crates above name of `go_sched_core`.
pub mod sched_core {
    pub use go_hall::sched_core::{
        Action, Committed, Core, Event, MAX_EVENTS, Ran, Reply, SessionId, TicketState, run_events,
    };
}
