//! The daemon's core: sessions open modules, submit trees and close; workers take actions, and finish or give back. One event, one reply, and no thread:
//! what is published is what one worker gives, whatever the order of takes and finishes.
#![tactic(auto)]

mod change;
mod commit;
mod event;
mod laws;
mod machine;
mod prepare;
mod ready;
mod rules;
mod run;
mod running;
mod tickets;

pub use event::{Action, Event, Held, Reply, SessionId, TicketState};
pub use laws::{replays_go_on, runs_go_on};
pub use machine::Core;
pub use ready::{Committed, Ready};
pub use rules::{MAX_EVENTS, MAX_SESSIONS};
pub use run::{Ran, run_events};
pub use running::Running;

/// What the crates above name of `go_batch_core`.
pub mod batch_core {
    pub use go_batch_core::seen::Sight;
    pub use go_batch_core::{ReadPart, Rebuilt, earlier_of};
}
