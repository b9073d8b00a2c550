//! The sessions of a hall as a connection asks them: one session of its own, or up to 32 by number.

mod asking;
mod connection;
mod script;
mod seating;

pub use crate::desks::connection::ConnectionDesk;
pub use crate::desks::script::ScriptDesk;
