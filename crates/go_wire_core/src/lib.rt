//! From the bytes of requests to the bytes of replies: lines of JSON, one object for each request and one for each reply.
//!
//! [`serve`] reads the lines of a connection, asks a [`Desk`] what they ask and writes the lines of its replies. Which desk answers is left open.
#![tactic(auto)]

mod counting;
mod desk;
mod given;
mod laws;
pub mod outputs;
mod reading;
mod reply;
mod request;
mod serving;
mod step;
mod text;
mod write;

pub use counting::CountedReader;
pub use desk::Desk;
pub use laws::{asks_by_table, asks_in_order, first_come_first, refuses_by_table, worked_lines};
pub use reply::{FaultPlace, PackageEntry, RunEnd, Symbol, SymbolKind, WireReply};
pub use request::{Command, Request};
pub use serving::{ServeEnd, serve};
pub use step::Step;
pub use text::Text;
