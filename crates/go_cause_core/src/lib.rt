//! Of each fault of a snapshot, whether it follows from another fault of the same snapshot.
#![tactic(auto)]

mod cause;
mod causing;
mod direct;
mod exprs;
mod found;
mod look;
mod pairs;
mod repeating;
mod resolving;
mod rooting;
mod stmts;
mod tops;

pub use cause::{Cause, Causes};
pub use causing::causes;
pub use repeating::repeated_names;
pub use rooting::roots;
