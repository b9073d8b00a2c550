//! From the objects of packages to a program that can be run: functions whose references are numbers, and which of them begin it.
//!
//! The Go specification, "Program initialization", "Program execution".

mod edges;
mod functions;
mod linking;
mod numbers;
mod order;
mod packages;
mod places;
mod reached;

pub use crate::link::linking::{Runnable, link, outside};
pub use crate::link::places::{Place, Places};
