//! The machine of stack code: what instructions do with words, operands and slots, and whole runs of functions whose references are numbers.
//!
//! The Go specification, "Integer operators", "Integer overflow", "Comparison operators", "Calls", "Bootstrapping".
#![tactic(auto)]

mod bounds;
mod callers;
mod execution;
mod frame;
mod laws;
pub mod link;
mod linked;
mod operands;
pub mod runs;
mod slots;
mod state;
mod steps;
mod text;
mod words;

pub use execution::{Ran, execute};
pub use frame::Frame;
pub use laws::{budgets_agree, spent_means_all_steps, truths_are_bits};
pub use linked::Linked;
pub use state::{End, PanicValue};
