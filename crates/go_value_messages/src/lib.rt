//! What is said of calls, of values that are given to variables and to fields, and of statements.
#![tactic(auto)]

mod assigned;
mod calls;
mod own;
mod statements;

pub use calls::of_call;
pub use statements::of_statement;
