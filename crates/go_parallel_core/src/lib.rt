//! The packages of a workspace, compiled by several threads at once. The snapshot is the one that a single thread gives.
#![tactic(auto)]

mod compiling;
mod levels;
mod seers;
mod shares;
mod worker;

pub use compiling::compile_at_once;
