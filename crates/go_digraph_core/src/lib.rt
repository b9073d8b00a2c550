//! Graphs whose nodes are numbers: cycles, what is reached, ends of chains, values by need, and which nodes are ready.
#![tactic(auto)]

pub mod chain;
pub mod cycle;
pub mod needs;
pub mod reach;
pub mod ready_queue;
