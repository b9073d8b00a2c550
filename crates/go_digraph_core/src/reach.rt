//! What the nodes of a graph reach, as sets of numbers.
//!
//! A graph is a list of edges between the numbers below a count. What a node reaches is what lists of at least one edge
//! lead to from it.

mod graph;
mod numbers;

pub use crate::reach::graph::{Reached, find_reached, starts_of};
pub use crate::reach::numbers::NumberSet;
