//! Which edges of a graph lie on a cycle, and an order of its nodes along the others.
//!
//! A graph is a list of edges between the numbers below a count. Parallel edges and edges of a node to itself are
//! allowed. An edge lies on a cycle if it ends where it starts, or if a list of edges leads back from its end to
//! its start.
//!
//! The ranks are guessed in linear time, as the strongly connected components, and the guess is checked. Where the
//! check fails, the ranks are counted from what each node reaches.

mod certify;
mod edge;
mod guess;
mod laws;
mod order;
mod reach;
mod rows;

pub use crate::cycle::edge::Edge;
pub use crate::cycle::laws::{
    closed_walk_is_on_cycles, cycle_is_a_walk, cycle_reaches_both_ends, edge_reaches_its_end,
    falling_means_no_cycle, more_edges_reach_more, reach_is_reflexive, reach_is_transitive,
    reach_stays_in_range,
};
pub use crate::cycle::order::{Ranked, rank_and_order};
pub use crate::cycle::reach::leading_to;
