//! Which nodes of a graph may be taken next, where each waits for those that it needs: as the packages of a batch, each of which is compiled behind
//! those that it imports. A call takes the time of the needs that it ends, and is no walk over all nodes.

mod counts;
mod mark;
mod turns;

pub use crate::ready_queue::mark::Mark;
pub use crate::ready_queue::turns::Turns;
