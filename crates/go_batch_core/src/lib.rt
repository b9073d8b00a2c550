//! The running batch: the packages of a workspace by what is done with their actions, each of which is handed out behind those that it imports, with the
//! input of its package, and is finished by a part of that input. When none is left, the parts are those of the workspace.
#![tactic(auto)]

mod batch;
mod begin;
mod marks;
mod over;
mod planned;
mod read;
mod retold;
mod rows;
pub mod seen;
mod slot;
mod steady;
mod tell;

pub use batch::{Batch, Ending, Next};
pub use over::{Over, plan_over};
pub use planned::{Planned, SharedReached};
pub use read::{ReadInput, ReadPart, Rebuilt, earlier_of, rebuild};
pub use retold::Retold;
pub use slot::Slot;
pub use steady::Steady;
pub use tell::Tell;
