//! The run of a folder's program: its files are read, its packages are compiled, and where nothing is amiss its main package runs.

mod answers;
mod blame;
mod choosing;
mod packages;
mod running;

pub use crate::runs::running::run_folder;
pub use go_folder_core::RunOrder;
