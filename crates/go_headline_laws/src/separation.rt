//! The modules that are taken never overlap, each published snapshot is the one of its sources, and what is published is of workspaces: of each run of
//! the service, whatever sessions send and workers do.

mod handed;
mod laws;

pub use crate::separation::handed::are_handed_in;
pub use crate::separation::laws::{
    modules_stay_apart, own_paths, published_are_taken, published_trees, runs_are_sound,
    submissions_are_own, trees_are_well,
};
