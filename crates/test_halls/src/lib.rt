//! What the workers of halls do after gates of other kinds than the open one: the scenes of `scenes`.
#![tactic(auto)]

mod doors;
mod histories;
mod scenes;

pub use scenes::show_scene;
