//! That there is exactly one answer: each text has a content, each package one check, each input one part, and each workspace one snapshot. Laws, with
//! nothing to run.
//!
//! The Go specification, "Source code representation", "Packages", "Declarations and scope", "Program initialization and execution".
#![tactic(auto)]

mod laws;

pub use laws::{
    each_input_has_one_part, each_package_has_one_check, each_text_has_a_content,
    each_workspace_has_one_snapshot, texts_make_a_workspace,
};
