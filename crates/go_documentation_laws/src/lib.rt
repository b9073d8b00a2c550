//! Documentation of types over whole workspaces: what is told of a type of another package is what selectors behind a variable of it have, once a file that
//! imports that package stands in the package that asks. Laws, with nothing to run.
//!
//! The Go specification, "Selectors", "Qualified identifiers", "Import declarations".
#![tactic(auto)]

mod laws;

pub use laws::{
    outcomes_below_stay, parts_below_stay, types_are_exact, types_below_agree, variables_are_exact,
};
