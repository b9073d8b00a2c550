//! Which packages stay as they are where others change: those whose imports tell what they told, and of which all that they reach has the types that it
//! had. Laws, with nothing to run.
//!
//! The Go specification, "Packages", "Import declarations", "Exported identifiers".
#![tactic(auto)]

mod imports;

pub use imports::{
    imports_decide_checks, imports_decide_parts, inputs_lead_inside, inputs_stand_over, parts_stay,
};
