//! Whole workspaces: the check of a package looks at what the package reaches alone, and so what the trees of all packages give, each package checked
//! among all others, and packages that are made one behind another, each from what the packages tell that it reaches, give the same. Laws, with nothing
//! to run.
//!
//! The Go specification, "Packages", "Import declarations", "Exported identifiers".

mod local;
mod whole;

pub use crate::whole_workspace::local::{check_is_local, imports_bind_theirs};
pub use crate::whole_workspace::whole::{
    inputs_stay, one_whole, parts_are_whole, parts_come_in_order,
};
