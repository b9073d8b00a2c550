//! What the programs share that show what the layers of govisd answer: archives of workspaces, lines, and the names of packages.

mod archive;
mod lines;
mod packages;

pub use crate::show::archive::{member_place, put_archive};
pub use crate::show::lines::{Lines, identifier_at};
pub use crate::show::packages::{
    Named, NamedFile, add_counts, add_files, add_package, name_packages,
};
