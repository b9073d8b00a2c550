//! From a folder tree to its packages as a workspace: its source files are read, and what is left out is named. Nothing is written into the
//! folder.
#![tactic(auto)]

pub mod at_once;
mod finding;
mod folders;
mod groups;
mod notes;
mod parsing;
mod progress;
mod putting;
mod reading;
mod roots;
mod scopes;

pub use finding::{FoundPackages, ReadFolder, read_folder, read_folder_at_once};
pub use folders::folder_of;
pub use notes::{name_or_quotes, note, note_rule, push, push_number};
pub use progress::Progress;
pub use putting::path_of;
pub use reading::STAND_IN;
pub use scopes::{Scope, has_fault, has_file, is_below, is_inside, packages_in, source_of};
