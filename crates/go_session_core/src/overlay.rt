//! Drafts of modules: the paths that sessions name, and what an edit of a file leaves of a draft. No session and no board is named.

mod draft;
mod laws;
mod places;

pub use crate::overlay::draft::edited;
pub use crate::overlay::laws::edits_change_one_file;
pub use crate::overlay::places::{asked_path, lies_inside};
