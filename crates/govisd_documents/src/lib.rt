//! What an editor has open: its texts, the packages of the folder, and the snapshot of these; and how places of files are named.
#![tactic(auto)]

mod disk;
mod documents;
mod edits;
mod importing;
mod modules;
mod opening;
mod paths;
mod ranges;
mod session;
mod targets;
mod trying;
mod unread;
mod unused;
mod words;

pub use disk::Disk;
pub use documents::{Document, Hidden};
pub use edits::{changed, closed, opened, put_texts, watched_all, with_file};
pub use importing::{Insertion, import_edit, import_of};
pub use modules::{Module, is_own};
pub use opening::{can_watch, encoding_in, encoding_name, open_around, open_module};
pub use ranges::{
    AskedPlace, ToldFile, asked_file, asked_place, file_start, location, location_value,
    token_location, told_file, told_range,
};
pub use session::{FileName, Phase, Session, path_of};
pub use targets::{FilePlace, number_of, place_of, site_of, source_of, target_at};
pub use trying::{shown_text, tried};
pub use unread::{Unread, why_unread};
pub use unused::unused_variables;
pub use words::{has_word, is_name_byte, name_end, name_start, text_between, token_at, token_end};
