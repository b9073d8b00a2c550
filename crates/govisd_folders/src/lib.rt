//! The check of the Go packages in a folder: its files are read, and each fault in them is told with its place. Nothing is written
//! into the folder.
#![tactic(auto)]

mod checking;
mod excerpts;
mod lines;
mod looks;
mod painting;
pub mod runs;
mod selecting;
mod spots;
mod telling;
mod unused;
mod words;
mod workers;

pub use checking::{CheckAnswer, check_folder};
pub use go_folder_core::{Color, Format, Order, Style};
pub use govisd_disk::{
    FoundPackages, Progress, ReadFolder, Scope, is_inside, name_or_quotes, note, note_rule,
    path_of, push, read_folder_at_once,
};
pub use looks::{Look, PLAIN};
pub use telling::{Page, Report, told};
