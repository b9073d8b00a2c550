//! From a folder of Go files to packages: which names are those of source files, which folders are passed over, what the path of
//! a folder's package is, which module a `go.mod` names, at which line and column an offset of a text lies, how a text stands in a line or in JSON, and what
//! may be asked of a folder.
//!
//! `go help packages` and `go help test` say which files and folders the `go` command reads; the Go specification, "Packages".
#![tactic(auto)]

mod escapes;
mod folders;
mod modules;
mod named;
mod names;
mod orders;
mod places;

pub use escapes::{push_command, push_json, push_shown};
pub use folders::{below, package_path};
pub use modules::{ModuleLine, module_line};
pub use named::named_folder;
pub use names::{FileKind, MAX_FILES, file_kind, is_passed_over};
pub use orders::{Color, Format, Order, RunOrder, Style};
pub use places::{LineCounter, Position, position_of};
