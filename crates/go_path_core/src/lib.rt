//! Import paths, modules, and the rule of internal directories.
//!
//! An import path is written as its elements, joined by `/`. It has 1 to 16 elements and at most 255 bytes.
//! An element is not empty, has bytes of `A-Z a-z 0-9 - . _ ~`, and neither begins nor ends with a dot.
//! A module is the path under which its packages lie, and is written alike.
//!
//! The Go specification, "Import declarations", lets an implementation restrict the form of import paths.
//! The rule of `internal` stands in `go help gopath`, "Internal Directories".
#![tactic(auto)]

mod import_path;
mod laws;
mod modules;
mod path_text;

pub use import_path::{ImportPath, PathText, may_import, may_import_text};
pub use laws::{
    below_an_importer, elements_decide, every_path_imports_itself, last_internal_decides,
    one_module_of_a_path, open_to_all, overlap_is_decided, overlap_is_reflexive,
    overlap_is_symmetric, prefix_by_elements,
};
pub use modules::{Module, overlaps};

/// What the crates above name of `go_text_core`.
pub mod text_core {
    pub use go_text_core::{Name, Rule, Span, add, boxed, is_blank, is_exported};
}
