//! The folder of a module, as it is read.

use go_graph_core::Workspace;
use std::alloc::AllocError;

/// What reads the folders and the files of a module.
pub trait Disk {
    /// Reads the Go packages in a folder and below it, as those of the module of a path. None where there is no package.
    ///
    /// # Errors
    ///
    /// `AllocError` for want of memory.
    fn packages(&self, folder: &str, module: &str) -> Result<Option<Workspace>, AllocError>;

    /// The text of the file at a path; none where there is no file. One that has more than 1,048,576 bytes, that is no UTF-8 or that cannot be read has a text that
    /// stands for it: no text of Go, so that the file has the fault L1.
    fn text(&self, path: &str) -> Option<String>;
}
