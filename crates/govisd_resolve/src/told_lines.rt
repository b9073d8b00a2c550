//! The lines that tell what stands in a file: what each occurrence has, and the faults beside.

mod bytes;
mod lines;
mod places;

pub use crate::told_lines::lines::{fault_line, file_lines};
