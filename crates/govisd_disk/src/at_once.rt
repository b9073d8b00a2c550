//! Files of Go source that are read at once: what comes is what comes of one after another.

mod reading;

pub use crate::at_once::reading::{read_files_at_once, text_bytes};
