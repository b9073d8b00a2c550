//! Names with what each has, in order, and found by their spelling.

mod named;
mod places;

pub use crate::name_table::named::NameTable;
