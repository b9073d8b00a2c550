//! Writing all of some bytes to a writer, and what is known where that fails. It stands on no other crate.

mod failing;
mod flushing;
mod output;

pub use crate::outputs::failing::is_interruption;
pub use crate::outputs::flushing::flush_out;
pub use crate::outputs::output::write_out;
