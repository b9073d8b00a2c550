//! Flushing a writer.
ghost use Rattle.go_wire_core.specs.outputs.Outputs.{IsFlushed};

use crate::outputs::failing::is_interruption;
use std::io::{ErrorKind, Write};

// The most flushes that are made.
const FLUSHES: u64 = u64::MAX;

/// Flushes a writer. What it holds stays as it is.
///
/// # Errors
///
/// The kind of the error of the flush that failed. A flush that is interrupted is made again, and after 2^64 - 1 of them
/// [`ErrorKind::TimedOut`] is the answer.
pub fn flush_out<W: Write>(writer: &mut W) -> Result<(), ErrorKind>
    ensures { IsFlushed (W.contents writer.old) (W.contents writer.new) result }
{
    for _turn in 0..FLUSHES {
        match writer.flush() {
            Ok(()) => return Ok(()),
            Err(error) if is_interruption(error.kind()) => (),
            Err(error) => return Err(error.kind()),
        }
    }
    Err(ErrorKind::TimedOut)
}
