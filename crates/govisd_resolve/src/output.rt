//! Writing the report of a run.
ghost use Rattle.std.specs.Prelude.{◌<◌, length};
ghost use Rattle.govisd_resolve.specs.Outputs.{IsPartWritten, IsWrittenOut};

use crate::failing::is_interruption;
use std::io::{ErrorKind, Write};

// The most writes that are made.
const WRITES: u64 = u64::MAX;

// One write: how many of the bytes it took, 0 where it was interrupted, or the kind of its error.
fn write_part<W: Write>(writer: &mut W, bytes: &[u8]) -> Result<usize, ErrorKind>
    requires { 0 < length bytes.now }
    ensures { IsPartWritten (W.contents writer.old) (W.contents writer.new) bytes.now result }
{
    match writer.write(bytes) {
        Ok(0) => Err(ErrorKind::WriteZero),
        Ok(count) => Ok(count),
        Err(error) if is_interruption(error.kind()) => Ok(0),
        Err(error) => Err(error.kind()),
    }
}

/// Writes some bytes. Where not all of them can be written, a first part of them is, and at least one is not.
///
/// # Errors
///
/// The kind of the error of the write that failed. A write that is interrupted is made again. One that takes none of
/// the bytes fails with [`ErrorKind::WriteZero`], and after 2^64 - 1 writes [`ErrorKind::TimedOut`] is the answer.
pub fn write_report<W: Write>(writer: &mut W, bytes: &[u8]) -> Result<(), ErrorKind>
    ensures { IsWrittenOut (W.contents writer.old) (W.contents writer.new) bytes.now result }
{
    let mut rest = bytes;
    for _turn in 0..WRITES {
        if rest.is_empty() {
            return Ok(());
        }
        match write_part(writer, rest) {
            Ok(count) => rest = &rest[count..],
            Err(kind) => return Err(kind),
        }
    }
    if rest.is_empty() {
        return Ok(());
    }
    Err(ErrorKind::TimedOut)
}
