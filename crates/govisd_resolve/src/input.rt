//! Reading the input of a run.
ghost use Rattle.std.specs.Prelude.{◌≡◌, ◌+◌, ◌≤◌, ◌<◌, take, IfOk, IfErr, IfSome};
ghost use Rattle.std.specs.Io.KnownBytes.{Consumes};
ghost use Rattle.govisd_resolve.specs.Inputs.{ReadsBehind, IsUninterrupted, ReadsUpTo};
ghost use Rattle.govisd_resolve.specs.Reports.{max_bytes};

use crate::failing::is_interruption;
use std::alloc::Global;
use std::io::{ErrorKind, Read};
use thiserror::Error;

/// The most bytes that are read: one more than a text may have.
pub const LIMIT: usize = 1_048_577;

// The most reads that are made.
const READS: u64 = 2_097_152;

// The most bytes of one read.
const PIECE: usize = 4096;

/// Why an input is not read.
#[derive(Clone, Copy, Debug, Error)]
pub enum InputFault {
    /// The reader failed with an error of this kind.
    #[error("the input cannot be read: {0:?}")]
    Reader(ErrorKind),
    /// Memory ran out.
    #[error("memory ran out")]
    Memory,
}

// One read of at most `room` bytes, and whether more may come: it gave some, or was interrupted.
fn read_part<R: Read>(reader: &mut R, bytes: &mut Vec<u8>, room: usize) -> Result<bool, InputFault>
    requires some { 0 < room }
    requires small { room ≤ PIECE }
    ensures ok { IfOk result (λ more. ReadsBehind (R.remaining reader.old) (R.remaining reader.new) bytes.old.items bytes.new.items room more) }
    ensures err { IfErr result IsUninterrupted }
    ensures few { ReadsUpTo room (R.remaining reader.old) (R.remaining reader.new) }
{
    let mut buffer = [0u8; PIECE];
    let part = &mut buffer[..room];
    match reader.read(part) {
        Err(error) if is_interruption(error.kind()) => Ok(true),
        Err(error) => Err(InputFault::Reader(error.kind())),
        Ok(count) => match bytes.extend_from_slice(&part[..count]) {
            Ok(()) => Ok(count > 0),
            Err(_) => Err(InputFault::Memory),
        },
    }
}

/// The first bytes that a reader gives, up to the limit.
///
/// A read that is interrupted is made again. The error of one that fails otherwise is the fault, and so is
/// [`ErrorKind::TimedOut`] where the bytes want more than 2,097,152 reads. No byte beyond the limit is read.
pub fn read_input<R: Read>(alloc: Global, reader: &mut R) -> Result<Vec<u8>, InputFault>
    ensures ok { IfOk result (λ v. IfSome (R.remaining reader.old) (λ bytes. v.items ≡ take (max_bytes + 1) bytes)) }
    ensures taken { IfOk result (λ v. Consumes (R.remaining reader.old) (R.remaining reader.new) v.items) }
    ensures err { IfErr result IsUninterrupted }
    ensures few { ReadsUpTo (max_bytes + 1) (R.remaining reader.old) (R.remaining reader.new) }
{
    let mut bytes = Vec::new(alloc);
    for _turn in 0..READS {
        let room = (LIMIT - bytes.len()).min(PIECE);
        if room == 0 {
            return Ok(bytes);
        }
        if !read_part(reader, &mut bytes, room)? {
            return Ok(bytes);
        }
    }
    Err(InputFault::Reader(ErrorKind::TimedOut))
}
