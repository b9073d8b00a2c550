//! What goes out.
ghost use Rattle.std.specs.Prelude.{◌≡◌, IfErr, IfOk, OnOk};
ghost use Rattle.std.specs.Io.KnownBytes.{Appends};
ghost use Rattle.go_lsp_core.specs.frames.Frames.{IsUnsent, frame_of};

use go_wire_core::outputs::{flush_out, write_out};
use std::alloc::{AllocError, Global};
use std::io::{ErrorKind, Write};

/// Why a message was not sent.
#[derive(Clone, Copy, Debug, PartialEq, Eq)]
pub enum SendFault {
    /// Memory ran out. Nothing was written.
    Memory,
    /// The writer failed, at a write or at a flush. A first part of the message with its head may have gone out, or all that was not flushed.
    Writer(ErrorKind),
}

/// A message with its head before it.
///
/// # Errors
///
/// `AllocError` where memory runs out.
pub fn frame_of(alloc: Global, message: &[u8]) -> Result<Vec<u8>, AllocError>
    ensures { IfOk result (λ frame. frame.items ≡ frame_of message.now) }
{
    let mut frame = Vec::from_slice(alloc, b"Content-Length: ")?;
    let len = message.len().to_string(alloc)?;
    frame.extend_from_slice(len.as_bytes())?;
    frame.extend_from_slice(b"\r\n\r\n")?;
    frame.extend_from_slice(message)?;
    Ok(frame)
}

/// Writes a message with its head before it, and flushes the writer.
///
/// # Errors
///
/// A [`SendFault`], which says what may have gone out.
pub fn write_message<W: Write>(
    alloc: Global,
    writer: &mut W,
    message: &[u8],
) -> Result<(), SendFault>
    ensures ok { OnOk result (Appends (W.contents writer.old) (W.contents writer.new) (frame_of message.now)) }
    ensures err { IfErr result (λ fault. IsUnsent fault (W.contents writer.old) (W.contents writer.new) (frame_of message.now)) }
{
    let Ok(frame) = frame_of(alloc, message) else {
        return Err(SendFault::Memory);
    };
    if let Err(kind) = write_out(writer, frame.as_slice()) {
        return Err(SendFault::Writer(kind));
    }
    match flush_out(writer) {
        Ok(()) => Ok(()),
        Err(kind) => Err(SendFault::Writer(kind)),
    }
}
