//! What was read and is not taken yet.
ghost use Rattle.std.specs.Prelude.{◌≡◌, ◌≤◌, ◌<◌, ◌↔◌, IfErr, IfOk, IsTrue, OnErr, OnOk, [], false, drop, length, vec_len};
ghost use Rattle.std.specs.Io.KnownBytes.{IsAtEnd, Keeps};
ghost use Rattle.go_lsp_core.specs.frames.Frames.{stream};
ghost use Rattle.go_lsp_core.specs.frames.mirrors.Reading.{IsFailed};

use crate::frames::reading::FrameEnd;
use go_wire_core::outputs::is_interruption;
use std::alloc::{AllocError, Global};
use std::io::Read;
use std::marker::Model;

/// How many bytes are read at once.
const PIECE: usize = 65_536;

/// What was read from a reader and belongs to no message yet. Contracts see it as these bytes.
pub struct Input {
    /// Room for one read.
    buffer: Vec<u8>,
    /// What was read since the last message that a read was made for.
    bytes: Vec<u8>,
    /// How many of the bytes were taken.
    start: usize,
}

impl Drop for Input {
    fn drop(self) {
        let Input {
            buffer: _,
            bytes: _,
            start: _,
        } = self;
    }
}

impl Model for Input {
    ghost use Rattle.std.specs.Prelude.{List, ℕ, ◌≤◌, ◌<◌, drop, length};

    ghost Value = { List ℕ };

    ghost view = { λ i. drop i.start i.bytes.items };

    ghost invariant = { λ i. (i.start ≤ length i.bytes.items) × (0 < length i.buffer.items) };
}

// So many zeros.
fn zeros(alloc: Global, count: usize) -> Result<Vec<u8>, AllocError>
    ensures { IfOk result (λ v. vec_len v ≡ count) }
{
    vec![in alloc; 0u8; count]
}

// Leaves out the first bytes.
fn settled(alloc: Global, bytes: &mut Vec<u8>, start: usize) -> Result<(), AllocError>
    requires { start ≤ length bytes.old.items }
    ensures ok { OnOk result (bytes.new.items ≡ drop start bytes.old.items) }
    ensures err { OnErr result (bytes.new.items ≡ bytes.old.items) }
{
    let (_, rest) = bytes.as_slice().split_at(start);
    let left = Vec::from_slice(alloc, rest)?;
    *bytes = left;
    Ok(())
}

// One read: whether more may come.
fn read_more<R: Read>(
    reader: &mut R,
    buffer: &mut [u8],
    bytes: &mut Vec<u8>,
) -> Result<bool, FrameEnd>
    requires { 0 < length buffer.old }
    ensures kept { OnOk result (Keeps (stream bytes.old.items (R.remaining reader.old)) (stream bytes.new.items (R.remaining reader.new))) }
    ensures over { IfOk result (λ more. more ≡ false → (bytes.new.items ≡ bytes.old.items) × IsAtEnd (R.remaining reader.new)) }
    ensures err { IfErr result (λ end. IsFailed end (stream bytes.old.items (R.remaining reader.old)) (stream bytes.new.items (R.remaining reader.new))) }
{
    match reader.read(buffer) {
        Err(error) if is_interruption(error.kind()) => Ok(true),
        Err(_) => Err(FrameEnd::ReadFault),
        Ok(count) => {
            if count == 0 {
                return Ok(false);
            }
            if bytes.extend_from_slice(&buffer[..count]).is_err() {
                return Err(FrameEnd::Memory);
            }
            Ok(true)
        }
    }
}

impl Input {
    /// Nothing was read yet.
    ///
    /// # Errors
    ///
    /// `AllocError` where memory runs out.
    pub fn new(alloc: Global) -> Result<Input, AllocError>
        ensures { IfOk result (λ i. i ≡ []) }
    {
        let buffer = zeros(alloc, PIECE)?;
        Ok(Input {
            buffer,
            bytes: Vec::new(alloc),
            start: 0,
        })
    }

    /// Whether nothing is there that was read and not taken yet, so that the next message is yet to be read from its reader.
    pub fn is_empty(&self) -> bool
        ensures { IsTrue result ↔ (self.now ≡ []) }
    {
        self.rest().is_empty()
    }

    // The bytes.
    pub(crate) fn rest(&self) -> &[u8]
        ensures { result.now ≡ self.now }
    {
        let (_, rest) = self.bytes.as_slice().split_at(self.start);
        rest
    }

    // Takes the first bytes.
    pub(crate) fn pass(&mut self, count: usize)
        requires { count ≤ length self.old }
        ensures { self.new ≡ drop count self.old }
    {
        self.start += count;
    }

    // One read: whether more may come. What was taken is left out before.
    pub(crate) fn fill<R: Read>(&mut self, alloc: Global, reader: &mut R) -> Result<bool, FrameEnd>
        ensures kept { OnOk result (Keeps (stream self.old (R.remaining reader.old)) (stream self.new (R.remaining reader.new))) }
        ensures over { IfOk result (λ more. more ≡ false → (self.new ≡ self.old) × IsAtEnd (R.remaining reader.new)) }
        ensures err { IfErr result (λ end. IsFailed end (stream self.old (R.remaining reader.old)) (stream self.new (R.remaining reader.new))) }
    {
        match settled(alloc, &mut self.bytes, self.start) {
            Ok(()) => {
                self.start = 0;
                read_more(reader, self.buffer.as_mut_slice(), &mut self.bytes)
            }
            Err(_) => Err(FrameEnd::Memory),
        }
    }
}
