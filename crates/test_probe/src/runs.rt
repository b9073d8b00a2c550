//! What a run of `govisd resolve` writes and how it ends, over readers that give little or fail and writers that take little or
//! fail.
use crate::show::Lines;
use govisd_resolve::{ResolveEnd, run_resolve};
use std::alloc::Global;
use std::io;
use std::io::{ErrorKind, Read, Write};

/// What a reader gives and a writer takes.
#[derive(Clone, Copy)]
pub struct Ends {
    /// How many bytes a read gives and a write takes at most.
    step: usize,
    /// How many reads can be made before one fails.
    reads: usize,
    /// Whether every second read and every second write is interrupted.
    interrupts: bool,
    /// Whether each write fails.
    fails: bool,
}

/// Gives bytes.
#[derive(Drop)]
struct Source<'a> {
    rest: &'a [u8],
    ends: Ends,
}

impl Read for Source<'_> {
    fn read(&mut self, buf: &mut [u8]) -> io::Result<usize> {
        if self.ends.reads == 0 {
            return Err(io::Error::from(ErrorKind::Other));
        }
        self.ends.reads -= 1;
        if self.ends.interrupts && self.ends.reads % 2 == 0 {
            return Err(io::Error::from(ErrorKind::Interrupted));
        }
        let n = self.ends.step.min(buf.len()).min(self.rest.len());
        let (front, back) = self.rest.split_at(n);
        buf[..n].copy_from_slice(front);
        self.rest = back;
        Ok(n)
    }
}

/// Keeps what is written.
#[derive(Drop)]
struct Sink {
    bytes: Vec<u8>,
    ends: Ends,
    /// Whether the last write was interrupted.
    was_interrupted: bool,
}

impl Write for Sink {
    fn write(&mut self, buf: &[u8]) -> io::Result<usize> {
        if self.ends.fails {
            return Err(io::Error::from(ErrorKind::BrokenPipe));
        }
        self.was_interrupted = self.ends.interrupts && !self.was_interrupted;
        if self.was_interrupted {
            return Err(io::Error::from(ErrorKind::Interrupted));
        }
        let taken = buf.get(..self.ends.step).unwrap_or(buf);
        self.bytes.extend_from_slice(taken)?;
        Ok(taken.len())
    }

    fn flush(&mut self) -> io::Result<()> {
        Ok(())
    }
}

/// How a run over bytes ends, and what it writes.
fn run(alloc: Global, ends: Ends, bytes: &[u8]) -> (ResolveEnd, Vec<u8>) {
    let mut source = Source { rest: bytes, ends };
    let mut sink = Sink {
        bytes: Vec::new(alloc),
        ends,
        was_interrupted: false,
    };
    let end = run_resolve(alloc, &mut source, &mut sink);
    (end, sink.bytes)
}

/// Adds the lines that a run writes, and how it ends.
fn add_run(out: &mut Lines, alloc: Global, ends: Ends, bytes: &[u8]) {
    let (end, lines) = run(alloc, ends, bytes);
    out.add(str::from_utf8(lines.as_slice()).unwrap_or("no text\n"));
    match end {
        ResolveEnd::Clean => out.line("clean"),
        ResolveEnd::Faults => out.line("faults"),
        ResolveEnd::ReadFault => out.line("read fault"),
        ResolveEnd::WriteFault => out.line("write fault"),
        ResolveEnd::Memory => out.cut(),
    }
}

/// Adds how many runs end with a read fault and write nothing, of those in which the read of each byte fails and
/// the read at the end.
fn add_unread(out: &mut Lines, alloc: Global, bytes: &[u8]) {
    let mut count = 0usize;
    for reads in 0..=bytes.len() {
        let ends = Ends {
            step: 1,
            reads,
            interrupts: false,
            fails: false,
        };
        let (end, lines) = run(alloc, ends, bytes);
        if end == ResolveEnd::ReadFault && lines.is_empty() {
            count = count.saturating_add(1);
        }
    }
    out.count("", count, "\n");
}

/// Adds the answer of a kind to bytes, and tells whether the kind is one of these. Of a slow run the first line of the text says how many bytes a
/// read gives, and a write takes, at most.
pub fn add_answer(out: &mut Lines, alloc: Global, kind: &str, bytes: &[u8]) -> bool {
    let mut ends = Ends {
        step: usize::MAX,
        reads: usize::MAX,
        interrupts: kind == "interrupted",
        fails: kind == "unwritten",
    };
    match kind {
        "resolve" | "unwritten" => add_run(out, alloc, ends, bytes),
        "slow" | "interrupted" => {
            let text = str::from_utf8(bytes).unwrap_or("");
            if let Some((step, source)) = text.split_once('\n') {
                ends.step = step.parse().unwrap_or(1);
                add_run(out, alloc, ends, source.as_bytes());
            }
        }
        "unread" => add_unread(out, alloc, bytes),
        _ => return false,
    }
    true
}
