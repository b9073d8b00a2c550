//! Scripts of sessions: what is replied to their lines, by however many workers, in whatever pieces their bytes come, and where reading or writing fails.
use go_wire_core::{CountedReader, Desk, Request, ServeEnd, WireReply, serve};
use govisd_service::{Served, run_script};
use std::alloc::Global;
use std::io::{ErrorKind, Read, Write};
use std::sync::Wait;
use std::thread::Threads;
use std::time::Clock;
use std::{fs, io};

/// The turns of a connection to which blank lines come.
const TURNS: u64 = 100;

/// How a script is served.
#[derive(Clone, Copy)]
struct Ways {
    /// How many packages are compiled at once.
    workers: usize,
    /// How many bytes a read gives at most.
    step: usize,
    /// Whether a read fails behind the last byte, in place of the end of the input.
    fails: bool,
    /// How many bytes can be written before a write fails.
    room: usize,
}

/// One worker, and a reader and a writer that do not fail.
const PLAIN: Ways = Ways {
    workers: 1,
    step: 65_536,
    fails: false,
    room: usize::MAX,
};

/// Gives the bytes of a script.
#[derive(Drop)]
struct Source<'a> {
    rest: &'a [u8],
    ways: Ways,
}

impl Read for Source<'_> {
    fn read(&mut self, buf: &mut [u8]) -> io::Result<usize> {
        if self.ways.fails && self.rest.is_empty() {
            return Err(io::Error::from(ErrorKind::Other));
        }
        let n = self.ways.step.min(buf.len()).min(self.rest.len());
        let (front, back) = self.rest.split_at(n);
        buf[..n].copy_from_slice(front);
        self.rest = back;
        Ok(n)
    }
}

/// Keeps the replies.
#[derive(Drop)]
struct Replies {
    bytes: Vec<u8>,
    room: usize,
}

impl Write for Replies {
    fn write(&mut self, buf: &[u8]) -> io::Result<usize> {
        let taken = buf.get(..self.room).unwrap_or(buf);
        if taken.is_empty() && !buf.is_empty() {
            return Err(io::Error::from(ErrorKind::BrokenPipe));
        }
        self.bytes.extend_from_slice(taken)?;
        self.room = self.room.saturating_sub(taken.len());
        Ok(taken.len())
    }

    fn flush(&mut self) -> io::Result<()> {
        Ok(())
    }
}

/// How serving a script ends, and the replies.
fn served<T: Threads + Wait + Clock + Sync>(
    threads: &T,
    alloc: Global,
    script: &[u8],
    ways: Ways,
) -> (ServeEnd, Vec<u8>) {
    let source = Source { rest: script, ways };
    let sink = Replies {
        bytes: Vec::new(alloc),
        room: ways.room,
    };
    let Served {
        end,
        reader: _,
        writer,
    } = run_script(threads, alloc, source, sink, ways.workers);
    (end, writer.bytes)
}

/// How many lines end in bytes.
fn ended_lines(bytes: &[u8]) -> usize {
    bytes.iter().filter(|b| **b == b'\n').count()
}

/// The first so many lines of bytes, or all.
fn first_lines(bytes: &[u8], count: usize) -> &[u8] {
    let mut left = count;
    for (at, byte) in bytes.iter().enumerate() {
        if left == 0 {
            return bytes.get(..at).unwrap_or(bytes);
        }
        if *byte == b'\n' {
            left -= 1;
        }
    }
    bytes
}

/// Whether the replies are these where serving ends so.
fn is_same(told: &(ServeEnd, Vec<u8>), end: ServeEnd, replies: &[u8]) -> &'static str {
    if told.0 == end && told.1.as_slice() == replies {
        "same"
    } else {
        "others"
    }
}

/// Writes the replies to the lines of a file, and whether they are the same bytes with eight workers, and where a read gives one byte.
///
/// # Errors
///
/// The error of the file or of standard output.
pub fn show_script<T: Threads + Wait + Clock + Sync>(
    rt: &HostRuntime,
    threads: &T,
    file: &str,
) -> io::Result<()> {
    let script = fs::read(rt, file)?;
    let (end, one) = served(threads, rt.alloc(), &script, PLAIN);
    let eight = served(
        threads,
        rt.alloc(),
        &script,
        Ways {
            workers: 8,
            ..PLAIN
        },
    );
    let slow = served(threads, rt.alloc(), &script, Ways { step: 1, ..PLAIN });
    let text = str::from_utf8(one.as_slice()).unwrap_or("");
    let with_eight = is_same(&eight, end, one.as_slice());
    let by_bytes = is_same(&slow, end, one.as_slice());
    print!(rt; "== {file}\n{text}8 workers {with_eight}, by bytes {by_bytes}\n")
}

/// In how many runs the read behind each beginning of a script fails, and the lines that had come whole have their replies, and nothing else has.
fn unread<T: Threads + Wait + Clock + Sync>(
    threads: &T,
    alloc: Global,
    script: &[u8],
    replies: &[u8],
) -> usize {
    let ways = Ways {
        fails: true,
        ..PLAIN
    };
    let mut count = 0usize;
    for len in 0..=script.len() {
        let came = script.get(..len).unwrap_or(script);
        let (end, told) = served(threads, alloc, came, ways);
        let wanted = first_lines(replies, ended_lines(came));
        if end == ServeEnd::ReadFault && told.as_slice() == wanted {
            count = count.saturating_add(1);
        }
    }
    count
}

/// In how many runs the write behind each beginning of the replies fails, and that beginning is written.
fn unwritten<T: Threads + Wait + Clock + Sync>(
    threads: &T,
    alloc: Global,
    script: &[u8],
    replies: &[u8],
) -> usize {
    let mut count = 0usize;
    for room in 0..replies.len() {
        let (end, told) = served(threads, alloc, script, Ways { room, ..PLAIN });
        if end == ServeEnd::WriteFault
            && told.as_slice() == replies.get(..room).unwrap_or(replies)
        {
            count = count.saturating_add(1);
        }
    }
    count
}

/// Gives a newline in each read, and counts the reads.
#[derive(Drop)]
struct Blanks {
    reads: usize,
}

impl Read for Blanks {
    fn read(&mut self, buf: &mut [u8]) -> io::Result<usize> {
        self.reads = self.reads.saturating_add(1);
        let Some(first) = buf.first_mut() else {
            return Ok(0);
        };
        *first = b'\n';
        Ok(1)
    }
}

/// Does what it is asked, and has no sessions.
#[derive(Clone, Copy)]
struct Nobody;

impl Desk for Nobody {
    ghost use Rattle.std.specs.Prelude.{false};

    ghost is_numbered = { λ d. false };

    ghost answers = { λ old request reply new. Unit {0} };

    fn numbered(&self) -> bool {
        false
    }

    fn answer<H: Wait>(&mut self, _rt: &H, _request: Request) -> WireReply {
        WireReply::Done
    }
}

/// How many reads are made of blank lines without end, and how many bytes are written for them, or none where serving ends otherwise than for its turns.
fn blank_turns<T: Wait>(threads: &T, alloc: Global) -> Option<(usize, usize)> {
    let mut reader = CountedReader::new(Blanks { reads: 0 });
    let mut writer = Replies {
        bytes: Vec::new(alloc),
        room: usize::MAX,
    };
    let end = serve(threads, alloc, &mut reader, &mut writer, &mut Nobody, TURNS);
    let Blanks { reads } = reader.into_reader();
    match end {
        ServeEnd::Turns => Some((reads, writer.bytes.len())),
        _ => None,
    }
}

/// Writes, of a script without blank lines, in how many of the runs in which reading or writing fails at each byte that fault is the end and what went out
/// is right, and of blank lines without end how many reads of so many turns are made and what is written.
///
/// # Errors
///
/// The error of the file or of standard output.
pub fn show_faults<T: Threads + Wait + Clock + Sync>(
    rt: &HostRuntime,
    threads: &T,
    file: &str,
) -> io::Result<()> {
    let script = fs::read(rt, file)?;
    let (_, replies) = served(threads, rt.alloc(), &script, PLAIN);
    let unread = unread(threads, rt.alloc(), &script, &replies);
    let unwritten = unwritten(threads, rt.alloc(), &script, &replies);
    let reads = script.len().saturating_add(1);
    let writes = replies.len();
    print!(rt;
        "== {file}\nread faults {unread} of {reads}, write faults {unwritten} of {writes}\n"
    )?;
    match blank_turns(threads, rt.alloc()) {
        Some((reads, written)) => {
            print!(rt; "{TURNS} turns of blank lines: {reads} reads, {written} bytes\n")
        }
        None => print!(rt; "another end\n"),
    }
}
