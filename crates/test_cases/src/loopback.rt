//! A daemon whose listener and connections are in memory: what a peer is told, and how serving ends.
ghost use Rattle.std.specs.Prelude.{◌≤◌, length};

use go_wire_core::ServeEnd;
use govisd_service::{Serving, run_serve};
use std::alloc::{AllocError, Global};
use std::io::{Eprint, ErrorKind, Read, Write};
use std::net::{IpAddr, Ipv4Addr, OpenListener, OpenStream, Shutdown, SocketAddr};
use std::sync::atomic::{AtomicBool, AtomicU64, Ordering};
use std::sync::{Arc, Mutex, Wait};
use std::thread::Threads;
use std::time::{Clock, Duration};
use std::{fs, io};

/// The most bytes of one read or write.
const STEP: usize = 100;

/// How many packages are compiled at once.
const WORKERS: usize = 2;

/// What a peer sends, of which so many bytes were read, and what it is told.
#[derive(Drop)]
struct Peer {
    lines: Vec<u8>,
    sent: usize,
    told: Vec<u8>,
}

impl Peer {
    /// What was not read yet.
    fn rest(&self) -> &[u8] {
        match self.lines.get(self.sent..) {
            Some(rest) => rest,
            None => &[],
        }
    }
}

/// An end of the connection to a peer, which one thread has.
#[derive(Drop)]
struct Stream {
    peer: Arc<Mutex<Peer>>,
}

/// Puts the first bytes into a buffer, and says how many.
fn put_first(bytes: &[u8], buf: &mut [u8]) -> usize
    ensures { result ≤ length buf.new }
{
    let count = STEP.min(buf.len()).min(bytes.len());
    let (front, _) = bytes.split_at(count);
    buf[..count].copy_from_slice(front);
    count
}

impl Read for Stream {
    fn read(&mut self, buf: &mut [u8]) -> io::Result<usize> {
        match self.peer.try_lock() {
            Some(mut peer) => {
                let count = put_first(peer.rest(), buf);
                peer.sent = peer.sent.saturating_add(count);
                Ok(count)
            }
            None => Err(io::Error::from(ErrorKind::WouldBlock)),
        }
    }
}

impl Write for Stream {
    fn write(&mut self, buf: &[u8]) -> io::Result<usize> {
        let part = buf.get(..STEP).unwrap_or(buf);
        match self.peer.try_lock() {
            Some(mut peer) => {
                peer.told.extend_from_slice(part)?;
                Ok(part.len())
            }
            None => Err(io::Error::from(ErrorKind::WouldBlock)),
        }
    }

    fn flush(&mut self) -> io::Result<()> {
        Ok(())
    }
}

impl OpenStream for Stream {
    fn shutdown(&self, _how: Shutdown) -> io::Result<()> {
        Ok(())
    }

    fn set_read_timeout(&self, _limit: Option<Duration>) -> io::Result<()> {
        Ok(())
    }

    fn try_clone(&self) -> io::Result<Stream> {
        let peer = Arc::try_clone(&self.peer)?;
        Ok(Stream { peer })
    }
}

/// Gives one connection to a peer. Before it an accept finds a peer that is gone and another wants memory, and after it each fails for good.
#[derive(Drop)]
struct Door {
    peer: Arc<Mutex<Peer>>,
    accepts: AtomicU64,
}

impl OpenListener for Door {
    type Stream = Stream;

    fn accept(&self) -> io::Result<(Stream, SocketAddr)> {
        match self.accepts.fetch_add(1, Ordering::SeqCst) {
            0 => Err(io::Error::from(ErrorKind::ConnectionAborted)),
            1 => Err(io::Error::from(ErrorKind::OutOfMemory)),
            2 => {
                let peer = Arc::try_clone(&self.peer)?;
                let place = SocketAddr::new(IpAddr::V4(Ipv4Addr::LOCALHOST), 1);
                Ok((Stream { peer }, place))
            }
            _ => Err(io::Error::from(ErrorKind::Other)),
        }
    }
}

/// A peer that sends lines.
fn peer_of(alloc: Global, lines: &[u8]) -> Result<Arc<Mutex<Peer>>, AllocError> {
    let mut sends = Vec::new(alloc);
    sends.extend_from_slice(lines)?;
    let peer = Peer {
        lines: sends,
        sent: 0,
        told: Vec::new(alloc),
    };
    Ok(Arc::new(alloc, Mutex::new(peer))?)
}

/// How serving so many connections ends, and what the peer was told.
fn served<T: Threads + Wait + Clock + Eprint + Sync>(
    threads: &T,
    alloc: Global,
    lines: &[u8],
    connections: Option<u64>,
) -> Result<(ServeEnd, Vec<u8>), AllocError> {
    let peer = peer_of(alloc, lines)?;
    let door = Door {
        peer: Arc::try_clone(&peer)?,
        accepts: AtomicU64::new(0),
    };
    let serving = Serving {
        workers: WORKERS,
        connections,
        idle: 0,
        stall: 0,
    };
    let ending = Arc::new(alloc, AtomicBool::new(false))?;
    let end = run_serve(threads, alloc, door, serving, ending);
    match Arc::into_inner(peer) {
        Some(peer) => Ok((end, peer.into_inner().told)),
        None => Err(AllocError),
    }
}

/// The name of an end.
fn name_of(end: ServeEnd) -> &'static str {
    match end {
        ServeEnd::Done => "done",
        ServeEnd::ReadFault => "read fault",
        _ => "another end",
    }
}

/// Writes what a peer is told that sends the lines of a file over the one connection of a daemon, and how serving ends after it, and after another accept
/// that fails.
///
/// # Errors
///
/// The error of the file or of standard output.
pub fn show_loopback<T: Threads + Wait + Clock + Eprint + Sync>(
    rt: &HostRuntime,
    threads: &T,
    file: &str,
) -> io::Result<()> {
    let lines = fs::read(rt, file)?;
    let (end, told) = served(threads, rt.alloc(), &lines, Some(1))?;
    let (fault, again) = served(threads, rt.alloc(), &lines, None)?;
    let text = str::from_utf8(told.as_slice()).unwrap_or("");
    let first = name_of(end);
    let second = name_of(fault);
    let replies = if again.as_slice() == told.as_slice() {
        "the same"
    } else {
        "other"
    };
    print!(rt; "== {file}\n{text}{first}; {second}, with {replies} replies\n")
}
