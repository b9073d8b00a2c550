//! Scripts and daemons: Go sessions that are served.
ghost use Rattle.std.specs.Prelude.{◌≡◌, ℕ, List, IfOk, string_bytes};
ghost use Rattle.govisd_words.specs.Listening.{IsListeningText};
ghost use Rattle.govisd.specs.Daemons.{RefusesAddress, RefusesWord, Scripts as ServesScript, Serves as ServesDaemon, ServesAt, ServesThere};
ghost use Rattle.govisd.specs.Says.{SaysMore};
ghost use Rattle.govisd_words.specs.Texts.{unbound_text as text_of_unbound};

use crate::program::{Ended, Ran, run_out, tell};
use govisd_service::{Served, Serving, run_script, run_serve};
use govisd_words::{
    Daemon, Place, bad_address_text, listening_text, place_of, script_end_text, serve_end_text,
    serve_status, unbound_text,
};
use std::alloc::{AllocError, Global};
use std::io;
use std::io::{Eprint, Read, Write};
use std::net::{Ipv4Addr, Ipv6Addr, Net, SocketAddr, TcpListener, TcpStream};
use std::os::fd::OwnedFd;
use std::sync::atomic::AtomicBool;
use std::sync::{Arc, Wait};
use std::thread::Threads;
use std::time::{Clock, Duration};

/// After how many seconds an accept of a daemon that ends with its input looks whether that has ended.
const LOOK: u64 = 1;

/// What watches the standard input.
pub trait Watches {
    /// Begins to watch it. The flag is set once the input has ended, or cannot be read.
    ///
    /// # Errors
    ///
    /// `AllocError` for want of memory, or of threads.
    fn watch(&self) -> Result<Arc<AtomicBool, Global>, AllocError>;
}

// An address that is listened at.
#[derive(Drop)]
struct Listening {
    // What listens.
    listener: TcpListener,
    // The address and the port.
    place: SocketAddr,
}

/// A script with so many workers, from the reader to the writer. Where it ends before its input does, it says why.
pub fn script<T: Threads + Wait + Clock + Sync, R: Read + Drop, W: Write + Drop, E: Write>(
    rt: &T,
    alloc: Global,
    reader: R,
    out: W,
    err: &mut E,
    workers: usize,
) -> Ended<R, W>
    ensures { ServesScript result.ran (R.remaining reader) (R.remaining result.reader) (W.contents out) (W.contents result.out) (E.contents err.old) (E.contents err.new) }
{
    let Served {
        end,
        reader,
        writer,
    } = run_script(rt, alloc, reader, out, workers);
    let is_told = tell(err, script_end_text(end));
    Ended {
        ran: Ran {
            status: serve_status(end),
            is_told,
        },
        reader,
        out: writer,
    }
}

// Says some more behind what was to be said before, if that was.
fn tell_more<E: Write>(err: &mut E, is_told: bool, text: &str) -> bool
    ensures { SaysMore is_told result text.now (E.contents err.old) (E.contents err.new) }
{
    if is_told { tell(err, text) } else { false }
}

// How a daemon serves.
fn serving_of(daemon: &Daemon<'_>) -> Serving {
    Serving {
        workers: daemon.workers,
        connections: daemon.connections,
        idle: daemon.waits.idle,
        stall: daemon.waits.stall,
    }
}

// Serves an address that is listened at, which it says first, until the flag is set.
fn serve_there<
    T: Net<Listener = TcpListener, Stream = TcpStream> + Threads + Wait + Clock + Eprint + Sync,
    E: Write,
>(
    rt: &T,
    alloc: Global,
    err: &mut E,
    serving: Serving,
    ending: Arc<AtomicBool, Global>,
    listening: Listening,
    text: &str,
) -> Ran
    requires { IsListeningText listening.place text.now }
    ensures { ServesThere result (E.contents err.old) (E.contents err.new) }
{
    let is_told = tell(err, text);
    let Listening { listener, place: _ } = listening;
    let end = run_serve(rt, alloc, listener, serving, ending);
    Ran {
        status: serve_status(end),
        is_told: tell_more(err, is_told, serve_end_text(end)),
    }
}

// Why an address cannot be listened at, as it is said.
fn why_unbound(alloc: Global, address: &str, error: &io::Error) -> Result<String, AllocError>
    ensures { IfOk result (λ text. (why : List ℕ) × (string_bytes text ≡ text_of_unbound address.now why)) }
{
    let why = error.to_string(alloc)?;
    let text = unbound_text(alloc, address, why.as_str())?;
    Ok(text)
}

// Says that an address cannot be listened at.
fn refuse_address<E: Write>(alloc: Global, err: &mut E, address: &str, error: &io::Error) -> Ran
    ensures { RefusesAddress address.now result (E.contents err.old) (E.contents err.new) }
{
    match why_unbound(alloc, address, error) {
        Ok(text) => {
            let is_told = tell(err, text.as_str());
            Ran { status: 1, is_told }
        }
        Err(AllocError) => run_out(err),
    }
}

// Says that a word is no address.
fn refuse_word<E: Write>(alloc: Global, err: &mut E, address: &str) -> Ran
    ensures { RefusesWord address.now result (E.contents err.old) (E.contents err.new) }
{
    match bad_address_text(alloc, address) {
        Ok(text) => {
            let is_told = tell(err, text.as_str());
            Ran { status: 2, is_told }
        }
        Err(AllocError) => run_out(err),
    }
}

// Each address of the machine, at a port: by version 6 of the protocol, which takes version 4 too, and by version 4 where that cannot be had.
fn everywhere(port: u16) -> [SocketAddr; 2] {
    [
        SocketAddr::from((Ipv6Addr::UNSPECIFIED, port)),
        SocketAddr::from((Ipv4Addr::UNSPECIFIED, port)),
    ]
}

// What listens at an address.
fn listener_at<T: Net<Listener = TcpListener, Stream = TcpStream>>(
    rt: &T,
    address: &str,
    place: Place,
) -> io::Result<TcpListener> {
    match place {
        Place::Everywhere(port) => TcpListener::bind(rt, everywhere(port).as_slice()),
        Place::Told => TcpListener::bind(rt, address),
    }
}

// A listener whose accepts end after a while. The system keeps one time for what is read and what is accepted.
fn with_looks(listener: TcpListener) -> io::Result<TcpListener> {
    let socket = TcpStream::from(OwnedFd::from(listener));
    socket.set_read_timeout(Some(Duration::from_secs(LOOK)))?;
    Ok(TcpListener::from(OwnedFd::from(socket)))
}

// Listens at an address.
fn listen<T: Net<Listener = TcpListener, Stream = TcpStream>>(
    rt: &T,
    daemon: &Daemon<'_>,
    place: Place,
) -> io::Result<Listening> {
    let bound = listener_at(rt, daemon.address, place)?;
    let listener = if daemon.until_input_ends {
        with_looks(bound)?
    } else {
        bound
    };
    let place = listener.local_addr()?;
    Ok(Listening { listener, place })
}

// The flag by which a daemon ends: with its input, or never.
fn ending_of<X: Watches>(
    alloc: Global,
    watches: &X,
    daemon: &Daemon<'_>,
) -> Result<Arc<AtomicBool, Global>, AllocError> {
    if daemon.until_input_ends {
        return watches.watch();
    }
    Ok(Arc::new(alloc, AtomicBool::new(false))?)
}

// A daemon at an address: it says where it listens, and serves there, or that it cannot listen.
fn serve_at<
    T: Net<Listener = TcpListener, Stream = TcpStream> + Threads + Wait + Clock + Eprint + Sync,
    E: Write,
>(
    rt: &T,
    alloc: Global,
    err: &mut E,
    daemon: &Daemon<'_>,
    place: Place,
    ending: Arc<AtomicBool, Global>,
) -> Ran
    ensures { ServesAt daemon.now.address.now result (E.contents err.old) (E.contents err.new) }
{
    match listen(rt, daemon, place) {
        Ok(listening) => match listening_text(alloc, listening.place) {
            Ok(text) => {
                let serving = serving_of(daemon);
                serve_there(rt, alloc, err, serving, ending, listening, text.as_str())
            }
            Err(AllocError) => run_out(err),
        },
        Err(error) => refuse_address(alloc, err, daemon.address, &error),
    }
}

/// A daemon: it says where it listens, and serves there, or that it cannot listen, or that its address is none. Where it ends before its last connection,
/// it says why.
pub fn serve<
    X: Watches,
    T: Net<Listener = TcpListener, Stream = TcpStream> + Threads + Wait + Clock + Eprint + Sync,
    E: Write,
>(rt: &T, alloc: Global, err: &mut E, watches: &X, daemon: &Daemon<'_>) -> Ran
    ensures { ServesDaemon daemon.now.address.now result (E.contents err.old) (E.contents err.new) }
{
    match place_of(daemon.address) {
        Some(place) => match ending_of(alloc, watches, daemon) {
            Ok(ending) => serve_at(rt, alloc, err, daemon, place, ending),
            Err(AllocError) => run_out(err),
        },
        None => refuse_word(alloc, err, daemon.address),
    }
}
