//! Connections: each has a session of its own.
ghost use Rattle.std.specs.Prelude.{◌≡◌, ◌<◌, false, IfSome};
ghost use Rattle.go_wire_core.specs.outputs.Outputs.{IsWrittenOut};
ghost use Rattle.govisd_service.specs.Ends.{IsConnection, turned_away};

use crate::desks::ConnectionDesk;
use crate::door::{Door, LOOK, Patient, Serving, Teller};
use crate::notices::Tells;
use crate::workers::start;
use crate::{PARTS, STACK, TURNS};
use go_hall::Hall;
use go_hall::hall_core::{Named, Stamps};
use go_wire_core::outputs::write_out;
use go_wire_core::{CountedReader, ServeEnd, serve};
use std::alloc::Global;
use std::io::{Eprint, ErrorKind, Read, Write};
use std::marker::Brand;
use std::net::{OpenListener, OpenStream, Shutdown};
use std::sync::atomic::{AtomicBool, Ordering};
use std::sync::ledger::Blank;
use std::sync::{Arc, Wait};
use std::thread;
use std::thread::{Builder, Scope, Threads};
use std::time::{Clock, Duration};

/// The most connections that are served at once.
const CONNECTIONS: u64 = 32;

/// How many milliseconds pass before an accept that failed is made again.
const PAUSE: u64 = 10;

/// How often a connection that comes to a full house looks again for a place, with a pause before each look: one that has ended may not be counted out yet.
const LOOKS: u64 = 5;

/// How many milliseconds the end of a connection waits for what still comes.
const DRAIN: u64 = 25;

/// How often it does, and how much it takes at once: where a connection ended, what is behind a line that is too long.
const DRAINS: usize = 64;

const DRAINED: usize = 65_536;

/// How often it does where a connection was turned away, which holds up the next.
const TURNED_DRAINS: usize = 8;

/// Errors of accept(2) that say nothing of the listener, by their numbers in Linux, where a kind does not tell them: ENFILE, EMFILE, ENOSR, ENONET,
/// EPROTO, ENOPROTOOPT, EPROTONOSUPPORT, ESOCKTNOSUPPORT, ENOBUFS and EHOSTDOWN.
const PASSING: [i32; 10] = [23, 24, 63, 64, 71, 92, 93, 94, 105, 112];

/// Serves a connection: the lines of one session, in order, each with its reply. At its end the session is closed. What replies show of the daemon is told.
///
/// The end is that of [`serve`], of 16,777,216 turns.
#[tactic(auto, using(crate::proofs::LinesServed::connection_served))]
pub fn serve_connection<L: Named, H: Wait, T: Tells, R: Read, W: Write>(
    rt: &H,
    alloc: Global,
    hall: &Hall<L>,
    teller: &T,
    reader: &mut CountedReader<R>,
    writer: &mut W,
) -> ServeEnd
    requires unread { reader.old.reads ≡ 0 }
    requires sound { reader.old.failed ≡ false }
    ensures { IfSome (R.remaining reader.old.reader) (λ bytes. IsConnection result bytes (R.remaining reader.new.reader) (W.contents writer.old) (W.contents writer.new)) }
{
    let mut desk = ConnectionDesk::new(alloc, hall, teller);
    let end = serve(rt, alloc, reader, writer, &mut desk, TURNS);
    desk.close(rt);
    end
}

// Tells a connection that there are too many.
fn turn_away<W: Write>(writer: &mut W) -> Result<(), ErrorKind>
    ensures { IsWrittenOut (W.contents writer.old) (W.contents writer.new) turned_away result }
{
    write_out(writer, b"{\"err\":\"O4\"}\n")
}

// Reads what still comes to a stream that is written no more, so many times.
fn drain<S: Read>(stream: &mut S, drains: usize) {
    let mut buffer = [0u8; DRAINED];
    for _ in 0..drains {
        match stream.read(&mut buffer) {
            Ok(0) => return,
            Ok(_) => (),
            Err(_) => return,
        }
    }
}

// Ends a stream: what was written is sent, and what still comes is read for a short while. Else the system answers it by a reset, and the peer may lose the
// last line.
fn end_stream<S: Read + OpenStream>(stream: &mut S, drains: usize) {
    if stream.shutdown(Shutdown::Write).is_err() {
        return;
    }
    if stream
        .set_read_timeout(Some(Duration::from_millis(DRAIN)))
        .is_ok()
    {
        drain(stream, drains);
    }
}

// Whether a connection more may be served: at once, or after a short while.
fn has_place<H: Clock>(rt: &H, door: &Door) -> bool {
    for _ in 0..LOOKS {
        if door.open.load(Ordering::SeqCst) < CONNECTIONS {
            return true;
        }
        thread::sleep(rt, Duration::from_millis(PAUSE));
    }
    door.open.load(Ordering::SeqCst) < CONNECTIONS
}

// How long a write may wait, by so many seconds. 0 is without end.
fn wait_of(seconds: u64) -> Option<Duration> {
    if seconds == 0 {
        return None;
    }
    Some(Duration::from_secs(seconds))
}

// Serves a stream, and counts it out. A read or a write that waits too long fails, and ends it.
fn serve_stream<L: Named, H: Wait + Eprint, S: Read + Write + OpenStream + Drop>(
    rt: &H,
    alloc: Global,
    hall: &Hall<L>,
    door: &Door,
    stream: S,
) {
    let _set = stream.set_nodelay(true);
    let _look = stream.set_read_timeout(Some(Duration::from_secs(LOOK)));
    let _limit = stream.set_write_timeout(wait_of(door.serving.stall));
    let other = stream.try_clone();
    let mut reader = CountedReader::new(Patient { stream, door });
    if let Ok(mut writer) = other {
        let teller = Teller { rt, door };
        let _end = serve_connection(rt, alloc, hall, &teller, &mut reader, &mut writer);
    }
    let mut patient = reader.into_reader();
    end_stream(&mut patient.stream, DRAINS);
    drop(patient);
    let _before = door.open.fetch_sub(1, Ordering::SeqCst);
}

// Takes a connection in, or turns it away where 32 are served.
fn take_in<
    's,
    E,
    L: Named + Send + Sync,
    H: Threads + Wait + Clock + Eprint + Sync,
    S: Read + Write + OpenStream + Send + Drop + 's,
>(scope: &Scope<'s, E>, rt: &'s H, alloc: Global, hall: &'s Hall<L>, door: &'s Door, stream: S) {
    if !has_place(rt, door) {
        let mut stream = stream;
        let _told = turn_away(&mut stream);
        end_stream(&mut stream, TURNED_DRAINS);
        return;
    }
    let _before = door.open.fetch_add(1, Ordering::SeqCst);
    let connection = Builder::new().stack_size(STACK);
    if connection
        .spawn_scoped(scope, move || serve_stream(rt, alloc, hall, door, stream))
        .is_err()
    {
        let _before = door.open.fetch_sub(1, Ordering::SeqCst);
    }
}

// Whether an accept that failed by an error of this kind found nobody, a connection that was gone before it was taken or was refused by a rule of the system,
// was interrupted, or wanted memory.
fn is_passing_kind(kind: ErrorKind) -> bool {
    match kind {
        ErrorKind::ConnectionAborted => true,
        ErrorKind::ConnectionReset => true,
        ErrorKind::HostUnreachable => true,
        ErrorKind::NetworkUnreachable => true,
        ErrorKind::NetworkDown => true,
        ErrorKind::Interrupted => true,
        ErrorKind::OutOfMemory => true,
        ErrorKind::PermissionDenied => true,
        ErrorKind::TimedOut => true,
        ErrorKind::Unsupported => true,
        ErrorKind::WouldBlock => true,
        _ => false,
    }
}

// Whether an accept that failed so is made again.
fn is_passing(kind: ErrorKind, number: Option<i32>) -> bool {
    match number {
        Some(number) => is_passing_kind(kind) || PASSING.contains(&number),
        None => is_passing_kind(kind),
    }
}

// Accepts so many connections, or until the daemon is to end, and closes the listener: who comes later is refused by the system.
fn accept_all<
    's,
    E,
    L: Named + Send + Sync,
    H: Threads + Wait + Clock + Eprint + Sync,
    A: OpenListener<Stream = S> + Drop,
    S: Read + Write + OpenStream + Send + Drop + 's,
>(
    scope: &Scope<'s, E>,
    rt: &'s H,
    alloc: Global,
    hall: &'s Hall<L>,
    door: &'s Door,
    listener: A,
) -> ServeEnd {
    let mut accepted = 0u64;
    for _ in rt.forever() {
        if door.is_ending() || door.serving.connections == Some(accepted) {
            return ServeEnd::Done;
        }
        match listener.accept() {
            Ok((stream, _)) => {
                accepted = accepted.wrapping_add(1);
                take_in(scope, rt, alloc, hall, door, stream);
            }
            Err(error) if is_passing(error.kind(), error.raw_os_error()) => {
                thread::sleep(rt, Duration::from_millis(PAUSE));
            }
            Err(_) => return ServeEnd::ReadFault,
        }
    }
    unreachable!()
}

// Serves the connections of a listener in a hall that has workers, until the last has ended.
fn serve_counted<
    L: Named + Send + Sync,
    H: Threads + Wait + Clock + Eprint + Sync,
    A: OpenListener<Stream = S> + Drop,
    S: Read + Write + OpenStream + Send + Drop,
>(rt: &H, alloc: Global, hall: &Hall<L>, door: &Door, listener: A) -> ServeEnd {
    thread::scope(thread::scope_env(), rt, move |scope| {
        accept_all(scope, rt, alloc, hall, door, listener)
    })
}

// Starts the workers of a hall, serves the connections of a listener and stops the hall.
fn serve_in<
    's,
    E,
    L: Named + Send + Sync,
    H: Threads + Wait + Clock + Eprint + Sync,
    A: OpenListener<Stream = S> + Drop,
    S: Read + Write + OpenStream + Send + Drop,
>(
    scope: &Scope<'s, E>,
    rt: &'s H,
    alloc: Global,
    hall: &'s Hall<L>,
    door: Door,
    listener: A,
) -> ServeEnd {
    let end = if start(scope, rt, hall, door.serving.workers) {
        serve_counted(rt, alloc, hall, &door, listener)
    } else {
        ServeEnd::Memory
    };
    hall.stop(rt);
    end
}

// Serves the connections of a listener in a hall, with workers beside it.
fn serve_beside<
    L: Named + Send + Sync,
    H: Threads + Wait + Clock + Eprint + Sync,
    A: OpenListener<Stream = S> + Drop,
    S: Read + Write + OpenStream + Send + Drop,
>(rt: &H, alloc: Global, hall: &Hall<L>, door: Door, listener: A) -> ServeEnd {
    thread::scope(thread::scope_env(), rt, move |scope| {
        serve_in(scope, rt, alloc, hall, door, listener)
    })
}

// Serves the connections of a listener in a hall of its own, under the name of a ledger.
fn serve_named<
    L: Named + Send + Sync,
    H: Threads + Wait + Clock + Eprint + Sync,
    A: OpenListener<Stream = S> + Drop,
    S: Read + Write + OpenStream + Send + Drop,
>(rt: &H, alloc: Global, blank: Blank, stamps: Stamps, door: Door, listener: A) -> ServeEnd
    requires ledger { (blank.name ≡ L.name) × (blank.parts ≡ L.parts) × (L.all ≡ L.parts) × (1048576 < L.all) }
    requires stamps { stamps.seen.book ≡ L.book }
{
    match Hall::<L>::new(alloc, blank, stamps) {
        Ok(hall) => serve_beside(rt, alloc, &hall, door, listener),
        Err(_) => ServeEnd::Memory,
    }
}

/// Serves the connections of a listener in a hall of its own. Each connection has lines without numbers and at most one session at a time, which is closed
/// where the connection ends, for whatever cause. At most 32 are served at once; another waits a twentieth of a second for a place, and is then told
/// `{"err":"O4"}` and closed. A peer that reads nothing of a reply for the time that it has is closed, and so is one that sends nothing so long while it
/// waits for no reply. A connection that ends is written no more, and what still comes is read for a while, so that the last line arrives.
///
/// Once the flag is set no connection more is accepted, and those that wait for no reply are closed within a second, others behind their reply. It is seen
/// where an accept ends: the listener's own accepts are to end after a while.
///
/// [`ServeEnd::Done`] once so many connections came, where a number is given, those that were turned away among them, and where the flag is set;
/// [`ServeEnd::ReadFault`] where an accept failed; [`ServeEnd::Memory`], with nothing accepted, where a hall or its workers cannot be made. The listener is
/// closed once no connection more is accepted. At each end the connections that are served have ended, the hall is stopped and its workers have ended. An
/// accept is made again after 10 milliseconds where nobody came, the connection was gone before it was taken, or a file descriptor or memory was wanting.
///
/// What a [`Notice`] says is told on standard error once each.
///
/// [`Notice`]: crate::Notice
pub fn run_serve<
    H: Threads + Wait + Clock + Eprint + Sync,
    A: OpenListener<Stream = S> + Drop,
    S: Read + Write + OpenStream + Send + Drop,
>(
    rt: &H,
    alloc: Global,
    listener: A,
    serving: Serving,
    ending: Arc<AtomicBool, Global>,
) -> ServeEnd {
    serve_named::<Brand, H, A, S>(
        rt,
        alloc,
        Blank::new(PARTS),
        Stamps::new(),
        Door::new(serving, ending),
        listener,
    )
}
