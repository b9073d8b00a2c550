//! What the connections of a daemon share, and how they wait.
use crate::notices::{Notice, Tells};
use std::alloc::Global;
use std::io;
use std::io::{Eprint, ErrorKind, Read};
use std::sync::Arc;
use std::sync::atomic::{AtomicBool, AtomicU64, Ordering};

/// How a daemon serves.
#[derive(Clone, Copy)]
pub struct Serving {
    /// How many packages are compiled at once.
    pub workers: usize,
    /// After how many connections it ends, if it does.
    pub connections: Option<u64>,
    /// How many seconds a peer may send nothing while it waits for no reply. 0 is without end.
    pub idle: u64,
    /// How many seconds a peer may read nothing of a reply. 0 is without end.
    pub stall: u64,
}

/// What the connections of a daemon share.
#[derive(Drop)]
pub(crate) struct Door {
    /// How the daemon serves.
    pub(crate) serving: Serving,
    /// Whether it is to end.
    ending: Arc<AtomicBool, Global>,
    /// How many connections are served.
    pub(crate) open: AtomicU64,
    // What was told.
    modules: AtomicBool,
    filling: AtomicBool,
    history: AtomicBool,
    memory: AtomicBool,
}

impl Door {
    /// The door of a daemon that ends once the flag is set. No connection is served, and nothing was told.
    pub(crate) fn new(serving: Serving, ending: Arc<AtomicBool, Global>) -> Door {
        Door {
            serving,
            ending,
            open: AtomicU64::new(0),
            modules: AtomicBool::new(false),
            filling: AtomicBool::new(false),
            history: AtomicBool::new(false),
            memory: AtomicBool::new(false),
        }
    }

    /// Whether the daemon is to end.
    pub(crate) fn is_ending(&self) -> bool {
        self.ending.load(Ordering::SeqCst)
    }

    // Whether a notice is the first of its kind.
    fn is_first(&self, notice: Notice) -> bool {
        match notice {
            Notice::Modules => !self.modules.swap(true, Ordering::SeqCst),
            Notice::Filling => !self.filling.swap(true, Ordering::SeqCst),
            Notice::History => !self.history.swap(true, Ordering::SeqCst),
            Notice::Memory => !self.memory.swap(true, Ordering::SeqCst),
        }
    }
}

/// Who tells notices on standard error.
#[derive(Drop)]
pub(crate) struct Teller<'a, H> {
    /// What writes there.
    pub(crate) rt: &'a H,
    /// What knows what was told.
    pub(crate) door: &'a Door,
}

impl<H: Eprint> Tells for Teller<'_, H> {
    fn tell(&self, notice: Notice) {
        if self.door.is_first(notice) {
            // Where this fails, there is nobody left to tell.
            let _told = self.rt.eprint(notice.line());
        }
    }
}

/// A stream of which a read looks each second whether the daemon ends, and fails then, or once nothing came for the time that a peer has.
///
/// The stream's own reads are to end after a second ([`LOOK`]).
#[derive(Drop)]
pub(crate) struct Patient<'a, S: Drop> {
    /// The stream.
    pub(crate) stream: S,
    /// What the connections share.
    pub(crate) door: &'a Door,
}

/// After how many seconds a read looks whether the daemon ends.
pub(crate) const LOOK: u64 = 1;

// How often a read looks before it fails.
fn looks_in(seconds: u64) -> u64 {
    if seconds == 0 {
        return u64::MAX;
    }
    seconds
}

impl<S: Read + Drop> Read for Patient<'_, S> {
    fn read(&mut self, buf: &mut [u8]) -> io::Result<usize> {
        for _ in 0..looks_in(self.door.serving.idle) {
            if self.door.is_ending() {
                return Err(io::Error::from(ErrorKind::TimedOut));
            }
            match self.stream.read(buf) {
                Ok(count) => return Ok(count),
                Err(error) if error.kind() == ErrorKind::WouldBlock => (),
                Err(error) => return Err(error),
            }
        }
        Err(io::Error::from(ErrorKind::TimedOut))
    }
}
