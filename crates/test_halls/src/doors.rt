//! Gates that hold actions, or are closed behind so many.
use govisd_service::hall::Gate;
use govisd_service::sched_core::Action;
use std::sync::atomic::{AtomicU64, Ordering};
use std::thread;
use std::time::{Clock, Duration};

/// How often a thread looks before it waits no longer.
const TURNS: u64 = 10_000;

/// How often an action lets other threads run between two looks.
const PAUSES: u64 = 1_000;

/// A gate that so many actions pass. Each is held inside until the doors are open, or for its turns.
#[derive(Drop)]
pub(crate) struct Doors {
    most: u64,
    inside: AtomicU64,
    opened: AtomicU64,
}

impl Doors {
    /// Open doors, through which nothing came.
    pub(crate) fn new(most: u64) -> Doors {
        Doors {
            most,
            inside: AtomicU64::new(0),
            opened: AtomicU64::new(1),
        }
    }

    /// From now on what comes in is held.
    pub(crate) fn close(&self) {
        self.inside.store(0, Ordering::SeqCst);
        self.opened.store(0, Ordering::SeqCst);
    }

    /// Lets go what is held.
    pub(crate) fn open(&self) {
        self.opened.store(1, Ordering::SeqCst);
    }

    /// Waits until so many actions came in since the doors were closed, and tells whether they did within the turns.
    pub(crate) fn await_inside<H: Clock>(&self, rt: &H, count: u64) -> bool {
        for _ in 0..TURNS {
            if self.inside.load(Ordering::SeqCst) >= count {
                return true;
            }
            thread::sleep(rt, Duration::from_millis(1));
        }
        false
    }

    /// Waits until the doors are open, or for the turns.
    fn await_open(&self) {
        for _ in 0..TURNS {
            if self.opened.load(Ordering::SeqCst) == 1 {
                return;
            }
            for _ in 0..PAUSES {
                thread::yield_now();
            }
        }
    }
}

impl Gate for Doors {
    fn lets(&self, _action: &Action) -> bool {
        if self.inside.fetch_add(1, Ordering::SeqCst) >= self.most {
            return false;
        }
        self.await_open();
        true
    }
}
