//! How many threads work at once.
ghost use Rattle.std.specs.Prelude.{◌≡◌, IfSome};

use std::thread::Threads;
use std::{env, thread};

/// The most that the environment may say.
const MOST_WORKERS: usize = 64;

/// The most where nobody says how many.
const MOST_UNTOLD: usize = 8;

/// Leave to begin threads, and how many of them work at once.
#[derive(Drop)]
pub(crate) struct Workers<'a, T: Threads> {
    pub threads: &'a T,
    pub count: usize,
}

// The number that `GOVISD_WORKERS` says, where it is one from 1 to 64.
fn said_workers(rt: &HostRuntime) -> Option<usize> {
    let text = env::var(rt, "GOVISD_WORKERS").ok()?;
    let count: usize = text.as_str().parse().ok()?;
    if count < 1 || count > MOST_WORKERS {
        return None;
    }
    Some(count)
}

// One for each processor, 8 at most.
fn processors(threads: &impl Threads) -> usize {
    match thread::available_parallelism(threads) {
        Ok(count) => count.get().min(MOST_UNTOLD),
        Err(_) => 1,
    }
}

/// How many threads work at once: what is told; else the number in `GOVISD_WORKERS`, where that is one from 1 to 64; else one for each processor, 8 at most.
pub(crate) fn workers_of(rt: &HostRuntime, threads: &impl Threads, told: Option<usize>) -> usize
    ensures { IfSome told (λ n. result ≡ n) }
{
    if let Some(count) = told {
        return count;
    }
    match said_workers(rt) {
        Some(count) => count,
        None => processors(threads),
    }
}
