//! The workers of a hall.
use crate::STACK;
use go_hall::hall_core::Named;
use go_hall::{Hall, OpenGate, work};
use std::sync::Wait;
use std::thread::{Builder, Scope, Threads};
use std::time::Clock;

/// Starts so many workers in a scope. `false` where not all of them can be started.
pub(crate) fn start<'s, E, L: Named + Send + Sync, H: Threads + Wait + Clock + Sync>(
    scope: &Scope<'s, E>,
    rt: &'s H,
    hall: &'s Hall<L>,
    workers: usize,
) -> bool {
    for _ in 0..workers {
        let worker = Builder::new().stack_size(STACK);
        if worker
            .spawn_scoped(scope, move || work(rt, hall, &OpenGate))
            .is_err()
        {
            return false;
        }
    }
    true
}
