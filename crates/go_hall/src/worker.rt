//! Workers.
ghost use Rattle.std.specs.Prelude.{◌≡◌, IfOk};

use crate::hall::Hall;
use go_batch_core::{ReadPart, earlier_of};
use go_hall_core::sched_core::{Action, Reply};
use go_hall_core::{Counted, Errand, Named, Seen};
use go_path_core::text_core::Rule;
use std::alloc::{AllocError, Global};
use std::sync::{CondvarTimeouts, Wait};
use std::thread::Threads;
use std::time::{Clock, Duration};

/// Lets actions be done, with no lock held. It is not asked of an action whose part was known as it was taken.
pub trait Gate {
    /// Whether the work of an action may be done: not where the gate is closed.
    fn lets(&self, action: &Action) -> bool;
}

/// A gate that is never closed.
#[derive(Clone, Copy)]
pub struct OpenGate;

impl Gate for OpenGate {
    fn lets(&self, _action: &Action) -> bool {
        true
    }
}

// Does an action's work, with no lock held. Where the package was published with the same input, its part is the one of then; else it is compiled over what
// the worker sees, its files in pieces of source at once. Inputs that seem to be others are not compared.
fn part_of<L: Named, R: Threads + Sync>(
    rt: &R,
    alloc: Global,
    errand: &Errand<L>,
    seen: &mut Seen<L>,
) -> Result<ReadPart, AllocError>
    ensures { IfOk result (λ p. p.input ≡ errand.now.action.input) }
{
    let earlier = if errand.action.other {
        None
    } else {
        errand.action.earlier.as_ref()
    };
    let part = seen.rebuild(rt, alloc, errand, earlier)?;
    Ok(part)
}

/// How a worker ends.
#[derive(Clone, Copy, PartialEq, Eq, Debug)]
pub enum WorkEnd {
    /// The hall was stopped.
    Stopped,
    /// The gate was closed.
    GateClosed,
}

// Ends an action by the part that its input has with it. None where it has none, and where memory is wanting: the action is then as it was taken.
fn finish_standing<L: Named, R: Wait>(
    rt: &R,
    state: &mut Counted<L>,
    errand: &Errand<L>,
) -> Option<Reply> {
    let Ok(Some(part)) = earlier_of(&errand.action.input, None) else {
        return None;
    };
    match state.finish(rt, errand, part) {
        Reply::Refused(_) => None,
        reply => Some(reply),
    }
}

// Ends an action whose part is known as it is taken. None where it has work to do, and where memory is wanting: the action is then as it was taken.
fn finish_at_once<L: Named, R: Wait>(
    rt: &R,
    state: &mut Counted<L>,
    errand: &Errand<L>,
) -> Option<Reply> {
    match errand.action.kept {
        Some(place) => state.finish_kept(rt, place, errand.action.number),
        None => finish_standing(rt, state, errand),
    }
}

// Waits for the next action that has work to do. One whose part is known as it is taken is finished at once, where memory is at hand, and after it sessions
// that wait for the lock have it. `None` where the hall is stopped. Where memory is wanting it tries again a millisecond later, or where something changed;
// builds give up after some seconds of that.
fn next<L: Named, R: Wait + Clock>(rt: &R, hall: &Hall<L>) -> Option<Errand<L>> {
    let mut state = hall.state.lock(rt);
    for _ in rt.forever() {
        if state.is_stopped() {
            return None;
        }
        match state.take(rt) {
            Ok(errand) => {
                hall.note_taken();
                match finish_at_once(rt, &mut state, &errand) {
                    None => {
                        // Others may be ready beside it.
                        hall.work.notify_all();
                        return Some(errand);
                    }
                    Some(Reply::Published(_)) => hall.built.notify_all(),
                    Some(_) => {}
                }
                if hall.is_wanted() {
                    state = hall
                        .work
                        .wait_timeout(rt, state, Duration::from_millis(1))
                        .0;
                }
            }
            Err(reply) => match reply {
                Reply::Published(_) => {
                    hall.note_taken();
                    hall.built.notify_all();
                }
                Reply::Refused(_) => {
                    hall.note_refused();
                    state = hall
                        .work
                        .wait_timeout(rt, state, Duration::from_millis(1))
                        .0;
                }
                _ => {
                    hall.note_taken();
                    state = hall.work.wait(rt, state);
                }
            },
        }
    }
    unreachable!()
}

// Hands a part in, and tells whether its batch is over. Where memory is wanting, the batch is given back. Workers are waked for the actions after it, and
// builds where the batch is over.
fn finish<L: Named, R: Wait>(rt: &R, hall: &Hall<L>, errand: &Errand<L>, part: ReadPart) -> bool
    requires { part.input ≡ errand.now.action.input }
{
    let mut state = hall.state.lock(rt);
    let is_over = match state.finish(rt, errand, part) {
        Reply::Refused(Rule::M0) => {
            state.give_back(errand.action.generation);
            true
        }
        Reply::Published(_) => true,
        _ => false,
    };
    drop(state);
    hall.work.notify_all();
    if is_over {
        hall.built.notify_all();
    }
    is_over
}

// Gives the batch of an action back.
fn give_back<L: Named, R: Wait>(rt: &R, hall: &Hall<L>, action: &Action) {
    hall.state.lock(rt).give_back(action.generation);
    hall.work.notify_all();
    hall.built.notify_all();
}

/// Works until the hall is stopped or the gate is closed. Where the gate is closed or memory is wanting, the batch is given back.
pub fn work<L: Named, G: Gate, R: Threads + Wait + Clock + Sync>(
    rt: &R,
    hall: &Hall<L>,
    gate: &G,
) -> WorkEnd {
    let mut seen = Seen::new();
    for _ in rt.forever() {
        let Some(errand) = next(rt, hall) else {
            return WorkEnd::Stopped;
        };
        if !gate.lets(&errand.action) {
            give_back(rt, hall, &errand.action);
            return WorkEnd::GateClosed;
        }
        match part_of(rt, hall.alloc, &errand, &mut seen) {
            Ok(part) => {
                if finish(rt, hall, &errand, part) {
                    seen.forget();
                }
            }
            Err(_) => give_back(rt, hall, &errand.action),
        }
    }
    unreachable!()
}
