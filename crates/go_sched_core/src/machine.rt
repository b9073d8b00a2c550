//! The state of the core.
ghost use Rattle.std.specs.Prelude.{◌≡◌, ◌≤◌, IfErr, IfOk, length};
ghost use Rattle.go_submit_core.specs.Published.{AreSound};
ghost use Rattle.go_sched_core.specs.Service.{empty};
ghost use Rattle.go_sched_core.specs.Sights.{RunsOnce};

use crate::event::Held;
use crate::rules::MAX_SESSIONS;
use crate::running::Running;
use go_batch_core::{Planned, Steady};
use go_path_core::text_core::Rule;
use go_submit_core::{Batches, Submission};
use std::alloc::Global;
use std::collections::LinkedList;
use std::marker::Model;

/// The service's state. Contracts see it as a `Service`.
pub struct Core {
    pub(crate) alloc: Global,
    pub(crate) accepted: u64,
    pub(crate) opened: u64,
    pub(crate) held: Vec<Held>,
    pub(crate) tickets: u64,
    pub(crate) waiting: LinkedList<Submission>,
    pub(crate) generations: u64,
    pub(crate) actions: u64,
    pub(crate) running: Option<Running>,
    pub(crate) published: Batches,
    // The plan of what is published, where it is known.
    pub(crate) planned: Option<Planned>,
    // What of the last snapshot is as it was in the batch that runs.
    pub(crate) steady: Option<Steady>,
}

impl Drop for Core {
    fn drop(self) {
        let Core {
            alloc: _,
            accepted: _,
            opened: _,
            held: _,
            tickets: _,
            waiting: _,
            generations: _,
            actions: _,
            running: _,
            published: _,
            planned: _,
            steady: _,
        } = self;
    }
}

impl Model for Core {
    ghost use Rattle.std.specs.Prelude.{vec_capacity};
    ghost use Rattle.go_sched_core.specs.Coding.{coded_service};
    ghost use Rattle.go_sched_core.specs.Service.{Service};
    ghost use Rattle.go_sched_core.specs.mirrors.Kept.{IsKept};

    ghost Value = { Service };

    ghost coded = { coded_service };

    ghost view = { λ c. record { accepted = c.accepted; opened = c.opened; held = c.held.items; tickets = c.tickets; waiting = c.waiting; generations = c.generations; actions = c.actions; running = c.running; published = c.published } };

    ghost invariant = { λ c. IsKept c.held.items (vec_capacity c.held) c.published c.running c.planned c.steady };
}

// What the packages of a batch that runs tell is one summary for each path.
fn once_of(running: &Option<Running>)
    ensures { RunsOnce running.now }
{
    match running {
        Some(running) => running.batch.is_told_once(),
        None => {}
    }
}

impl Core {
    /// A core to which nothing happened.
    ///
    /// # Errors
    ///
    /// `Rule::M0` where memory is wanting.
    pub fn new(alloc: Global) -> Result<Core, Rule>
        ensures ok { IfOk result (λ c. c ≡ empty) }
        ensures err { IfErr result (λ rule. rule ≡ Rule.M0) }
    {
        let (Ok(held), Ok(published)) = (
            Vec::with_capacity(alloc, MAX_SESSIONS),
            Batches::new(alloc),
        ) else {
            return Err(Rule::M0);
        };
        Ok(Core {
            alloc,
            accepted: 0,
            opened: 0,
            held,
            tickets: 0,
            waiting: LinkedList::new(alloc),
            generations: 0,
            actions: 0,
            running: None,
            published,
            planned: None,
            steady: None,
        })
    }

    /// The published batches: each snapshot is the one of what was published up to it.
    pub fn batches(&self) -> &Batches
        ensures list { result.now ≡ self.now.published }
        ensures sound { AreSound self.now.published }
    {
        let _last = self.published.last();
        &self.published
    }

    /// What the packages of the batch that runs tell is one summary for each path.
    pub fn is_told_once(&self)
        ensures { RunsOnce self.now.running }
    {
        once_of(&self.running);
    }

    /// How many sessions are open.
    pub fn sessions(&self) -> usize
        ensures count { result ≡ length self.now.held }
        ensures few { length self.now.held ≤ 32 }
    {
        self.held.len()
    }
}
