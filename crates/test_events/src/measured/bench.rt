//! The core machine, run over a workspace.
use crate::measured::counts::Counts;
use crate::measured::order::{Kind, Order, Parts, Work};
use crate::measured::workspace::{Form, Version, module_of};
use go_batch_core::{ReadPart, rebuild};
use go_graph_core::Workspace;
use go_path_core::Module;
use go_sched_core::{Action, Core, Event, Reply, SessionId};
use go_submit_core::ModuleTree;
use go_text_core::Rule;
use std::alloc::{AllocError, Global};

/// The numbers that edits write have as many digits each time.
const EDITS: usize = 100_000;

/// The module that is edited, with its session and its packages before the edits.
#[derive(Drop)]
struct Member {
    own: Module,
    session: SessionId,
    packages: Workspace,
}

/// A core, with what it is asked.
#[derive(Drop)]
struct Bench {
    alloc: Global,
    order: Order,
    core: Core,
    counts: Counts,
}

/// A value that was made, or M0.
fn made<T>(value: Result<T, AllocError>) -> Result<T, Rule> {
    match value {
        Ok(value) => Ok(value),
        Err(AllocError) => Err(Rule::M0),
    }
}

/// The rule of a reply that is not the one that was wanted.
fn rule_of(reply: Reply) -> Rule {
    match reply {
        Reply::Refused(rule) => rule,
        _ => Rule::Z1,
    }
}

impl Bench {
    /// Opens a module, and submits its packages.
    fn open(&mut self, number: usize) -> Result<Member, Rule> {
        let own = module_of(self.alloc, number)?;
        let packages = self.order.form.packages_in(self.alloc, number)?;
        let session = match self.core.step(Event::Open(made(own.share())?)) {
            Reply::Opened(session) => session,
            reply => return Err(rule_of(reply)),
        };
        self.counts.sessions = self.counts.sessions.saturating_add(1);
        let copy = made(packages.copy(self.alloc))?;
        let tree = ModuleTree::make(self.alloc, made(own.share())?, copy)?;
        self.submit(session, tree)?;
        Ok(Member {
            own,
            session,
            packages,
        })
    }

    /// Opens all modules, and submits them: the edited one is given.
    fn open_all(&mut self) -> Result<Member, Rule> {
        let edited = self.order.edited_module();
        let mut found = None;
        for number in 0..self.order.form.modules() {
            let member = self.open(number)?;
            if number == edited {
                found = Some(member);
            }
        }
        found.ok_or(Rule::O5)
    }

    fn submit(&mut self, session: SessionId, tree: ModuleTree) -> Result<(), Rule> {
        match self.core.step(Event::Submit(session, tree)) {
            Reply::Submitted(_) => Ok(()),
            reply => Err(rule_of(reply)),
        }
    }

    /// The tree of the module with an edit, another one each time.
    fn tree(&mut self, member: &Member, time: usize) -> Result<ModuleTree, Rule> {
        let package = self.order.edited_package();
        let number = EDITS.saturating_add(time);
        let unchanged = Form::unchanged(package);
        let version = match self.order.kind {
            Kind::Body => Version {
                body: number,
                ..unchanged
            },
            Kind::Constant => Version {
                constant: number,
                ..unchanged
            },
        };
        let form = self.order.form;
        let packages = form.edited(self.alloc, &member.packages, package, version)?;
        self.counts.trees = self.counts.trees.saturating_add(1);
        ModuleTree::make(self.alloc, made(member.own.share())?, packages)
    }

    /// A part of an action's input.
    fn part(&mut self, action: &Action) -> Result<ReadPart, Rule> {
        let earlier = match self.order.parts {
            Parts::Kept if action.other => None,
            Parts::Kept | Parts::Rebuilt => action.earlier.as_ref(),
            Parts::Compiled => None,
        };
        let part = rebuild(self.alloc, &action.input, earlier, action.generation);
        let part = made(part)?;
        if part.get().made_in() == action.generation {
            self.counts.compiled = self.counts.compiled.saturating_add(1);
        }
        Ok(part)
    }

    /// Ends an action by the part that the core has itself, if it has one.
    fn finish_kept(&mut self, action: &Action) -> Option<Reply> {
        let place = match self.order.parts {
            Parts::Kept => action.kept?,
            Parts::Rebuilt | Parts::Compiled => return None,
        };
        let Ok(ready) = self.core.prepare_kept(place, action.number)? else {
            return None;
        };
        self.counts.kept = self.counts.kept.saturating_add(1);
        Some(self.core.commit(ready))
    }

    /// Ends an action: whether its batch is published by that.
    fn finish(&mut self, action: &Action) -> Result<bool, Rule> {
        let reply = match self.finish_kept(action) {
            Some(reply) => reply,
            None => {
                let part = self.part(action)?;
                self.core.step(Event::Finish(action.number, part))
            }
        };
        match reply {
            Reply::Finished => Ok(false),
            Reply::Published(_) => Ok(true),
            reply => Err(rule_of(reply)),
        }
    }

    fn take(&mut self) -> Result<Action, Rule> {
        match self.core.step(Event::Take) {
            Reply::Act(action) => {
                self.counts.actions = self.counts.actions.saturating_add(1);
                Ok(action)
            }
            reply => Err(rule_of(reply)),
        }
    }

    /// Runs the batch of all that waits, until it is published.
    fn run_batch(&mut self) -> Result<(), Rule> {
        for _ in 0..self.order.form.packages {
            let action = self.take()?;
            if self.finish(&action)? {
                self.counts.batches = self.counts.batches.saturating_add(1);
                return Ok(());
            }
        }
        Err(Rule::Z1)
    }

    /// Runs the batch of all that waits up to the first action that is not known to be as before, which is not finished.
    fn changed(&mut self) -> Result<Action, Rule> {
        for _ in 0..self.order.form.packages {
            let action = self.take()?;
            if action.kept.is_none() {
                return Ok(action);
            }
            self.finish(&action)?;
        }
        Err(Rule::Z1)
    }

    fn run_batches(&mut self, member: &Member) -> Result<(), Rule> {
        for time in 0..self.order.times {
            let tree = self.tree(member, time)?;
            self.submit(member.session, tree)?;
            self.run_batch()?;
        }
        Ok(())
    }

    fn make_trees(&mut self, member: &Member) -> Result<(), Rule> {
        for time in 0..self.order.times {
            drop(self.tree(member, time)?);
        }
        Ok(())
    }

    /// Begins a batch of one edit, and compiles the edited package.
    fn compile(&mut self, member: &Member) -> Result<(), Rule> {
        let tree = self.tree(member, 0)?;
        self.submit(member.session, tree)?;
        let action = self.changed()?;
        for _ in 0..self.order.times {
            let part = rebuild(self.alloc, &action.input, None, action.generation);
            drop(made(part)?);
            self.counts.compiled = self.counts.compiled.saturating_add(1);
        }
        Ok(())
    }

    /// The faults of the last snapshot.
    fn faults(&self) -> usize {
        let batches = self.core.batches();
        match batches.get(batches.len().wrapping_sub(1)) {
            Some(batch) => batch.snapshot().fault_count(),
            None => 0,
        }
    }
}

/// Opens and submits all modules of a workspace, runs their batch, does the work of an order, and tells what was done.
///
/// # Errors
///
/// The rule by which an event is refused, `Rule::Z1` where the reply to one is not the one that is due, and `Rule::M0` where memory is wanting.
pub fn run(alloc: Global, order: Order) -> Result<Counts, Rule> {
    let mut bench = Bench {
        alloc,
        order,
        core: Core::new(alloc)?,
        counts: Counts::default(),
    };
    let member = bench.open_all()?;
    bench.run_batch()?;
    match order.work {
        Work::Batches => bench.run_batches(&member)?,
        Work::Trees => bench.make_trees(&member)?,
        Work::Parts => bench.compile(&member)?,
    }
    bench.counts.faults = bench.faults();
    Ok(bench.counts)
}
