//! The rules that an event may break.
ghost use Rattle.std.specs.Prelude.{◌≡◌, IfOk, OnOk};
ghost use Rattle.std.specs.Option.{option_copied};
ghost use Rattle.go_submit_core.specs.Modules.{with_trees};
ghost use Rattle.go_sched_core.specs.Service.{clashes, history_rule, is_full, is_held, is_other_overlap, module_held, open_rule, submit_rule, taken_modules, taken_rule, with_held, with_running};
ghost use Rattle.go_sched_core.specs.Steps.{runs};

use crate::event::{Held, SessionId};
use crate::machine::Core;
use crate::running::Running;
use go_path_core::text_core::Rule;
use go_path_core::{Module, overlaps};
use go_submit_core::{ModuleTree, Submission, add_module, add_trees, is_among, is_same_module};
use std::alloc::AllocError;
use std::collections::LinkedList;

/// The most open sessions, and the most modules that are taken.
pub const MAX_SESSIONS: usize = 32;

/// The events that the history holds.
pub const MAX_EVENTS: u64 = 1_048_576;

fn is_held(held: &[Held], own: &Module) -> bool
    ensures { result ≡ is_held held.now own.now }
{
    held.iter().any(|held| is_same_module(&held.own, own))
}

fn is_other_overlap(one: &Module, own: &Module) -> bool
    ensures { result ≡ is_other_overlap own.now one.now }
{
    !is_same_module(one, own) && overlaps(one, own)
}

fn clashes(taken: &[Module], own: &Module) -> bool
    ensures { result ≡ clashes taken.now own.now }
{
    taken.iter().any(|module| is_other_overlap(module, own))
}

fn is_full(held: &[Held], taken: &[Module], own: &Module) -> bool
    ensures { result ≡ is_full held.now taken.now own.now }
{
    held.len() >= MAX_SESSIONS || (!is_among(taken, own) && taken.len() >= MAX_SESSIONS)
}

fn add_held(modules: &mut Vec<Module>, held: &[Held]) -> Result<(), AllocError>
    ensures { OnOk result (modules.new.items ≡ with_held modules.old.items held.now) }
{
    for one in held {
        add_module(modules, &one.own)?;
    }
    Ok(())
}

fn add_waiting(
    modules: &mut Vec<Module>,
    waiting: &LinkedList<Submission>,
) -> Result<(), AllocError>
    ensures { OnOk result (modules.new.items ≡ with_trees modules.old.items waiting.now) }
{
    for submission in waiting.iter() {
        add_module(modules, submission.tree.own())?;
    }
    Ok(())
}

fn add_running(modules: &mut Vec<Module>, running: &Option<Running>) -> Result<(), AllocError>
    ensures { OnOk result (modules.new.items ≡ with_running modules.old.items running.now) }
{
    match running {
        Some(running) => add_trees(modules, running.submissions.as_slice()),
        None => Ok(()),
    }
}

/// Whether the batch that runs has this generation.
pub(crate) fn is_running(running: &Option<Running>, generation: u64) -> bool
    ensures { result ≡ runs running.now generation }
{
    match running {
        Some(running) => running.generation == generation,
        None => false,
    }
}

impl Core {
    /// The session of a number, if it is open.
    pub(crate) fn held_by(&self, id: SessionId) -> Option<&Held>
        ensures { option_copied result ≡ module_held self.now.held id }
    {
        self.held.iter().find(|held| held.session.0 == id.0)
    }

    // H1 where the history is full.
    fn history_rule(&self) -> Option<Rule>
        ensures { result ≡ history_rule self.now }
    {
        if self.accepted >= MAX_EVENTS {
            Some(Rule::H1)
        } else {
            None
        }
    }

    /// The first rule that a submission breaks.
    pub(crate) fn submit_rule(&self, id: SessionId, tree: &ModuleTree) -> Option<Rule>
        ensures { result ≡ submit_rule self.now id tree.now }
    {
        match self.held_by(id) {
            None => Some(Rule::O5),
            Some(held) => {
                if is_same_module(&held.own, tree.own()) {
                    self.history_rule()
                } else {
                    Some(Rule::E1)
                }
            }
        }
    }

    // The modules that are taken, each once.
    fn taken_modules(&self) -> Result<Vec<Module>, AllocError>
        ensures { IfOk result (λ v. v.items ≡ taken_modules self.now) }
    {
        let mut taken = self.published.copied_modules(self.alloc)?;
        add_running(&mut taken, &self.running)?;
        add_waiting(&mut taken, &self.waiting)?;
        add_held(&mut taken, &self.held)?;
        Ok(taken)
    }

    // The first rule that an open breaks, where no session holds the module and these are taken.
    fn taken_rule(&self, taken: &[Module], own: &Module) -> Option<Rule>
        ensures { result ≡ taken_rule self.now taken.now own.now }
    {
        if clashes(taken, own) {
            return Some(Rule::O3);
        }
        if is_full(&self.held, taken, own) {
            return Some(Rule::O4);
        }
        self.history_rule()
    }

    /// The first rule that an open breaks.
    ///
    /// # Errors
    ///
    /// `AllocError` where memory is wanting.
    pub(crate) fn open_rule(&self, own: &Module) -> Result<Option<Rule>, AllocError>
        ensures { IfOk result (λ rule. rule ≡ open_rule self.now own.now) }
    {
        if is_held(&self.held, own) {
            return Ok(Some(Rule::O1));
        }
        let taken = self.taken_modules()?;
        Ok(self.taken_rule(&taken, own))
    }
}
