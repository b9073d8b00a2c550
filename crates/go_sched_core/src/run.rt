//! Whole runs.
ghost use Rattle.std.specs.Prelude.{◌≡◌, IfErr, IfOk};
ghost use Rattle.go_submit_core.specs.Published.{AreSound};
ghost use Rattle.go_sched_core.specs.Service.{empty};
ghost use Rattle.go_sched_core.specs.Steps.{Run};

use crate::event::{Event, Reply};
use crate::machine::Core;
use go_path_core::text_core::Rule;
use std::alloc::Global;

/// A core and what it replied.
#[derive(Drop)]
pub struct Ran {
    pub core: Core,
    pub replies: Vec<Reply>,
}

/// Runs a new core over these events.
///
/// # Errors
///
/// `Rule::M0` where memory is wanting; an event that is refused is a reply.
pub fn run_events(alloc: Global, events: Vec<Event>) -> Result<Ran, Rule>
    ensures run { IfOk result (λ ran. Run empty events.items ran.replies.items ran.core) }
    ensures sound { IfOk result (λ ran. AreSound ran.core.published) }
    ensures memory { IfErr result (λ rule. rule ≡ Rule.M0) }
{
    let mut core = Core::new(alloc)?;
    let mut replies = Vec::new(alloc);
    for event in events {
        if replies.reserve(1).is_err() {
            return Err(Rule::M0);
        }
        replies.push_reserved(core.step(event));
    }
    let _sound = core.batches();
    Ok(Ran { core, replies })
}
