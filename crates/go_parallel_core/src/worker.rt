//! What one thread does: it compiles packages one after another, over what it sees.
ghost use Rattle.std.specs.Prelude.{◌≡◌, ◌++◌, ◌∷◌, [], IfOk};
ghost use Rattle.go_summary_core.specs.Summaries.{path_of};
ghost use Rattle.go_package_core.specs.package_part.Inputs.{path_in};
ghost use Rattle.go_batch_core.specs.seen.Local.{AreAmong, NoneIsOf};
ghost use Rattle.go_parallel_core.specs.Seen.{CanCompile, IsDoneOf};
ghost use Rattle.go_parallel_core.specs.Told.{summary_in};

use go_batch_core::seen::{Compiled, Sight};
use go_batch_core::{ReadInput, ReadPart};
use std::alloc::{AllocError, Global};

/// The parts of some packages, in order, and what is seen after them.
#[derive(Drop)]
pub(crate) struct Done {
    pub(crate) parts: Vec<ReadPart>,
    pub(crate) sight: Sight,
}

// The part of an input, over what is seen, and what is seen after it.
fn compile_next(
    alloc: Global,
    input: &ReadInput,
    sight: Sight,
) -> Result<(ReadPart, Sight), AllocError>
    requires none { NoneIsOf sight (path_in input.now) }
    requires all { AreAmong input.now.reached sight }
    ensures input { IfOk result (λ r. r.0.input ≡ input.now) }
    ensures path { IfOk result (λ r. path_of (summary_in r.0) ≡ path_in input.now) }
    ensures seen { IfOk result (λ r. r.1 ≡ sight ++ summary_in r.0 ∷ []) }
{
    let compiled = sight.compile_seen(alloc, input.get())?;
    let Compiled { part, sight } = compiled;
    Ok((ReadPart::new(part), sight))
}

/// The parts of inputs, in order, over what is seen, and what is seen after them. Nothing is looked up of what they reach.
///
/// # Errors
///
/// `AllocError` where memory is wanting.
pub(crate) fn compile_share(
    alloc: Global,
    inputs: Vec<ReadInput>,
    sight: Sight,
) -> Result<Done, AllocError>
    requires { CanCompile sight inputs.items }
    ensures { IfOk result (λ d. IsDoneOf sight inputs.items d.parts.items d.sight) }
{
    let mut parts = Vec::with_capacity(alloc, inputs.len())?;
    let mut seen = sight;
    for input in inputs {
        let made = compile_next(alloc, &input, seen)?;
        let (part, after) = made;
        parts.push(part)?;
        seen = after;
    }
    Ok(Done { parts, sight: seen })
}
