//! The slots of a function that begins.
ghost use Rattle.std.specs.Prelude.{◌≡◌, IfOk};
ghost use Rattle.go_machine_core.specs.Machine.{first_slots};

use std::alloc::AllocError;

/// The arguments, and 0 in each other slot.
pub(crate) fn slots_with(mut arguments: Vec<i64>, slots: usize) -> Result<Vec<i64>, AllocError>
    ensures { IfOk result (λ r. r.items ≡ first_slots arguments.items slots) }
{
    let missing = slots.saturating_sub(arguments.len());
    for _turn in 0..missing {
        arguments.push(0)?;
    }
    Ok(arguments)
}
