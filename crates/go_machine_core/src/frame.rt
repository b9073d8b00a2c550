//! A function that is running.
ghost use Rattle.std.specs.Prelude.{◌≡◌, map, option_map, slice_get, IfOk};
ghost use Rattle.go_machine_core.specs.Machine.{begun};
ghost use Rattle.go_machine_core.specs.Programs.{linked_shown};
ghost use Rattle.go_machine_core.specs.mirrors.Shown.{frame_shown};

use crate::linked::Linked;
use crate::operands::Operands;
use crate::slots::slots_with;
use std::alloc::{AllocError, Global};

/// A function that is running, by its number in the program.
#[derive(Drop)]
pub struct Frame {
    pub function: usize,
    /// Of its next instruction.
    pub place: usize,
    pub stack: Operands,
    pub slots: Vec<i64>,
}

/// The function of a number with its arguments, at its first instruction: none where there is no such function.
pub(crate) fn begin(
    alloc: Global,
    program: &[Linked<'_>],
    function: usize,
    arguments: Vec<i64>,
) -> Result<Option<Frame>, AllocError>
    ensures { IfOk result (λ frame. option_map (frame_shown program.now) frame ≡ option_map (λ g. begun g arguments.items) (slice_get (map linked_shown program.now) function)) }
{
    let Some(linked) = program.get(function) else {
        return Ok(None);
    };
    let slots = slots_with(arguments, linked.slots)?;
    Ok(Some(Frame {
        function,
        place: 0,
        stack: Operands::new(alloc),
        slots,
    }))
}
