//! The locals of a file's functions, held.
ghost use Rattle.std.specs.Prelude.{◌≡◌, ◌++◌, [], ◌∷◌, IfOk, OnOk, map};
ghost use Rattle.go_package_core.specs.Checked.{local_shown};

use go_body_core::Local;
use go_path_core::text_core::add;
use go_report_core::answer::{HeldLocal, HeldValues, hold_local};
use std::alloc::{AllocError, Global};

// Adds a local, held.
fn add_held(
    alloc: Global,
    values: &mut HeldValues,
    held: &mut Vec<HeldLocal>,
    local: Local<'_>,
) -> Result<(), AllocError>
    ensures { OnOk result (map local_shown held.new.items ≡ map local_shown held.old.items ++ local.entry ∷ []) }
{
    let local = hold_local(alloc, values, local.offset, local.value)?;
    add(held, local)
}

/// Locals, held, in their order. Those of one type share what is held of it, with the locals that were held before by the same values.
pub(crate) fn held_locals(
    alloc: Global,
    values: &mut HeldValues,
    locals: Vec<Local<'_>>,
) -> Result<Vec<HeldLocal>, AllocError>
    ensures { IfOk result (λ held. map local_shown held.items ≡ locals.entry.items) }
{
    let mut held = Vec::new(alloc);
    for local in locals {
        add_held(alloc, values, &mut held, local)?;
    }
    Ok(held)
}
