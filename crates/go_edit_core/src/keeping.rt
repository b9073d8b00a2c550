//! Parts that are kept.
ghost use Rattle.std.specs.Prelude.{◌≡◌, ◌<◌, ◌+◌, IfOk, OnOk, false, is_some, length, map, slice_set};
ghost use Rattle.go_edit_core.specs.mirrors.Sharing.{AreSharedTo};

use go_emit_core::package_core::{Part, Parts};
use go_path_core::text_core::add;
use std::alloc::{AllocError, Global};

/// One part more: that of a number, if it has one.
fn share_next(shared: &mut Parts, parts: &[Option<Part>], number: usize) -> Result<(), AllocError>
    requires within { number < length parts.now }
    requires before { AreSharedTo parts.now shared.old number }
    ensures { OnOk result (AreSharedTo parts.now shared.new (number + 1)) }
{
    match &parts[number] {
        Some(part) => {
            shared.put(number, part.share()?);
            Ok(())
        }
        None => Ok(()),
    }
}

/// The same parts once more, by the same numbers: each is shared.
///
/// # Errors
///
/// `AllocError` where memory is wanting, or where a part has too many owners.
pub(crate) fn shared_parts(alloc: Global, parts: &[Option<Part>]) -> Result<Parts, AllocError>
    ensures { IfOk result (λ shared. shared ≡ parts.now) }
{
    let mut shared = Parts::none(alloc, parts.len())?;
    for number in 0..parts.len() {
        share_next(&mut shared, parts, number)?;
    }
    Ok(shared)
}

/// Whether there is a part.
fn is_there(slot: &Option<Part>) -> bool
    ensures { result ≡ is_some slot.now }
{
    match slot {
        Some(_) => true,
        None => false,
    }
}

/// Of each package, by its number, whether it has a part.
///
/// # Errors
///
/// `AllocError` where memory is wanting.
pub(crate) fn have_parts(alloc: Global, parts: &[Option<Part>]) -> Result<Vec<bool>, AllocError>
    ensures { IfOk result (λ have. have.items ≡ map is_some parts.now) }
{
    let mut have = Vec::with_capacity(alloc, parts.len())?;
    for slot in parts {
        add(&mut have, is_there(slot))?;
    }
    Ok(have)
}

/// Takes the mark of a number away.
pub(crate) fn unmark(marks: &mut Vec<bool>, number: usize)
    requires { number < length marks.old.items }
    ensures { marks.new.items ≡ slice_set marks.old.items number false }
{
    marks[number] = false;
}
