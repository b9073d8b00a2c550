//! Whether a name may be replaced.
ghost use Rattle.std.specs.Prelude.{IfOk, MatchOption};
ghost use Rattle.go_reference_core.specs.rename.Moving.{moves_of};
ghost use Rattle.go_reference_core.specs.rename.Renaming.{Keeps};

use crate::rename::comparing::{Change, first_change};
use crate::rename::names::Names;
use crate::rename::texts::are_renamed;
use go_query_core::snap_core::Snapshot;
use std::alloc::{AllocError, Global};

/// Whether the packages of a snapshot are those of another one in which names are replaced and nothing else, and mean what they meant: none where they do, and else
/// where something is not as it was.
///
/// # Errors
///
/// `AllocError` where memory is wanting.
pub fn judge(
    alloc: Global,
    old: &Snapshot,
    renamed: &Snapshot,
    names: &Names,
    new: &str,
) -> Result<Option<Change>, AllocError>
    ensures { IfOk result (λ judged. MatchOption judged (Keeps (moves_of names.now) new.now old.now renamed.now) (λ at. ¬ Keeps (moves_of names.now) new.now old.now renamed.now)) }
{
    let nowhere = Change {
        package: 0,
        file: 0,
        offset: 0,
    };
    if names.new != new.len() {
        return Ok(Some(nowhere));
    }
    let own = old.sources().packages();
    let its = renamed.sources().packages();
    let are = are_renamed(alloc, names, new, own, its)?;
    if !are {
        return Ok(Some(nowhere));
    }
    Ok(first_change(old, renamed, names))
}
