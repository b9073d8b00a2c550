//! What is noted of a file.
ghost use Rattle.std.specs.Prelude.{◌≡◌, []};

use go_expr_core::Notes;
use go_handle_core::Decl;
use go_select_core::EmbedPath;
use std::alloc::Global;

/// What the occurrences of a file have, in order of their places, and its faults.
pub(crate) type FileNotes<'p> = Notes<Decl<'p>, EmbedPath>;

/// Nothing noted yet.
pub(crate) fn nothing<'p>(alloc: Global) -> FileNotes<'p>
    ensures uses { result.uses.items ≡ [] }
    ensures faults { result.faults.items ≡ [] }
{
    Notes {
        uses: Vec::new(alloc),
        faults: Vec::new(alloc),
    }
}
