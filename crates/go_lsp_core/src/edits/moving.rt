//! Where offsets of a text come to lie.
ghost use Rattle.std.specs.Prelude.{◌≡◌, ◌^◌, ◌≤◌, MatchOption, map};
ghost use Rattle.go_lsp_core.specs.edits.Edits.{AreInOrder, moved, part_of};

use crate::edits::edits::Edit;

/// Where an offset of a text, in bytes from its start, comes to lie after edits whose parts stand one after another: those that end at it or before it count.
/// None where that is 2^64 or more. It takes one walk over these edits.
pub fn moved(edits: &[Edit<'_>], offset: usize) -> Option<usize>
    requires { AreInOrder 0 (map part_of edits.now) }
    ensures { MatchOption result (2 ^ 64 ≤ moved (map part_of edits.now) offset) (λ n. n ≡ moved (map part_of edits.now) offset) }
{
    let mut gained: usize = 0;
    let mut lost: usize = 0;
    for edit in edits {
        if offset < edit.end {
            return (offset - lost).checked_add(gained);
        }
        let grown = gained.checked_add(edit.new.len())?;
        lost += edit.end - edit.start;
        gained = grown;
    }
    (offset - lost).checked_add(gained)
}
