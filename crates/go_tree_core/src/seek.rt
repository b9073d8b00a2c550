//! The search for the identifier at a place of a file.

ghost use Rattle.std.specs.Prelude.{◌≡◌, ℕ, ◌+◌, ◌<◌, ◌^◌, length, IfSome, IsNone, Some};
ghost use Rattle.std.specs.List.{fold};
ghost use Rattle.std.specs.Option.{option_map};
ghost use Rattle.go_tree_nodes.specs.Shapes.{file_of};
ghost use Rattle.go_tree_nodes.specs.Spelling.{spell_file};
ghost use Rattle.go_tree_nodes.specs.Terminals.{InOrder};
ghost use Rattle.go_tree_core.specs.Occurrences.{file_occs, covering, CoversAt, NoneCovers};
ghost use Rattle.go_tree_core.specs.mirrors.Seeking.{sought_next};

use crate::file_occurrences::visit_file;
use crate::occurrence::{OccId, Role};
use crate::visitor::Visitor;
use go_tree_nodes::File;
use go_tree_nodes::text_core::Span;

// What a search for the identifier that covers an offset has come to.
#[derive(Clone, Copy)]
enum Sought {
    // The number of its occurrence.
    Found(usize),
    // None so far: how many occurrences have been passed.
    Passed(usize),
}

// A search for the first identifier that covers an offset.
#[derive(Drop)]
struct Seeker {
    offset: usize,
    sought: Sought,
}

impl Visitor for Seeker {
    ghost Sees = { λ a os b. (b.offset ≡ a.offset) × (b.sought ≡ fold (sought_next a.offset) a.sought os) };

    ghost use Rattle.std.proofs.Common.{refl, ap, sym, ◌∙◌};
    ghost use Rattle.std.proofs.lemmas.Grind.{fold-append};

    ghost sees_none = { λ a. (refl, refl) };

    ghost sees_more = { λ a b c xs ys first second. (second.0 ∙ first.0, second.1 ∙ ap (λ offset. fold (sought_next offset) b.sought ys) first.0 ∙ ap (λ s. fold (sought_next a.offset) s ys) first.1 ∙ sym (fold-append (sought_next a.offset) a.sought xs ys)) };

    // A file in memory has fewer occurrences than a `usize` counts.
    fn visit(&mut self, role: Role, _: &str, span: Span) {
        if let Sought::Passed(passed) = self.sought {
            if role.is_identifier()
                && span.start as usize <= self.offset
                && self.offset < span.end as usize
            {
                self.sought = Sought::Found(passed);
            } else {
                self.sought = Sought::Passed(passed.saturating_add(1));
            }
        }
    }
}

/// The identifier that is used at an offset of a file, in bytes: the number of the occurrence with `start <= offset < end`.
/// `None` where there is none, and at the string of an import and the parenthesis of a call. Takes no memory.
pub fn at(file: &File, offset: usize) -> Option<OccId>
    requires few { length (file_occs (file_of file.now)) < 2 ^ 64 }
    ensures value { option_map (λ id. id.0) result ≡ covering offset (file_occs (file_of file.now)) }
    ensures covers { IfSome result (λ id. CoversAt offset (file_occs (file_of file.now)) id.0) }
    ensures none { IsNone result → NoneCovers offset (file_occs (file_of file.now)) }
    ensures only { (high i : ℕ) → InOrder 0 (spell_file (file_of file.now)) high → CoversAt offset (file_occs (file_of file.now)) i → result ≡ Some (record { 0 = i }) }
{
    let mut seeker = Seeker {
        offset,
        sought: Sought::Passed(0),
    };
    visit_file(&mut seeker, file);
    match seeker.sought {
        Sought::Found(number) => Some(OccId(number)),
        Sought::Passed(_) => None,
    }
}
