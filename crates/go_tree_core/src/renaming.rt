//! Files with another spelling of one identifier.

ghost use Rattle.std.specs.Prelude.{◌≡◌, ◌<◌, length, IfOk};
ghost use Rattle.std.specs.List.{fold};
ghost use Rattle.go_tree_nodes.specs.Shapes.{file_of};
ghost use Rattle.go_tree_nodes.specs.Spelling.{IsPlaced};
ghost use Rattle.go_tree_core.specs.copies.Respelled.{respelled_file};
ghost use Rattle.go_tree_core.specs.Occurrences.{file_occs};
ghost use Rattle.go_tree_core.specs.Renaming.{IsNameAt, occ_start};
ghost use Rattle.go_tree_core.specs.mirrors.Counting.{counted_next};

use crate::copies::respelled;
use crate::file_occurrences::visit_file;
use crate::occurrence::{OccId, Role};
use crate::visitor::Visitor;
use go_tree_nodes::File;
use go_tree_nodes::text_core::Span;
use std::alloc::{AllocError, Global};

// What a search for the occurrence of a number has come to.
#[derive(Clone, Copy)]
enum Counted {
    // The offset at which it begins.
    Begins(u32),
    // How many occurrences stand before it, of those that are left.
    Left(usize),
}

// A search for the occurrence of a number.
#[derive(Drop)]
struct Counter {
    counted: Counted,
}

impl Visitor for Counter {
    ghost Sees = { λ a os b. b.counted ≡ fold counted_next a.counted os };

    ghost use Rattle.std.proofs.Common.{refl, ap, sym, ◌∙◌};
    ghost use Rattle.std.proofs.lemmas.Grind.{fold-append};

    ghost sees_none = { λ a. refl };

    ghost sees_more = { λ a b c xs ys first second. second ∙ ap (λ s. fold counted_next s ys) first ∙ sym (fold-append counted_next a.counted xs ys) };

    fn visit(&mut self, _: Role, _: &str, span: Span) {
        if let Counted::Left(left) = self.counted {
            if left == 0 {
                self.counted = Counted::Begins(span.start);
            } else {
                self.counted = Counted::Left(left - 1);
            }
        }
    }
}

// The offset at which the occurrence of a number begins.
fn start_of(file: &File, at: OccId) -> u32
    requires { at.0 < length (file_occs (file_of file.now)) }
    ensures { result ≡ occ_start (file_occs (file_of file.now)) at.0 }
{
    let mut counter = Counter {
        counted: Counted::Left(at.0),
    };
    visit_file(&mut counter, file);
    match counter.counted {
        Counted::Begins(start) => start,
        // There are more occurrences than the number.
        Counted::Left(_) => unreachable!(),
    }
}

/// The file with another spelling of one identifier that is used: the occurrence of that number. Each span stays as it was, so
/// spans are those of the file, and not of a text in which the name is written anew; all else stays too. The name need not be that
/// of a Go identifier.
///
/// # Errors
///
/// [`AllocError`] where memory runs out.
pub fn renamed(alloc: Global, file: &File, at: OccId, name: &str) -> Result<File, AllocError>
    requires placed { IsPlaced (file_of file.now) }
    requires used { IsNameAt (file_occs (file_of file.now)) at.0 }
    ensures value { IfOk result (λ f. file_of f ≡ respelled_file (occ_start (file_occs (file_of file.now)) at.0) name.now (file_of file.now)) }
    // The tokens that the new tree writes follow one another too.
    ensures ordered { IfOk result (λ f. IsPlaced (file_of f)) }
{
    respelled(alloc, file, start_of(file, at), name)
}
