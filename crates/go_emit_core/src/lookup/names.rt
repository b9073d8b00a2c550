//! What the names of a function come to, by tables of its file.
ghost use Rattle.std.specs.Prelude.{◌≡◌};
ghost use Rattle.go_emit_core.specs.lookup.Looking.{meaning_or_other, place_or_zero};
ghost use Rattle.go_emit_core.specs.lookup.mirrors.Naming.{file_looks};

use crate::lookup::offset_table::OffsetTable;
use go_code_core::fragments::{CodeNames, Meaning};

/// What the names of a file come to.
pub struct FileCodeNames {
    /// What its occurrences come to, by their offsets.
    pub uses: OffsetTable,
    /// What the locals come to that its functions declare, by the offsets of their identifiers.
    pub locals: OffsetTable,
}

impl Drop for FileCodeNames {
    fn drop(self) {
        let FileCodeNames { uses: _, locals: _ } = self;
    }
}

/// What the names of a function come to: those of its file, and how many occurrences of the file stand before its body. What code calls at an offset
/// is the reference of the occurrence there: of its number among those of the body, from 0.
pub struct FuncCodeNames<'f> {
    pub file: &'f FileCodeNames,
    pub before: usize,
}

impl Drop for FuncCodeNames<'_> {
    fn drop(self) {
        let FuncCodeNames { file: _, before: _ } = self;
    }
}

/// What something comes to of which nothing may be known.
pub fn meant(meaning: Option<Meaning>) -> Meaning
    ensures { result ≡ meaning_or_other meaning }
{
    match meaning {
        Some(meaning) => meaning,
        None => Meaning::Other,
    }
}

fn place_or_zero(place: Option<usize>) -> usize
    ensures { result ≡ place_or_zero place }
{
    match place {
        Some(place) => place,
        None => 0,
    }
}

impl<'f> CodeNames for FuncCodeNames<'f> {
    ghost use Rattle.go_emit_core.specs.lookup.mirrors.Naming.{file_looks};

    ghost looks = { λ n. file_looks n.file.now n.before };

    fn meaning(&self, offset: usize) -> Meaning {
        meant(self.file.uses.meaning(offset))
    }

    fn reference(&self, offset: usize) -> usize {
        place_or_zero(self.file.uses.place(offset)).saturating_sub(self.before)
    }

    fn is_new(&self, offset: usize) -> bool {
        self.file.locals.place(offset).is_some()
    }
}
