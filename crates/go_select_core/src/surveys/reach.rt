//! How many types a search goes over.
ghost use Rattle.std.specs.Prelude.{};

use crate::levels::{Levels, expand};
use go_embed_core::type_core::{TypeTable, TypeTerm};
use std::alloc::Global;

/// How many types a search goes over from a type down to a depth: those that paths of at most so many embedded fields reach, as far as memory is
/// there for them.
pub fn breadth(alloc: Global, table: &TypeTable, start: &TypeTerm, depth: usize) -> usize {
    let Ok(mut levels) = Levels::begin(alloc, table, start) else {
        return 0;
    };
    let mut first: usize = 0;
    'levels: for _ in 0..depth {
        let end = levels.types.len();
        if first >= end {
            return end;
        }
        if expand(table, &mut levels, first, end).is_err() {
            return end;
        }
        first = end;
    }
    levels.types.len()
}
