//! Struct types that are written in an expression.
ghost use Rattle.std.specs.Prelude.{◌≡◌, map, option_map};
ghost use Rattle.go_term_core.specs.Shapes.{shape};
ghost use Rattle.go_candidate_core.specs.at_place.Types.{noted_at, noted_shown, noted_type};

use go_summary_core::handle_core::{TypeRef, typed};
use go_table_core::TypeTable;
use go_term_core::TypeTerm;

/// A type that is written in an expression, settled, with the first byte at which it is written, in bytes from the file's start.
pub(crate) struct NotedType {
    pub(crate) start: usize,
    pub(crate) term: TypeTerm,
}

impl Drop for NotedType {
    fn drop(self) {
        let NotedType { start: _, term: _ } = self;
    }
}

/// The first type that is written at an offset, if one is.
pub(crate) fn noted_at(types: &[NotedType], start: usize) -> Option<&TypeTerm>
    ensures { option_map (λ t. shape t.now) result ≡ noted_at (map noted_shown types.now) start }
{
    for noted in types {
        if noted.start == start {
            return Some(&noted.term);
        }
    }
    None
}

/// The type that is written at an offset: none where none is, or where it is no type.
pub(crate) fn noted_type<'p>(
    table: &'p TypeTable,
    types: &'p [NotedType],
    start: usize,
) -> Option<TypeRef<'p>>
    ensures { result ≡ noted_type table.now (noted_at (map noted_shown types.now) start) }
{
    match noted_at(types, start) {
        Some(term) => typed(table, Some(term)),
        None => None,
    }
}
