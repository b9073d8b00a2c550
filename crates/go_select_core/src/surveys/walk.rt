//! One walk over all that paths reach from a type.
ghost use Rattle.std.specs.Prelude.{IfOk, IfSome};
ghost use Rattle.go_term_core.specs.Shapes.{shape};
ghost use Rattle.go_embed_core.specs.table_core.Entries.{find_entry};
ghost use Rattle.go_select_core.specs.mirrors.Names.{names_of};
ghost use Rattle.go_select_core.specs.surveys.mirrors.Walks.{AreDenoted};

use crate::levels::{Levels, Reached, expand};
use crate::{Names, note_level};
use go_embed_core::type_core::{TypeTable, TypeTerm};
use std::alloc::{AllocError, Global};

/// The types that paths reach from a type, and the identifiers of their members.
#[derive(Drop)]
pub(crate) struct Walk<'a> {
    pub(crate) levels: Levels<'a>,
    pub(crate) names: Names<'a>,
}

// How many fields or methods a type has that is no name.
fn term_size(term: &TypeTerm) -> usize {
    match term {
        TypeTerm::Struct(_, fields, _) => fields.len(),
        TypeTerm::Interface(_, methods) => methods.len(),
        TypeTerm::NoType
        | TypeTerm::Basic(_)
        | TypeTerm::Error
        | TypeTerm::Defined(_)
        | TypeTerm::Pointer(_) => 0,
    }
}

// How many fields and methods a type has.
fn type_size(table: &TypeTable, term: &TypeTerm) -> usize {
    match term {
        TypeTerm::Defined(key) => match table.locate(key) {
            Some(located) => {
                let methods = located.defined.methods().len();
                methods.saturating_add(term_size(located.defined.underlying()))
            }
            None => 0,
        },
        TypeTerm::NoType
        | TypeTerm::Basic(_)
        | TypeTerm::Error
        | TypeTerm::Pointer(_)
        | TypeTerm::Struct(_, _, _)
        | TypeTerm::Interface(_, _) => term_size(term),
    }
}

// How many types stand from a place on, and how many fields and methods they have, all counted together.
fn level_size(table: &TypeTable, types: &[Reached<'_>], first: usize) -> usize {
    let mut size: usize = 0;
    for n in first..types.len() {
        let members = type_size(table, types[n].term);
        size = size.saturating_add(members).saturating_add(1);
    }
    size
}

/// The types that paths reach from a type, and the identifiers of their members, each with what is known of it where it is shallowest. None where
/// the types, and their fields and methods, are more than there is room for.
pub(crate) fn walk_from<'a>(
    alloc: Global,
    table: &'a TypeTable,
    start: &'a TypeTerm,
    room: usize,
) -> Result<Option<Walk<'a>>, AllocError>
    ensures { IfOk result (λ made. IfSome made (λ w. AreDenoted (find_entry table.now) (shape start.now) w.levels.trails w.levels.types.items (names_of w.names))) }
{
    let mut levels = Levels::begin(alloc, table, start)?;
    let mut names = Names::new(alloc);
    let mut left = room;
    let mut first: usize = 0;
    'levels: while first < levels.types.len() {
        let end = levels.types.len();
        let Some(behind) = left.checked_sub(level_size(table, &levels.types, first)) else {
            return Ok(None);
        };
        note_level(alloc, table, &levels.types, first, &mut names)?;
        expand(table, &mut levels, first, end)?;
        left = behind;
        first = end;
    }
    Ok(Some(Walk { levels, names }))
}
