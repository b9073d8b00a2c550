//! All that selectors may denote behind an operand.
ghost use Rattle.std.specs.Prelude.{◌≡◌, ◌+◌, length, option_to_list, IfOk, OnOk};
ghost use Rattle.go_embed_core.specs.table_core.Entries.{find_entry};
ghost use Rattle.go_term_core.specs.Shapes.{shape};
ghost use Rattle.go_select_core.specs.Selections.{AreSelections, IsListing};
ghost use Rattle.go_select_core.specs.mirrors.Names.{names_of, AreBefore, AreNamed, AreSaid, AreKnown};
ghost use Rattle.go_select_core.specs.mirrors.Listings.{IsWithin, AreWithin, AreListed, AreSelectionsIn, entry_listed, seen_of};

use crate::levels::{Levels, Operand, Reached, Selected, behind, expand, is_field};
use crate::names::{Known, Names};
use go_embed_core::Owner;
use go_embed_core::type_core::{TypeTable, TypeTerm};
use go_path_core::ImportPath;
use go_path_core::text_core::{Name, add};
use std::alloc::{AllocError, Global};

// How many embedded fields the paths of one listing may have in all, which take eight bytes each: half a gigabyte. A chain of embedded types has some
// half of its square, so this is enough for a chain of 11,585 types. In a text of a megabyte they would take gigabytes.
const MOST_STEPS: usize = 67_108_864;

/// The types that paths reach from a type, and the identifiers of their members.
#[derive(Drop)]
struct Survey<'a> {
    levels: Levels<'a>,
    names: Names<'a>,
}

/// Notes the members of the types of a level, which is what stands from the place `first` on.
pub fn note_level<'a>(
    alloc: Global,
    table: &'a TypeTable,
    types: &[Reached<'a>],
    first: usize,
    names: &mut Names<'a>,
) -> Result<(), AllocError>
    requires before { AreBefore first (names_of names.old) }
    requires named { AreNamed (names_of names.old) }
    ensures said { OnOk result (AreSaid (find_entry table.now) types.now first (names_of names.old) (names_of names.new)) }
    ensures named { OnOk result (AreNamed (names_of names.new)) }
{
    'types: for n in first..types.len() {
        let reached = types[n];
        let members = Owner::of(table, reached.term).members(alloc)?;
        'members: for member in &members {
            names.note(first, n, reached.many, *member)?;
        }
    }
    Ok(())
}

// The types that paths reach from a type, and the identifiers of their members, each with what is known of it where it is shallowest.
fn survey_from<'a>(
    alloc: Global,
    table: &'a TypeTable,
    start: &'a TypeTerm,
) -> Result<Survey<'a>, AllocError>
    ensures { IfOk result (λ s. AreKnown (find_entry table.now) (shape start.now) s.levels.trails s.levels.types.items (names_of s.names)) }
{
    let mut levels = Levels::begin(alloc, table, start)?;
    let mut names = Names::new(alloc);
    let mut first: usize = 0;
    'levels: while first < levels.types.len() {
        let end = levels.types.len();
        note_level(alloc, table, &levels.types, first, &mut names)?;
        expand(table, &mut levels, first, end)?;
        first = end;
    }
    Ok(Survey { levels, names })
}

// What is listed of what is known of an identifier: what it denotes, or nothing.
fn entry<'a>(
    alloc: Global,
    levels: &Levels<'a>,
    known: Known<'a>,
    by_pointer: bool,
    with_methods: bool,
) -> Result<Option<Selected<'a>>, AllocError>
    requires sized { length levels.now.trails ≡ length levels.now.types.items }
    requires within { IsWithin levels.now.types.items known }
    ensures { IfOk result (λ listed. option_to_list listed ≡ entry_listed levels.now.trails levels.now.types.items by_pointer with_methods known.entry) }
{
    let Known::One(n, member) = known else {
        return Ok(None);
    };
    if member.name() == "_" {
        return Ok(None);
    }
    if !with_methods && !is_field(member) {
        return Ok(None);
    }
    let path = levels.trails.path(alloc, n)?;
    let selected = Selected {
        member,
        path,
        through_pointer: by_pointer || levels.types[n].pointer,
    };
    Ok(Some(selected))
}

// What is left of the room for paths behind one more.
fn room_behind(room: usize, path: &[usize]) -> Result<usize, AllocError>
    ensures { IfOk result (λ left. left + length path.now ≡ room) }
{
    if path.len() > room {
        return Err(AllocError);
    }
    Ok(room - path.len())
}

// What is listed of all identifiers that are known, in order.
fn list_names<'a>(
    alloc: Global,
    survey: &Survey<'a>,
    by_pointer: bool,
    with_methods: bool,
) -> Result<Vec<Selected<'a>>, AllocError>
    requires sized { length survey.now.levels.trails ≡ length survey.now.levels.types.items }
    requires within { AreWithin survey.now.levels.types.items (names_of survey.now.names) }
    ensures { IfOk result (λ found. AreListed survey.now.levels.trails survey.now.levels.types.items by_pointer with_methods survey.now.names.known.entries found.items) }
{
    let mut listed = Vec::new(alloc);
    let mut room = MOST_STEPS;
    'names: for (_, known) in &survey.names.known {
        let one = entry(alloc, &survey.levels, *known, by_pointer, with_methods)?;
        if let Some(selected) = one {
            room = room_behind(room, selected.path.steps())?;
            add(&mut listed, selected)?;
        }
    }
    Ok(listed)
}

// All that selectors denote in a type, with its fields alone or with methods too.
fn selections_in<'a>(
    alloc: Global,
    table: &'a TypeTable,
    start: &'a TypeTerm,
    by_pointer: bool,
    with_methods: bool,
) -> Result<Vec<Selected<'a>>, AllocError>
    ensures { IfOk result (λ found. AreSelectionsIn (find_entry table.now) (shape start.now) by_pointer with_methods found.items) }
{
    let survey = survey_from(alloc, table, start)?;
    let listed = list_names(alloc, &survey, by_pointer, with_methods)?;
    Ok(listed)
}

/// All that selectors `x.name` denote for an operand `x` of a type, whatever package they are written in: each exactly as
/// [`select`](crate::select) answers it there, in order of the bytes of their names, and of their packages' paths where names that are not
/// exported are equal. There are none where the operand is refused; behind a defined pointer type no methods are listed; `_` never is.
///
/// It goes once through the members of the types that paths reach. The Go specification, "Selectors".
///
/// # Errors
///
/// `AllocError` where memory is wanting, and where the paths would have more than 1,048,576 embedded fields in all.
pub fn selections<'a>(
    alloc: Global,
    table: &'a TypeTable,
    term: &'a TypeTerm,
) -> Result<Vec<Selected<'a>>, AllocError>
    ensures { IfOk result (λ found. AreSelections (find_entry table.now) (shape term.now) found.items) }
{
    match behind(table, term) {
        Ok(Operand::In(start, by_pointer)) => selections_in(alloc, table, start, by_pointer, true),
        Ok(Operand::FieldsIn(start)) => selections_in(alloc, table, start, true, false),
        Err(_) => Ok(Vec::new(alloc)),
    }
}

// Those of selections that an identifier may name which is written in a package, with their names.
fn seen_from<'a>(
    alloc: Global,
    found: Vec<Selected<'a>>,
    from: &ImportPath,
) -> Result<Vec<(Name, Selected<'a>)>, AllocError>
    ensures { IfOk result (λ names. names.items ≡ seen_of from.now found.entry.items) }
{
    let mut listed = Vec::new(alloc);
    'found: for selected in found {
        if selected.member.is_visible(from) {
            let name = Name::from_text(alloc, selected.member.name())?;
            add(&mut listed, (name, selected))?;
        }
    }
    Ok(listed)
}

/// The names that `x.name` resolves with for an operand `x` of a type, where the selector is written in the package `from`: in order of
/// their bytes, each with exactly what [`select`](crate::select) answers. There are none where the operand is refused; behind a defined
/// pointer type no methods are listed; `_` never is.
///
/// The Go specification, "Selectors", "Exported identifiers".
///
/// # Errors
///
/// `AllocError` where memory is wanting, and where the paths would have more than 1,048,576 embedded fields in all.
pub fn selectable<'a>(
    alloc: Global,
    table: &'a TypeTable,
    term: &'a TypeTerm,
    from: &ImportPath,
) -> Result<Vec<(Name, Selected<'a>)>, AllocError>
    ensures { IfOk result (λ names. IsListing (find_entry table.now) (shape term.now) from.now names.items) }
{
    let found = selections(alloc, table, term)?;
    let listed = seen_from(alloc, found, from)?;
    Ok(listed)
}
