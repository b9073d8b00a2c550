//! The types that paths of embedded fields reach, level by level.
ghost use Rattle.std.specs.Prelude.{◌≡◌, ◌<◌, ◌≤◌, ◌∷◌, [], length, OnOk, IfOk};
ghost use Rattle.go_embed_core.specs.table_core.Entries.{find_entry};
ghost use Rattle.go_term_core.specs.Shapes.{shape};
ghost use Rattle.go_embed_core.specs.OwnersShown.{embedded_shown};
ghost use Rattle.go_select_core.specs.levels.mirrors.Ways.{ways, root, IsNumber, IsRight, Begins, Entered, Marked, Pushed};
ghost use Rattle.go_select_core.specs.levels.mirrors.Levels.{IsNext, IsJudged};

use crate::levels::numbers::Numbers;
use crate::levels::trails::Trails;
use go_embed_core::type_core::{TypeTable, TypeTerm};
use go_embed_core::{Embedded, Hits, Member, Owner};
use go_path_core::ImportPath;
use std::alloc::{AllocError, Global};

/// A type that a path reaches.
#[derive(Clone, Copy)]
pub struct Reached<'a> {
    pub term: &'a TypeTerm,
    /// Whether another path of the same length reaches it.
    pub many: bool,
    /// Whether a field on the path is embedded with a star.
    pub pointer: bool,
}

/// The types that paths reach, in order of their lengths, each with the path of its number. A type of the table stands there once.
pub struct Levels<'a> {
    pub trails: Trails,
    pub types: Vec<Reached<'a>>,
    pub met: Numbers,
}

impl Drop for Levels<'_> {
    fn drop(self) {
        let Levels {
            trails: _,
            types: _,
            met: _,
        } = self;
    }
}

/// What a level alone says of a name.
#[derive(Drop)]
pub(crate) enum Judged<'a> {
    /// No type has a member that it names. Whether one has a member that is spelled so.
    Nothing(bool),
    /// One member alone, of the type at a place, to which one path leads.
    One(usize, Member<'a>),
    More,
}

// The number of a type in the table.
fn number_of(table: &TypeTable, term: &TypeTerm) -> Option<usize>
    ensures { IsNumber table.now (shape term.now) result }
{
    match term {
        TypeTerm::Defined(key) => match table.locate(key) {
            Some(found) => Some(found.number),
            None => None,
        },
        TypeTerm::NoType
        | TypeTerm::Basic(_)
        | TypeTerm::Error
        | TypeTerm::Pointer(_)
        | TypeTerm::Struct(_, _, _)
        | TypeTerm::Interface(_, _) => None,
    }
}

// Notes that more paths than one reach the type at a place.
fn mark(types: &mut Vec<Reached<'_>>, place: usize)
    requires { place < length types.old.items }
    ensures { Marked types.old.items place types.new.items }
{
    let reached = &mut types[place];
    reached.many = true;
}

// The number of the searched type, where it has one, with the first place.
fn number_first(alloc: Global, table: &TypeTable, start: &TypeTerm) -> Result<Numbers, AllocError>
    ensures { IfOk result (λ met. IsRight table.now (root (shape start.now) ∷ []) met) }
{
    let mut met = Numbers::new(alloc);
    if let Some(number) = number_of(table, start) {
        met.add(number, 0)?;
        return Ok(met);
    }
    Ok(met)
}

impl<'a> Levels<'a> {
    /// The searched type alone.
    pub fn begin(
        alloc: Global,
        table: &'a TypeTable,
        start: &'a TypeTerm,
    ) -> Result<Levels<'a>, AllocError>
        ensures { IfOk result (λ l. Begins table.now (shape start.now) l.trails l.types.items l.met) }
    {
        let met = number_first(alloc, table, start)?;
        let mut types = Vec::new(alloc);
        types.push(Reached {
            term: start,
            many: false,
            pointer: false,
        })?;
        Ok(Levels {
            trails: Trails::new(alloc),
            types,
            met,
        })
    }
}

// Adds the type that a field of the type at a place embeds.
fn push<'a>(levels: &mut Levels<'a>, from: usize, field: Embedded<'a>) -> Result<(), AllocError>
    requires sized { length levels.old.trails ≡ length levels.old.types.items }
    requires inside { from < length levels.old.types.items }
    ensures sized { OnOk result (length levels.new.trails ≡ length levels.new.types.items) }
    ensures pushed { OnOk result (Pushed from (embedded_shown field.entry) (ways levels.old.trails levels.old.types.items) (ways levels.new.trails levels.new.types.items)) }
    ensures met { OnOk result (levels.new.met ≡ levels.old.met) }
{
    let owner = levels.types[from];
    levels.trails.add(from, field.position)?;
    levels.types.push(Reached {
        term: field.target,
        many: owner.many,
        pointer: owner.pointer || field.pointer,
    })?;
    Ok(())
}

// Enters the type that a field of the type at a place embeds, unless an earlier level has it. The level that is made begins at a place.
fn enter<'a>(
    table: &'a TypeTable,
    levels: &mut Levels<'a>,
    begin: usize,
    from: usize,
    field: Embedded<'a>,
) -> Result<(), AllocError>
    requires sized { length levels.old.trails ≡ length levels.old.types.items }
    requires inside { from < length levels.old.types.items }
    requires right { IsRight table.now (ways levels.old.trails levels.old.types.items) levels.old.met }
    ensures sized { OnOk result (length levels.new.trails ≡ length levels.new.types.items) }
    ensures entered { OnOk result (Entered table.now begin from (embedded_shown field.entry) (ways levels.old.trails levels.old.types.items) levels.old.met (ways levels.new.trails levels.new.types.items) levels.new.met) }
{
    let Some(number) = number_of(table, field.target) else {
        push(levels, from, field)?;
        return Ok(());
    };
    if let Some(place) = levels.met.place(number) {
        if place >= begin {
            mark(&mut levels.types, place);
        }
        return Ok(());
    }
    levels.met.add(number, levels.types.len())?;
    push(levels, from, field)?;
    Ok(())
}

/// Adds the types that the types of a level, from one place to another, embed and no earlier level has.
pub fn expand<'a>(
    table: &'a TypeTable,
    levels: &mut Levels<'a>,
    first: usize,
    end: usize,
) -> Result<(), AllocError>
    requires sized { length levels.old.trails ≡ length levels.old.types.items }
    requires whole { end ≡ length levels.old.types.items }
    requires inside { first ≤ end }
    requires right { IsRight table.now (ways levels.old.trails levels.old.types.items) levels.old.met }
    ensures sized { OnOk result (length levels.new.trails ≡ length levels.new.types.items) }
    ensures next { OnOk result (IsNext table.now first (ways levels.old.trails levels.old.types.items) levels.old.met end 0 (ways levels.new.trails levels.new.types.items) levels.new.met) }
{
    'types: for a in first..end {
        let owner = Owner::of(table, levels.types[a].term);
        'fields: for i in 0..owner.field_count() {
            if let Some(field) = owner.embedded(i) {
                enter(table, levels, end, a, field)?;
            }
        }
    }
    Ok(())
}

/// What the types from a place on say of a name that is written in a package.
pub(crate) fn judge<'a>(
    table: &'a TypeTable,
    types: &[Reached<'a>],
    first: usize,
    name: &str,
    from: &ImportPath,
) -> Judged<'a>
    ensures { IsJudged (find_entry table.now) name.now from.now types.now first result }
{
    let mut best: Option<(usize, Member<'a>)> = None;
    let mut spelled = false;
    'types: for n in first..types.len() {
        let reached = types[n];
        let owner = Owner::of(table, reached.term);
        match owner.hits(name, from) {
            Hits::Nothing => spelled = spelled || owner.has_spelled(name),
            Hits::More => return Judged::More,
            Hits::One(member) => {
                if reached.many || best.is_some() {
                    return Judged::More;
                }
                best = Some((n, member));
            }
        }
    }
    match best {
        Some((n, member)) => Judged::One(n, member),
        None => Judged::Nothing(spelled),
    }
}
