//! Selections from one type, told by a survey of it once they have cost about as much as it does.
ghost use Rattle.std.specs.Coded.{Coded-set, coded_list};
ghost use Rattle.std.specs.Prelude.{◌≡◌, IfSome};
ghost use Rattle.go_select_core.specs.levels.Selectors.{IsSelectorAnswer};
ghost use Rattle.go_table_core.specs.Entries.{find_entry};
ghost use Rattle.go_table_core.specs.codes.EntryCodes.{coded_entry};

use crate::recall::TypesOf;
use crate::ways::Place;
use go_collections_core::text_core::Rule;
use go_declared_core::handle_core::{Decl, SignatureRef, TypeRef};
use go_expr_core::denote_core::Selection;
use go_select_core::surveys::{Survey, breadth};
use go_select_core::{EmbedPath, Owner, Selected};
use go_table_core::TypeTable;
use go_table_core::path_core::ImportPath;
use go_term_core::TypeTerm;
use std::alloc::Global;
use std::collections::BTreeMap;
use std::marker::PhantomData;

/// A survey may go over so many times what the selections before it went over.
const SHARE: usize = 2;

/// How many types, fields and methods all surveys of a package may go over.
const MOST: usize = 2_097_152;

/// A survey of a type of a table.
#[derive(Drop)]
struct Surveyed<'p, K: TypesOf> {
    survey: Survey<'p>,
    of: PhantomData<K>,
    ghost right: { survey.entries ≡ K.types } by { Coded-set (coded_list coded_entry) _ _ },
}

// What is known of the selections from one type of a table, and from pointers to it.
#[derive(Drop)]
struct Asked<'p, K: TypesOf> {
    // How much those went over at least that no survey told.
    spent: usize,
    // How much a survey may go over the next time that one is tried.
    next: usize,
    // How much the survey went over at most.
    held: usize,
    survey: Option<Surveyed<'p, K>>,
}

/// What is known of the selections from the types of a table.
#[derive(Drop)]
pub(crate) struct AskedTypes<'p, K: TypesOf> {
    types: BTreeMap<Place<'p>, Asked<'p, K>>,
    // How much all surveys went over at most.
    held: usize,
}

// What a survey tells of a selection behind an operand of a type, where it tells of the type or of what it points to, and for the package.
fn told<'p>(
    alloc: Global,
    survey: &Survey<'p>,
    t: &TypeRef<'p>,
    name: &str,
    from: &ImportPath,
) -> Option<Result<Selected<'p>, Rule>>
    ensures { IfSome result (λ answered. IsSelectorAnswer (find_entry survey.now.entries) t.now name.now from.now answered) }
{
    let parts = t.parts();
    if !survey.from().is_same(from) || !survey.tells(parts.term, name) {
        return None;
    }
    if parts.stars == 0 {
        return Some(survey.select(alloc, name));
    }
    if parts.stars == 1 {
        return Some(survey.select_behind_pointer(alloc, name));
    }
    None
}

// A survey of a type, where it goes over no more than it may and memory is there.
fn survey_of<'p, K: TypesOf>(
    alloc: Global,
    table: &'p TypeTable,
    term: &'p TypeTerm,
    from: &'p ImportPath,
    room: usize,
) -> Option<Surveyed<'p, K>>
    requires { table.now ≡ K.types }
{
    let Ok(made) = Survey::of(alloc, table, term, from, room) else {
        return None;
    };
    let survey = made?;
    Some(Surveyed {
        survey,
        of: PhantomData,
    })
}

// How many fields have the struct types that embedded fields lead to, but for the last.
fn field_count_along(table: &TypeTable, term: &TypeTerm, steps: &[usize]) -> usize {
    let mut at = term;
    let mut count: usize = 0;
    for step in steps {
        let owner = Owner::of(table, at);
        count = count.saturating_add(owner.field_count());
        let Some(edge) = owner.embedded(*step) else {
            return count;
        };
        at = edge.target;
    }
    count
}

// How many embedded fields lead to what a selection denotes; as many as there are where it denotes nothing.
fn depth_of(selection: &Selection<TypeRef<'_>, SignatureRef<'_>, Decl<'_>, EmbedPath>) -> usize {
    match selection {
        Selection::Field(_, path, _, _) => path.steps().len(),
        Selection::Method(_, path, _, _, _) => path.steps().len(),
        Selection::Missing(_) => usize::MAX,
    }
}

/// How many fields a selection from a type went over at least. Of a field or method of the type itself it is none.
pub(crate) fn cost_of(
    table: &TypeTable,
    term: &TypeTerm,
    selection: &Selection<TypeRef<'_>, SignatureRef<'_>, Decl<'_>, EmbedPath>,
) -> usize {
    match selection {
        Selection::Field(_, path, _, _) => field_count_along(table, term, path.steps()),
        Selection::Method(_, path, _, _, _) => field_count_along(table, term, path.steps()),
        Selection::Missing(_) => Owner::of(table, term).field_count(),
    }
}

impl<'p, K: TypesOf> Asked<'p, K> {
    // One selection, of which the cost is known.
    fn once(cost: usize) -> Asked<'p, K> {
        Asked {
            spent: cost,
            next: 0,
            held: 0,
            survey: None,
        }
    }

    // One selection more. A survey is made where it goes over no more than twice what the selections did; where it would, and behind one that
    // is made, one is tried again only when they went over twice as much. It goes over `most` types, fields and methods at most.
    fn again(
        self,
        alloc: Global,
        table: &'p TypeTable,
        term: &'p TypeTerm,
        from: &'p ImportPath,
        cost: usize,
        most: usize,
    ) -> Asked<'p, K>
        requires { table.now ≡ K.types }
    {
        let spent = self.spent.saturating_add(cost);
        let room = spent.saturating_mul(SHARE).min(most);
        if room < self.next {
            return Asked {
                spent,
                next: self.next,
                held: self.held,
                survey: self.survey,
            };
        }
        let survey = survey_of(alloc, table, term, from, room);
        Asked {
            spent,
            next: room.saturating_mul(2),
            held: if survey.is_some() { room } else { 0 },
            survey,
        }
    }

    // What a selection behind an operand of a type denotes that is written in a package, where a survey tells it.
    fn select(
        &self,
        alloc: Global,
        t: &TypeRef<'p>,
        name: &str,
        from: &ImportPath,
    ) -> Option<Result<Selected<'p>, Rule>>
        ensures { IfSome result (λ answered. IsSelectorAnswer (find_entry K.types) t.now name.now from.now answered) }
    {
        match &self.survey {
            Some(surveyed) => told(alloc, &surveyed.survey, t, name, from),
            None => None,
        }
    }
}

impl<'p, K: TypesOf> AskedTypes<'p, K> {
    /// No selection is known.
    pub(crate) fn new(alloc: Global) -> AskedTypes<'p, K> {
        AskedTypes {
            types: BTreeMap::new(alloc),
            held: 0,
        }
    }

    /// Whether no selection is known.
    pub(crate) fn is_empty(&self) -> bool {
        self.types.is_empty()
    }

    /// What a selection behind an operand of a type denotes that is written in a package, where a survey of the place tells it.
    pub(crate) fn select(
        &self,
        alloc: Global,
        place: &Place<'p>,
        t: &TypeRef<'p>,
        name: &str,
        from: &ImportPath,
    ) -> Option<Result<Selected<'p>, Rule>>
        ensures { IfSome result (λ answered. IsSelectorAnswer (find_entry K.types) t.now name.now from.now answered) }
    {
        let found = self.types.get(place)?;
        found.select(alloc, t, name, from)
    }

    /// Notes a selection of a place, and what it cost at least. Where memory is wanting, it is forgotten.
    pub(crate) fn note(
        &mut self,
        alloc: Global,
        table: &'p TypeTable,
        from: &'p ImportPath,
        place: Place<'p>,
        term: &'p TypeTerm,
        cost: usize,
        selection: &Selection<TypeRef<'p>, SignatureRef<'p>, Decl<'p>, EmbedPath>,
    )
        requires { table.now ≡ K.types }
    {
        let Some(before) = self.types.remove(&place) else {
            let _ = self.types.insert(place, Asked::once(cost));
            return;
        };
        let others = self.held.saturating_sub(before.held);
        let searched = breadth(alloc, table, term, depth_of(selection));
        let most = MOST.saturating_sub(others);
        let now = before.again(
            alloc,
            table,
            term,
            from,
            cost.saturating_add(searched),
            most,
        );
        self.held = others.saturating_add(now.held);
        let _ = self.types.insert(place, now);
    }
}
