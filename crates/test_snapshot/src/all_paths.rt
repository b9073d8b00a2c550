//! A second opinion on selectors: all paths of embedded fields, one after another.
use go_denote_core::text_core::{Rule, add};
use go_mset_core::embed_core::Hits;
use go_mset_core::select_core::{Member, Owner, Selected};
use go_table_core::TypeTable;
use go_table_core::path_core::ImportPath;
use go_term_core::TypeTerm;
use std::alloc::Global;
use test_probe::show::Lines;

/// How many types a table may have of which all paths are listed.
const MOST_TYPES: usize = 7;

/// What a listing of all paths finds of a name.
#[derive(Drop)]
struct Listing {
    /// The path that is followed, by the places of its fields.
    path: Vec<usize>,
    /// The first of the shortest paths to a member of the name.
    best: Vec<usize>,
    /// How many members have a path of that length.
    count: usize,
    /// Whether the first of them is a method.
    is_method: bool,
    /// Whether a member is spelled so.
    is_spelled: bool,
    /// Whether memory was wanting: then the rest says nothing.
    is_cut: bool,
}

/// Which rule a selector breaks by its operand alone, or the type in which it is searched, with whether the operand's type is a defined
/// pointer type.
fn searched<'a>(table: &'a TypeTable, term: &'a TypeTerm) -> Result<(&'a TypeTerm, bool), Rule> {
    let (target, is_named) = match (term, table.underlying(term)) {
        (_, TypeTerm::NoType) => return Err(Rule::S4),
        (TypeTerm::Pointer(target), _) => (&**target, false),
        (_, TypeTerm::Pointer(target)) => (&**target, true),
        _ => return Ok((term, false)),
    };
    match table.underlying(target) {
        TypeTerm::NoType => Err(Rule::S4),
        TypeTerm::Pointer(_) | TypeTerm::Interface(_, _) | TypeTerm::Error => Err(Rule::S6),
        _ => Ok((target, is_named)),
    }
}

/// Notes members that the followed path leads to.
fn note(listing: &mut Listing, count: usize, is_method: bool) {
    if listing.count == 0 || listing.path.len() < listing.best.len() {
        match listing.path.clone() {
            Ok(best) => listing.best = best,
            Err(_) => listing.is_cut = true,
        }
        listing.count = count;
        listing.is_method = is_method;
    } else if listing.path.len() == listing.best.len() {
        listing.count = listing.count.saturating_add(count);
    }
}

/// Follows the paths from a type on, of so many fields more at most.
fn follow(
    left: usize,
    listing: &mut Listing,
    table: &TypeTable,
    term: &TypeTerm,
    name: &str,
    from: &ImportPath,
) {
    let owner = Owner::of(table, term);
    listing.is_spelled = listing.is_spelled || owner.has_spelled(name);
    match owner.hits(name, from) {
        Hits::Nothing => {}
        Hits::One(member) => note(listing, 1, !matches!(member, Member::Field(_, _))),
        Hits::More => note(listing, 2, false),
    }
    if left == 0 {
        return;
    }
    for place in 0..owner.field_count() {
        if let Some(field) = owner.embedded(place) {
            match add(&mut listing.path, place) {
                Ok(()) => {
                    follow(left - 1, listing, table, field.target, name, from);
                    let _ = listing.path.pop();
                }
                Err(_) => listing.is_cut = true,
            }
        }
    }
}

/// Which rule a selector breaks; where it breaks none, the path to what it denotes is the best of the listing.
fn list_paths(
    listing: &mut Listing,
    table: &TypeTable,
    term: &TypeTerm,
    name: &str,
    from: &ImportPath,
) -> Option<Rule> {
    if name == "_" {
        return Some(Rule::S8);
    }
    let (start, is_named) = match searched(table, term) {
        Ok(found) => found,
        Err(rule) => return Some(rule),
    };
    let most = table.len().saturating_add(1).min(MOST_TYPES + 1);
    follow(most, listing, table, start, name, from);
    match listing.count {
        0 if listing.is_spelled => Some(Rule::S3),
        0 => Some(Rule::S1),
        1 if is_named && listing.is_method => Some(Rule::S7),
        1 => None,
        _ => Some(Rule::S2),
    }
}

/// Adds a line where a listing of all paths finds another answer than this. A table of more than seven types is passed over.
pub fn add_other_answer(
    out: &mut Lines,
    alloc: Global,
    table: &TypeTable,
    term: &TypeTerm,
    name: &str,
    from: &ImportPath,
    answer: &Result<Selected<'_>, Rule>,
) {
    if table.len() > MOST_TYPES {
        return;
    }
    let mut listing = Listing {
        path: Vec::new(alloc),
        best: Vec::new(alloc),
        count: 0,
        is_method: false,
        is_spelled: false,
        is_cut: false,
    };
    let broken = list_paths(&mut listing, table, term, name, from);
    let differs = match (broken, answer) {
        (None, Ok(selected)) => listing.best.as_slice() != selected.path.steps(),
        (Some(rule), Err(given)) => rule != *given,
        _ => true,
    };
    if listing.is_cut {
        out.cut();
    } else if differs {
        out.line("  a listing of all paths finds another answer");
    }
}
