//! The names of the embedded fields along a path.
ghost use Rattle.std.specs.Prelude.{◌≡◌, ◌++◌, IfOk, OnOk, map, option_map, option_to_list, slice_get};
ghost use Rattle.go_embed_core.specs.table_core.Entries.{find_entry, underlying_in};
ghost use Rattle.go_term_core.specs.Shapes.{shape, shape_found};
ghost use Rattle.go_embed_core.specs.Owners.{owner_in, embeds_at};
ghost use Rattle.go_select_core.specs.PathNames.{embedded_target, names_along, term_field_name};

use crate::levels::EmbedPath;
use go_embed_core::Owner;
use go_embed_core::type_core::{TypeTable, TypeTerm};
use go_path_core::text_core::add;
use go_term_core::Field;
use std::alloc::{AllocError, Global};

// The name of the field at a place.
fn name_at(fields: &[Field], at: usize) -> Option<&str>
    ensures { option_map (λ n. n.now) result ≡ option_map (λ f. f.name) (slice_get fields.now at) }
{
    match fields.get(at) {
        Some(field) => Some(field.name.as_str()),
        None => None,
    }
}

// The name of the field at a place of a struct type; none of any other type.
fn field_name(term: &TypeTerm, at: usize) -> Option<&str>
    ensures { option_map (λ n. n.now) result ≡ term_field_name (shape term.now) at }
{
    match term {
        TypeTerm::Struct(_, fields, _) => name_at(fields, at),
        TypeTerm::NoType
        | TypeTerm::Basic(_)
        | TypeTerm::Error
        | TypeTerm::Defined(_)
        | TypeTerm::Pointer(_)
        | TypeTerm::Interface(_, _) => None,
    }
}

// Adds the name of the field at a place of a type, where there is one.
fn add_name<'a>(term: &'a TypeTerm, step: usize, names: &mut Vec<&'a str>) -> Result<(), AllocError>
    ensures { OnOk result (map (λ n. n.now) names.new.items ≡ map (λ n. n.now) names.old.items ++ option_to_list (term_field_name (shape term.now) step)) }
{
    match field_name(term, step) {
        Some(name) => add(names, name),
        None => Ok(()),
    }
}

// The type that the field at a place embeds, without its star; none where the field there is no embedded one.
fn target_at<'a>(table: &'a TypeTable, term: &'a TypeTerm, step: usize) -> Option<&'a TypeTerm>
    ensures { shape_found result ≡ embedded_target (embeds_at (owner_in (find_entry table.now) (shape term.now)) step) }
{
    match Owner::of(table, term).embedded(step) {
        Some(edge) => Some(edge.target),
        None => None,
    }
}

// Adds the name of the field at a place of a type, which may be none, and answers the type that the field embeds.
fn pass<'a>(
    table: &'a TypeTable,
    at: Option<&'a TypeTerm>,
    step: usize,
    names: &mut Vec<&'a str>,
) -> Result<Option<&'a TypeTerm>, AllocError>
    ensures names { OnOk result (map (λ n. n.now) names.new.items ≡ map (λ n. n.now) names.old.items ++ option_to_list (term_field_name (underlying_in (find_entry table.now) (shape_found at.entry)) step)) }
    ensures at { IfOk result (λ next. shape_found next ≡ embedded_target (embeds_at (owner_in (find_entry table.now) (shape_found at.entry)) step)) }
{
    match at {
        Some(term) => {
            add_name(table.underlying(term), step, names)?;
            Ok(target_at(table, term, step))
        }
        None => Ok(None),
    }
}

// The names of the fields along some steps.
fn names_in<'a>(
    alloc: Global,
    table: &'a TypeTable,
    term: &'a TypeTerm,
    steps: &[usize],
) -> Result<Vec<&'a str>, AllocError>
    ensures { IfOk result (λ names. map (λ n. n.now) names.items ≡ names_along (find_entry table.now) (shape term.now) steps.now) }
{
    let mut names = Vec::new(alloc);
    let mut at = Some(term);
    for step in steps {
        at = pass(table, at, *step, &mut names)?;
    }
    Ok(names)
}

/// The names of the embedded fields along a path from a type, in order: of each step the name of the field at its place. The path is one
/// that a selector passes behind an operand of the type, or of a pointer to it; of any other path it has the names of the fields that are
/// there, as far as each embeds a type.
///
/// # Errors
///
/// `AllocError` where memory is wanting.
pub fn path_names<'a>(
    alloc: Global,
    table: &'a TypeTable,
    term: &'a TypeTerm,
    path: &EmbedPath,
) -> Result<Vec<&'a str>, AllocError>
    ensures { IfOk result (λ names. map (λ n. n.now) names.items ≡ names_along (find_entry table.now) (shape term.now) path.now) }
{
    names_in(alloc, table, term, path.steps())
}
