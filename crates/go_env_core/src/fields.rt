//! The fields of struct types, as a place sees them.
ghost use Rattle.std.specs.Prelude.{◌≡◌, ◌<◌, ◌++◌, IfOk, List, OnOk, Some, length, map, not, option_map, slice_get};
ghost use Rattle.std.specs.List.{count_by};
ghost use Rattle.go_term_core.specs.Shapes.{Line, fields_in, line_shapes, shape};
ghost use Rattle.go_table_core.specs.Entries.{find_entry};
ghost use Rattle.go_select_core.specs.embed_core.Owners.{owner_in};
ghost use Rattle.go_select_core.specs.embed_core.OwnersShown.{entry_owner};
ghost use Rattle.go_env_core.specs.Scenes.{SceneModel, scene_shown};
ghost use Rattle.go_env_core.specs.Fields.{fields_seen, is_visible, literals_in, owner_seen, term_seen};
ghost use Rattle.go_expr_core.specs.denote_core.CompositeMarks.{field_number};
ghost use Rattle.go_env_core.specs.mirrors.Seen.{hider_shown, is_kept, listed_field, name_unless, seen_shown, some_seen};

use crate::field_index::{field_index, first_place};
use crate::scene::Scene;
use go_collections_core::text_core::is_exported;
use go_declared_core::handle_core::{Decl, DeclSite, TypeRef, typed};
use go_expr_core::denote_core::{LiteralField, first_named};
use go_select_core::embed_core::has_own_method;
use go_table_core::path_core::ImportPath;
use go_table_core::{DefinedType, StructField, TypeTable};
use go_term_core::{Field, FieldLine, TypeTerm};
use std::alloc::{AllocError, Global};

/// The fields of a struct type, as a type that lies over it has them.
#[derive(Clone, Copy)]
pub(crate) struct SeenFields<'p> {
    /// The package where the struct type is written.
    home: &'p ImportPath,
    fields: &'p [Field],
    lines: &'p [FieldLine],
    /// The defined type that has them, where one of its methods may keep a field from it.
    hider: Option<&'p DefinedType>,
}

// Whether a field of a struct type is kept from the type that has its fields.
fn is_hidden(hider: Option<&DefinedType>, name: &str, home: &ImportPath) -> bool
    ensures { result ≡ is_kept (hider_shown hider.entry) name.now home.now }
{
    match hider {
        Some(defined) => has_own_method(defined, name, home),
        None => false,
    }
}

// How many fields are not kept from the type.
fn count_kept(hider: Option<&DefinedType>, home: &ImportPath, fields: &[Field]) -> usize
    ensures { result ≡ count_by (λ f. not (is_kept (hider_shown hider.entry) f.name home.now)) fields.now }
{
    let mut count = 0;
    for field in fields {
        if !is_hidden(hider, field.name.as_str(), home) {
            count += 1;
        }
    }
    count
}

// The field of a number among those that are not kept from the type.
fn kept_at<'p>(
    hider: Option<&DefinedType>,
    home: &ImportPath,
    fields: &'p [Field],
    at: usize,
) -> Option<&'p Field>
    ensures { (s : SceneModel) (ls : List Line) → option_map (λ f. listed_field s home.now ls f.now) result ≡ slice_get (fields_seen s (hider_shown hider.entry) home.now (fields_in ls fields.now)) at }
{
    let mut left = at;
    for field in fields {
        if !is_hidden(hider, field.name.as_str(), home) {
            if left == 0 {
                return Some(field);
            }
            left -= 1;
        }
    }
    None
}

// Adds the name of a field, unless it is kept from the type.
fn add_kept<'p>(
    hider: Option<&DefinedType>,
    home: &ImportPath,
    field: &'p Field,
    names: &mut Vec<&'p str>,
) -> Result<(), AllocError>
    ensures { OnOk result (map (λ n. n.now) names.new.items ≡ map (λ n. n.now) names.old.items ++ name_unless (is_kept (hider_shown hider.entry) field.now.name home.now) field.now.name) }
{
    let name = field.name.as_str();
    if is_hidden(hider, name, home) {
        return Ok(());
    }
    names.push(name)?;
    Ok(())
}

// The names of the fields that are not kept from the type.
fn kept_names<'p>(
    alloc: Global,
    hider: Option<&DefinedType>,
    home: &ImportPath,
    fields: &'p [Field],
) -> Result<Vec<&'p str>, AllocError>
    ensures { (s : SceneModel) (ls : List Line) → IfOk result (λ names. map (λ n. n.now) names.items ≡ map (λ f. f.name) (fields_seen s (hider_shown hider.entry) home.now (fields_in ls fields.now))) }
{
    let mut names = Vec::new(alloc);
    for field in fields {
        add_kept(hider, home, field, &mut names)?;
    }
    Ok(names)
}

// The fields of a term, where it is a struct type, as a type over it has them.
fn term_fields<'p>(term: &'p TypeTerm, hider: Option<&'p DefinedType>) -> Option<SeenFields<'p>>
    ensures { (s : SceneModel) → some_seen s result ≡ term_seen s (hider_shown hider.entry) (shape term.now) }
{
    match term {
        TypeTerm::Struct(home, fields, lines) => Some(SeenFields {
            home,
            fields: fields.as_slice(),
            lines: lines.as_slice(),
            hider,
        }),
        TypeTerm::NoType
        | TypeTerm::Basic(_)
        | TypeTerm::Error
        | TypeTerm::Defined(_)
        | TypeTerm::Pointer(_)
        | TypeTerm::Interface(_, _) => None,
    }
}

// The fields that a defined type has.
fn defined_fields<'p>(defined: &'p DefinedType) -> Option<SeenFields<'p>>
    ensures { (s : SceneModel) → some_seen s result ≡ owner_seen s (entry_owner defined.now) }
{
    if defined.hides_fields() {
        term_fields(defined.underlying(), Some(defined))
    } else {
        term_fields(defined.underlying(), None)
    }
}

// The fields that the type of a term has.
fn owner_fields<'p>(table: &'p TypeTable, term: &'p TypeTerm) -> Option<SeenFields<'p>>
    ensures { (s : SceneModel) → some_seen s result ≡ owner_seen s (owner_in (find_entry table.now) (shape term.now)) }
{
    match term {
        TypeTerm::Defined(key) => match table.locate(key) {
            Some(located) => defined_fields(located.defined),
            None => None,
        },
        TypeTerm::NoType
        | TypeTerm::Basic(_)
        | TypeTerm::Error
        | TypeTerm::Pointer(_)
        | TypeTerm::Struct(_, _, _)
        | TypeTerm::Interface(_, _) => term_fields(term, None),
    }
}

/// The fields of a type; none of what is no struct type. It takes no memory.
pub(crate) fn seen_fields<'p>(scene: &Scene<'p>, t: &TypeRef<'p>) -> Option<SeenFields<'p>>
    ensures { some_seen (scene_shown scene.now) result ≡ (literals_in (scene_shown scene.now)).fields t.now }
{
    let parts = t.parts();
    if parts.stars > 0 {
        return None;
    }
    owner_fields(scene.types, parts.term)
}

// Whether a field that is written in a package may be named or given a value.
fn is_visible(scene: &Scene<'_>, home: &ImportPath, name: &str) -> bool
    ensures { result ≡ is_visible (scene_shown scene.now) home.now name.now }
{
    is_exported(name) || home.as_str() == scene.home.path().as_str()
}

// What is known of a field.
fn known_field<'p>(
    scene: &Scene<'p>,
    seen: &SeenFields<'p>,
    field: &'p Field,
) -> LiteralField<TypeRef<'p>, Decl<'p>>
    ensures { result ≡ (listed_field (scene_shown scene.now) seen.now.home.now (line_shapes seen.now.lines.now) field.now).known }
{
    LiteralField {
        decl: Decl::at(DeclSite::InFile(seen.home, field.place)),
        field_type: typed(scene.types, StructField::of(field, seen.lines).term()),
        is_visible: is_visible(scene, seen.home, field.name.as_str()),
    }
}

/// How many fields there are. It takes constant time where no method keeps one from the type.
pub(crate) fn field_count(seen: Option<SeenFields<'_>>) -> usize
    ensures { (s : SceneModel) → result ≡ length (some_seen s seen.entry) }
{
    let Some(seen) = seen else {
        return 0;
    };
    match seen.hider {
        Some(_) => count_kept(seen.hider, seen.home, seen.fields),
        None => seen.fields.len(),
    }
}

// The item of a number, if there is one.
fn item<'p>(fields: &'p [Field], at: usize) -> Option<&'p Field>
    ensures { option_map (λ f. f.now) result ≡ slice_get fields.now at }
{
    fields.get(at)
}

// The field of a number. It takes constant time where no method keeps one from the type.
fn numbered<'p>(seen: &SeenFields<'p>, at: usize) -> Option<&'p Field>
    ensures { (s : SceneModel) → option_map (λ f. listed_field s seen.now.home.now (line_shapes seen.now.lines.now) f.now) result ≡ slice_get (seen_shown s seen.now) at }
{
    match seen.hider {
        Some(_) => kept_at(seen.hider, seen.home, seen.fields, at),
        None => item(seen.fields, at),
    }
}

/// A field, by its number from 0.
pub(crate) fn field_at<'p>(
    scene: &Scene<'p>,
    seen: Option<SeenFields<'p>>,
    at: usize,
) -> LiteralField<TypeRef<'p>, Decl<'p>>
    requires { at < length (some_seen (scene_shown scene.now) seen) }
    ensures { option_map (λ f. f.known) (slice_get (some_seen (scene_shown scene.now) seen.entry) at) ≡ Some result }
{
    let Some(seen) = seen else {
        unreachable!();
    };
    match numbered(&seen, at) {
        Some(field) => known_field(scene, &seen, field),
        None => unreachable!(),
    }
}

/// The spellings of the fields in order, blank ones included.
///
/// # Errors
///
/// `AllocError` where memory is wanting.
pub(crate) fn field_names<'p>(
    alloc: Global,
    seen: Option<SeenFields<'p>>,
) -> Result<Vec<&'p str>, AllocError>
    ensures { (s : SceneModel) → IfOk result (λ names. map (λ n. n.now) names.items ≡ map (λ f. f.name) (some_seen s seen.entry)) }
{
    let Some(seen) = seen else {
        return Ok(Vec::new(alloc));
    };
    kept_names(alloc, seen.hider, seen.home, seen.fields)
}

// The number of the first of the fields that is spelled so, from 0: each is looked at.
fn searched_number(
    alloc: Global,
    seen: Option<SeenFields<'_>>,
    name: &str,
) -> Result<Option<usize>, AllocError>
    ensures { (s : SceneModel) → IfOk result (λ number. number ≡ field_number (some_seen s seen.entry) name.now) }
{
    let names = field_names(alloc, seen)?;
    Ok(first_named(&names, name))
}

/// The number of the first of the fields of a type that is spelled so, from 0, and none where none is. It takes constant expected time where
/// the type is declared with many fields and no method keeps one from it.
///
/// # Errors
///
/// `AllocError` where memory is wanting.
pub(crate) fn field_number<'p>(
    alloc: Global,
    scene: &Scene<'p>,
    t: &TypeRef<'p>,
    name: &str,
) -> Result<Option<usize>, AllocError>
    ensures { IfOk result (λ number. number ≡ field_number ((literals_in (scene_shown scene.now)).fields t.now) name.now) }
{
    match field_index(scene, t) {
        Some(index) => Ok(first_place(index, name)),
        None => searched_number(alloc, seen_fields(scene, t), name),
    }
}
