//! The members of types that have many, by an index of their names.
ghost use Rattle.std.specs.Prelude.{◌≡◌, ◌&&◌, is_some, map, option_map, slice_get};
ghost use Rattle.go_term_core.specs.Shapes.{line_at, line_shapes, shape, sign_of};
ghost use Rattle.go_collections_core.specs.spelling_index.Spelled.{AreSpelled, places_of, spelled_in};
ghost use Rattle.go_type_core.specs.table_core.Entries.{same_id};
ghost use Rattle.go_type_core.specs.table_core.MemberNames.{term_names};
ghost use Rattle.go_embed_core.specs.Owners.{AFieldOf, AMethodOf, AnInterfaces, term_found, nobody};
ghost use Rattle.go_embed_core.specs.mirrors.Places.{hit_found, place_found};
ghost use Rattle.go_embed_core.specs.mirrors.Tallies.{hits_shown, tallies, tally_of, method_tally, field_tally, interface_tally};

use crate::member::{Hits, Member, error_hit, is_same_id};
use go_collections_core::spelling_index::Spellings;
use go_path_core::ImportPath;
use go_term_core::FieldLine;
use go_type_core::table_core::StructField;
use go_type_core::{DeclaredMethod, Field, Method, TypeTerm};

/// Where the members of a list stand that an identifier names.
#[derive(Clone, Copy)]
pub(crate) enum Place {
    Nothing,
    One(usize),
    More,
}

// Where the members of a list stand that an identifier names, all of which are written in a package.
fn place_of(path: &ImportPath, index: &Spellings, name: &str, from: &ImportPath) -> Place
    ensures { result ≡ place_found (same_id name.now path.now name.now from.now) (spelled_in (places_of index.now) name.now) }
{
    match index.find(name) {
        Some(spelling) => {
            if !is_same_id(name, path, name, from) {
                return Place::Nothing;
            }
            if spelling.is_repeated {
                Place::More
            } else {
                Place::One(spelling.first)
            }
        }
        None => Place::Nothing,
    }
}

// The method at a place.
fn method_at<'a>(path: &'a ImportPath, methods: &'a [DeclaredMethod], at: usize) -> Hits<'a>
    ensures { hits_shown result ≡ hit_found (option_map (λ m. AMethodOf path.now m.place m.pointer (sign_of m.signature)) (slice_get methods.now at)) }
{
    match methods.get(at) {
        Some(method) => Hits::One(Member::Method(path, method)),
        None => Hits::Nothing,
    }
}

// The field at a place.
fn field_at<'a>(
    path: &'a ImportPath,
    fields: &'a [Field],
    lines: &'a [FieldLine],
    at: usize,
) -> Hits<'a>
    ensures { hits_shown result ≡ hit_found (option_map (λ f. AFieldOf path.now f.place (line_at (line_shapes lines.now) f.line).term) (slice_get fields.now at)) }
{
    match fields.get(at) {
        Some(field) => Hits::One(Member::Field(path, StructField::of(field, lines))),
        None => Hits::Nothing,
    }
}

// The method of an interface type at a place.
fn interface_at<'a>(path: &'a ImportPath, methods: &'a [Method], at: usize) -> Hits<'a>
    ensures { hits_shown result ≡ hit_found (option_map (λ m. AnInterfaces path.now m.place (sign_of m.signature)) (slice_get methods.now at)) }
{
    match methods.get(at) {
        Some(method) => Hits::One(Member::InterfaceMethod(path, method)),
        None => Hits::Nothing,
    }
}

// The methods that are declared of a type and have the identifier, by an index of their names.
pub(crate) fn indexed_methods<'a>(
    path: &'a ImportPath,
    methods: &'a [DeclaredMethod],
    index: &Spellings,
    name: &str,
    from: &ImportPath,
) -> Hits<'a>
    requires { AreSpelled (places_of index.now) (map (λ m. m.name) methods.now) }
    ensures { hits_shown result ≡ tallies (method_tally path.now name.now from.now) methods.now }
{
    match place_of(path, index, name, from) {
        Place::Nothing => Hits::Nothing,
        Place::One(at) => method_at(path, methods, at),
        Place::More => Hits::More,
    }
}

// The fields of a struct type that have the identifier, by an index of their names.
fn indexed_fields<'a>(
    path: &'a ImportPath,
    fields: &'a [Field],
    lines: &'a [FieldLine],
    index: &Spellings,
    name: &str,
    from: &ImportPath,
) -> Hits<'a>
    requires { AreSpelled (places_of index.now) (map (λ f. f.name) fields.now) }
    ensures { hits_shown result ≡ tallies (field_tally (line_shapes lines.now) path.now name.now from.now) fields.now }
{
    match place_of(path, index, name, from) {
        Place::Nothing => Hits::Nothing,
        Place::One(at) => field_at(path, fields, lines, at),
        Place::More => Hits::More,
    }
}

// The methods of an interface type that have the identifier, by an index of their names.
fn indexed_interface<'a>(
    path: &'a ImportPath,
    methods: &'a [Method],
    index: &Spellings,
    name: &str,
    from: &ImportPath,
) -> Hits<'a>
    requires { AreSpelled (places_of index.now) (map (λ m. m.name) methods.now) }
    ensures { hits_shown result ≡ tallies (interface_tally path.now name.now from.now) methods.now }
{
    match place_of(path, index, name, from) {
        Place::Nothing => Hits::Nothing,
        Place::One(at) => interface_at(path, methods, at),
        Place::More => Hits::More,
    }
}

// The members of a type that is no name which have the identifier, by an index of their names.
pub(crate) fn indexed_hits<'a>(
    term: &'a TypeTerm,
    index: &Spellings,
    name: &str,
    from: &ImportPath,
) -> Hits<'a>
    requires { AreSpelled (places_of index.now) (term_names (shape term.now)) }
    ensures { hits_shown result ≡ tallies (tally_of name.now from.now) (term_found nobody (shape term.now)) }
{
    match term {
        TypeTerm::Error => error_hit(name, from),
        TypeTerm::Struct(path, fields, lines) => indexed_fields(
            path, fields, lines, index, name, from,
        ),
        TypeTerm::Interface(path, methods) => indexed_interface(path, methods, index, name, from),
        TypeTerm::NoType | TypeTerm::Basic(_) | TypeTerm::Defined(_) | TypeTerm::Pointer(_) =>
            Hits::Nothing,
    }
}

// Whether a name stands in an index.
pub(crate) fn is_indexed(index: &Spellings, name: &str) -> bool
    ensures { result ≡ is_some (spelled_in (places_of index.now) name.now) }
{
    match index.find(name) {
        Some(_) => true,
        None => false,
    }
}

// Whether a member of a list has an identifier, by an index of their names, all of which are written in a package.
pub(crate) fn is_indexed_as(
    path: &ImportPath,
    index: &Spellings,
    name: &str,
    from: &ImportPath,
) -> bool
    ensures { result ≡ is_some (spelled_in (places_of index.now) name.now) && same_id name.now path.now name.now from.now }
{
    is_indexed(index, name) && is_same_id(name, path, name, from)
}
