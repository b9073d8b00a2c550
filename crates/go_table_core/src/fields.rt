//! The fields of a struct type by their names.
ghost use Rattle.std.specs.Prelude.{◌≡◌, ◌<◌, [], IfOk, List, None, OnOk, option_map};
ghost use Rattle.go_term_core.specs.Shapes.{Line, shape, shape_found, fields_in, line_at, line_shapes};
ghost use Rattle.go_table_core.specs.Shown.{line_shown, member_shown};
ghost use Rattle.go_table_core.specs.Methods.{has_field_before, field_spelled, is_before, term_fields};
ghost use Rattle.go_collections_core.specs.spelling_index.Spelled.{places_of};
ghost use Rattle.go_table_core.specs.mirrors.Ordered.{has_order, is_after, spelled_before, IsFieldIndex};
ghost use Rattle.go_table_core.specs.mirrors.Spots.{spot_before, earlier_of, earliest_with, earliest_before, found_before, found_places, named_before, named_places, struct_path, HasPlaces, AddsField};

use crate::entry::DeclaredMethod;
use go_collections_core::spelling_index::{Spelling, Spellings};
use go_collections_core::text_core::is_exported;
use go_path_core::ImportPath;
use go_term_core::{Field, FieldLine, MemberPlace, TypeTerm};
use std::alloc::{AllocError, Global};
use std::collections::BTreeMap;
use std::marker::Model;

/// A place by its file, and by what counts there.
#[derive(Clone, Copy)]
struct Spot {
    file: usize,
    at: usize,
}

/// The earliest of the fields of one name, outside function bodies and inside.
#[derive(Clone, Copy)]
struct Earliest {
    declared: Option<Spot>,
    local: Option<Spot>,
}

/// What fields are found by.
enum FieldPlaces<'a> {
    /// The earliest places of each name.
    Made(BTreeMap<&'a str, Earliest>),
    /// Where each name stands among the fields, which stand in order of their places.
    Indexed(&'a Spellings),
}

impl Drop for FieldPlaces<'_> {
    fn drop(self) {
        match self {
            FieldPlaces::Made(_) => {}
            FieldPlaces::Indexed(_) => {}
        }
    }
}

/// The fields of a struct type by their names; of any other type it has none. Contracts see the type.
pub struct FieldTable<'a> {
    underlying: &'a TypeTerm,
    places: FieldPlaces<'a>,
}

impl Drop for FieldTable<'_> {
    fn drop(self) {
        let FieldTable {
            underlying: _,
            places: _,
        } = self;
    }
}

impl<'a> Model for FieldTable<'a> {
    ghost use Rattle.go_term_core.specs.Terms.{Term};
    ghost use Rattle.go_term_core.specs.codes.TermCodes.{coded_term};
    ghost use Rattle.go_term_core.specs.Shapes.{shape};
    ghost use Rattle.go_table_core.specs.Methods.{term_fields};
    ghost use Rattle.go_table_core.specs.mirrors.Ordered.{FindsFields};

    ghost Value = { Term };

    ghost coded = { coded_term };

    ghost view = { λ t. shape t.underlying.now };

    ghost invariant = { λ t. FindsFields t.places (term_fields (shape t.underlying.now)) };
}

impl Spot {
    /// Whether it stands before another: by file, then by place there.
    fn is_before(self, other: Spot) -> bool
        ensures { result ≡ spot_before self other }
    {
        self.file < other.file || (self.file == other.file && self.at < other.at)
    }
}

/// The earlier of a spot and one that may be.
fn earlier(first: Option<Spot>, spot: Spot) -> Spot
    ensures { result ≡ earlier_of first spot }
{
    let Some(first) = first else {
        return spot;
    };
    if spot.is_before(first) { spot } else { first }
}

impl Earliest {
    /// With one more place.
    fn with(self, place: MemberPlace) -> Earliest
        ensures { result ≡ earliest_with self place }
    {
        match place {
            MemberPlace::Declared(decl) => {
                let spot = Spot {
                    file: decl.file,
                    at: decl.number,
                };
                Earliest {
                    declared: Some(earlier(self.declared, spot)),
                    local: self.local,
                }
            }
            MemberPlace::Local(inner) => {
                let spot = Spot {
                    file: inner.file,
                    at: inner.offset,
                };
                Earliest {
                    declared: self.declared,
                    local: Some(earlier(self.local, spot)),
                }
            }
        }
    }

    /// Whether one of the places stands before a place.
    fn is_before(self, place: MemberPlace) -> bool
        ensures { result ≡ earliest_before self place }
    {
        let (first, spot) = match place {
            MemberPlace::Declared(decl) => (
                self.declared,
                Spot {
                    file: decl.file,
                    at: decl.number,
                },
            ),
            MemberPlace::Local(inner) => (
                self.local,
                Spot {
                    file: inner.file,
                    at: inner.offset,
                },
            ),
        };
        match first {
            Some(first) => first.is_before(spot),
            None => false,
        }
    }
}

/// The fields of a struct type in order, and the lines that they stand in.
#[derive(Clone, Copy)]
pub struct StructFields<'a> {
    pub fields: &'a [Field],
    pub lines: &'a [FieldLine],
}

/// A field of a struct type, with its line; none where that is not there.
#[derive(Clone, Copy)]
pub struct StructField<'a> {
    pub field: &'a Field,
    pub line: Option<&'a FieldLine>,
}

impl<'a> StructField<'a> {
    /// A field in one of these lines.
    pub fn of(field: &'a Field, lines: &'a [FieldLine]) -> StructField<'a>
        ensures field { result.field.now ≡ field.now }
        ensures line { line_shown result.line ≡ line_at (line_shapes lines.now) field.now.line }
    {
        StructField {
            field,
            line: lines.get(field.line),
        }
    }

    /// Its type; `None` stands for no type.
    pub fn term(self) -> Option<&'a TypeTerm>
        ensures { shape_found result ≡ (line_shown self.entry.line).term }
    {
        match self.line {
            Some(line) => Some(&line.term),
            None => None,
        }
    }

    /// Whether it is embedded.
    pub fn is_embedded(self) -> bool
        ensures { result ≡ (line_shown self.entry.line).embedded }
    {
        match self.line {
            Some(line) => line.embedded,
            None => false,
        }
    }
}

/// The fields of a struct type in order, as they stand in the term; none of a type that is written otherwise, be it defined by a struct type.
pub fn term_fields(term: &TypeTerm) -> StructFields<'_>
    ensures { fields_in (line_shapes result.lines.now) result.fields.now ≡ term_fields (shape term.now) }
{
    match term {
        TypeTerm::Struct(_, fields, lines) => StructFields {
            fields: fields.as_slice(),
            lines: lines.as_slice(),
        },
        TypeTerm::NoType
        | TypeTerm::Basic(_)
        | TypeTerm::Error
        | TypeTerm::Defined(_)
        | TypeTerm::Pointer(_)
        | TypeTerm::Interface(_, _) => StructFields {
            fields: &[],
            lines: &[],
        },
    }
}

/// The package where a struct type is written.
fn home_of(term: &TypeTerm) -> Option<&ImportPath>
    ensures { option_map (λ p. p.now) result ≡ struct_path (shape term.now) }
{
    match term {
        TypeTerm::Struct(path, _, _) => Some(path),
        TypeTerm::NoType
        | TypeTerm::Basic(_)
        | TypeTerm::Error
        | TypeTerm::Defined(_)
        | TypeTerm::Pointer(_)
        | TypeTerm::Interface(_, _) => None,
    }
}

/// Adds a field to a table of names.
fn add_field<'a>(
    places: &mut BTreeMap<&'a str, Earliest>,
    field: &'a Field,
) -> Result<(), AllocError>
    ensures { OnOk result (AddsField (named_places places.old) (named_places places.new) field.now.name field.now.place) }
{
    let name = field.name.as_str();
    let so_far = match places.get(name) {
        Some(so_far) => *so_far,
        None => Earliest {
            declared: None,
            local: None,
        },
    };
    match places.insert(name, so_far.with(field.place)) {
        Ok(_) => Ok(()),
        Err(_) => Err(AllocError),
    }
}

/// The places of fields by their names.
fn places_of<'a>(
    alloc: Global,
    all: StructFields<'a>,
) -> Result<BTreeMap<&'a str, Earliest>, AllocError>
    ensures { IfOk result (λ places. HasPlaces (named_places places) (fields_in (line_shapes all.entry.lines.now) all.entry.fields.now)) }
{
    let mut places = BTreeMap::new(alloc);
    for field in all.fields {
        add_field(&mut places, field)?;
    }
    Ok(places)
}

/// Whether a place stands before another of its package: by file, then by place there.
fn is_before(one: MemberPlace, other: MemberPlace) -> bool
    ensures { result ≡ is_before one other }
{
    match one {
        MemberPlace::Declared(a) => match other {
            MemberPlace::Declared(b) => {
                a.file < b.file || (a.file == b.file && a.number < b.number)
            }
            MemberPlace::Local(_) => false,
        },
        MemberPlace::Local(a) => match other {
            MemberPlace::Declared(_) => false,
            MemberPlace::Local(b) => a.file < b.file || (a.file == b.file && a.offset < b.offset),
        },
    }
}

/// Whether a place stands behind the one that may be given.
fn is_after(last: Option<MemberPlace>, place: MemberPlace) -> bool
    ensures { result ≡ is_after last place }
{
    match last {
        Some(last) => is_before(last, place),
        None => true,
    }
}

/// Whether fields stand in order of their places.
fn stand_in_order(fields: &[Field]) -> bool
    ensures { (ls : List Line) → result ≡ has_order None (fields_in ls fields.now) }
{
    let mut last = None;
    for field in fields {
        if !is_after(last, field.place) {
            return false;
        }
        last = Some(field.place);
    }
    true
}

/// Whether the fields of a struct type stand in order of their places. It takes time that is linear in them.
pub(crate) fn has_order(term: &TypeTerm) -> bool
    ensures { result ≡ has_order None (term_fields (shape term.now)) }
{
    stand_in_order(term_fields(term).fields)
}

/// Whether the first of the fields of a name stands before a place, by where the name stands among the fields.
fn first_is_before(fields: &[Field], spelling: Option<Spelling>, place: MemberPlace) -> bool
    ensures { (ls : List Line) → result ≡ spelled_before (fields_in ls fields.now) spelling place }
{
    let Some(spelling) = spelling else {
        return false;
    };
    match fields.get(spelling.first) {
        Some(field) => is_before(field.place, place),
        None => false,
    }
}

/// Whether the earliest place of a name stands before a place.
fn earliest_is_before(places: &BTreeMap<&str, Earliest>, name: &str, place: MemberPlace) -> bool
    ensures { result ≡ found_before (found_places (named_places places.now) name.now) place }
{
    match places.get(name) {
        Some(first) => first.is_before(place),
        None => false,
    }
}

impl<'a> FieldTable<'a> {
    /// The fields of an underlying type. Time grows with the number of fields.
    ///
    /// # Errors
    ///
    /// `AllocError` where memory is wanting.
    pub fn of(alloc: Global, underlying: &'a TypeTerm) -> Result<FieldTable<'a>, AllocError>
        ensures { IfOk result (λ table. table ≡ shape underlying.now) }
    {
        let places = FieldPlaces::Made(places_of(alloc, term_fields(underlying))?);
        Ok(FieldTable { underlying, places })
    }

    /// The fields of an underlying type by an index of their names, which is lent. It takes constant time and no memory.
    pub(crate) fn over(underlying: &'a TypeTerm, index: &'a Spellings) -> FieldTable<'a>
        requires { IsFieldIndex (places_of index.now) (term_fields (shape underlying.now)) }
        ensures { result ≡ shape underlying.now }
    {
        FieldTable {
            underlying,
            places: FieldPlaces::Indexed(index),
        }
    }

    /// The type whose fields they are.
    pub fn underlying(&self) -> &'a TypeTerm
        ensures { shape result.now ≡ self.now }
    {
        self.underlying
    }

    /// Whether a field is spelled so, be it of the same package or not. It takes no memory; time grows with the logarithm of the number of
    /// fields.
    pub fn has_spelled(&self, name: &str) -> bool
        ensures { result ≡ field_spelled (term_fields self.now) name.now }
    {
        match &self.places {
            FieldPlaces::Made(places) => places.contains_key(name),
            FieldPlaces::Indexed(index) => index.find(name).is_some(),
        }
    }

    /// Whether a field that is spelled so stands before a place.
    fn has_before(&self, name: &str, place: MemberPlace) -> bool
        ensures { result ≡ named_before (term_fields self.now) name.now place }
    {
        match &self.places {
            FieldPlaces::Made(places) => earliest_is_before(places, name, place),
            FieldPlaces::Indexed(index) => {
                first_is_before(term_fields(self.underlying).fields, index.find(name), place)
            }
        }
    }

    /// Whether a field comes before a method of a package that has its identifier: it stands before it, or in another package. Then the
    /// field is kept and the method is not. It takes no memory; time grows with the logarithm of the number of fields. The Go
    /// specification, "Method declarations", "Uniqueness of identifiers".
    pub fn comes_before(&self, path: &ImportPath, method: &DeclaredMethod) -> bool
        ensures { result ≡ has_field_before path.now self.now (member_shown method.now) }
    {
        let name = method.name.as_str();
        match home_of(self.underlying) {
            Some(home) => {
                if home.is_same(path) {
                    self.has_before(name, method.place)
                } else {
                    self.has_spelled(name) && is_exported(name)
                }
            }
            None => false,
        }
    }
}
