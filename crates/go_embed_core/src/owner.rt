//! A type whose members are asked for.
ghost use Rattle.std.specs.Prelude.{◌≡◌, ◌++◌, ◌∷◌, [], IfOk, OnOk, map, option_map, option_to_list};
ghost use Rattle.go_term_core.specs.Terms.{Defined, NoField, StructOf};
ghost use Rattle.go_term_core.specs.Shapes.{shape, shape_found, fields_in, line_at, line_shapes};
ghost use Rattle.go_type_core.specs.table_core.Entries.{find_entry, has_method};
ghost use Rattle.go_type_core.specs.table_core.Methods.{term_fields};
ghost use Rattle.go_type_core.specs.table_core.Shown.{line_shown, member_shown};
ghost use Rattle.go_embed_core.specs.Owners.{AFieldOf, owner_in, embeds_at, embedded_in, owner_field_count, has_spelled, declared_found, fields_found, term_found, members_of, is_spelled_in, embedded_edge, nobody};
ghost use Rattle.go_embed_core.specs.OwnersShown.{owner_shown, source_shown, entry_owner, embedded_shown, named_shown, AreHits};
ghost use Rattle.go_embed_core.specs.mirrors.Edges.{hidden_in, IsHiding, edge_if};
ghost use Rattle.go_embed_core.specs.mirrors.Tallies.{hits_shown, tallies, tally_of};

use crate::indexed::{indexed_hits, indexed_methods, is_indexed, is_indexed_as};
use crate::member::{
    Hits, Member, has_method, is_method_spelled, is_spelled, method_hits, term_hits,
};
use crate::members::{add_interface, add_methods};
use go_collections_core::text_core::add;
use go_path_core::ImportPath;
use go_term_core::FieldLine;
use go_term_core::decl_core::DeclKey;
use go_type_core::table_core::{StructField, StructFields};
use go_type_core::{DeclaredMethod, DefinedType, Field, TypeTable, TypeTerm};
use std::alloc::{AllocError, Global};

/// Where the members of a type stand.
#[derive(Clone, Copy)]
enum Source<'a> {
    /// A defined type that the table has.
    Entry(&'a DefinedType),
    /// A defined type of a package that the table has not.
    Missing(&'a ImportPath),
    /// Any other type, which is its own underlying type.
    Plain(&'a TypeTerm),
}

/// A type whose members are asked for, as a table has it.
#[derive(Clone, Copy)]
pub struct Owner<'a> {
    source: Source<'a>,
}

/// An embedded field of a struct type.
#[derive(Clone, Copy)]
pub struct Embedded<'a> {
    /// The field's place among those of its struct type, from 0.
    pub position: usize,
    /// Whether it is written with a star.
    pub pointer: bool,
    /// The type that it embeds, without the star.
    pub target: &'a TypeTerm,
}

// Where the members of a defined type stand.
fn defined_source<'a>(table: &'a TypeTable, key: &'a DeclKey) -> Source<'a>
    ensures { source_shown result ≡ owner_in (find_entry table.now) (Defined key.now) }
{
    match table.locate(key) {
        Some(located) => Source::Entry(located.defined),
        None => Source::Missing(&key.path),
    }
}

// Where the members of a type stand.
fn source_of<'a>(table: &'a TypeTable, term: &'a TypeTerm) -> Source<'a>
    ensures { source_shown result ≡ owner_in (find_entry table.now) (shape term.now) }
{
    match term {
        TypeTerm::Defined(key) => defined_source(table, key),
        TypeTerm::NoType
        | TypeTerm::Basic(_)
        | TypeTerm::Error
        | TypeTerm::Pointer(_)
        | TypeTerm::Struct(_, _, _)
        | TypeTerm::Interface(_, _) => Source::Plain(term),
    }
}

// The fields of a struct type, and none of any other type.
fn struct_fields<'a>(term: &'a TypeTerm) -> StructFields<'a>
    ensures { fields_in (line_shapes result.lines.now) result.fields.now ≡ term_fields (shape term.now) }
{
    match term {
        TypeTerm::Struct(_, fields, lines) => StructFields {
            fields: fields.as_slice(),
            lines: lines.as_slice(),
        },
        TypeTerm::NoType
        | TypeTerm::Basic(_)
        | TypeTerm::Error
        | TypeTerm::Defined(_)
        | TypeTerm::Pointer(_)
        | TypeTerm::Interface(_, _) => no_fields(),
    }
}

// No field.
fn no_fields<'a>() -> StructFields<'a>
    ensures { fields_in (line_shapes result.lines.now) result.fields.now ≡ NoField }
{
    StructFields {
        fields: &[],
        lines: &[],
    }
}

// The edge of an embedded field of a type.
fn edge_to<'a>(term: &'a TypeTerm, position: usize) -> Embedded<'a>
    ensures { embedded_shown result ≡ embedded_edge position (shape term.now) }
{
    match term {
        TypeTerm::Pointer(base) => Embedded {
            position,
            pointer: true,
            target: base,
        },
        TypeTerm::NoType
        | TypeTerm::Basic(_)
        | TypeTerm::Error
        | TypeTerm::Defined(_)
        | TypeTerm::Struct(_, _, _)
        | TypeTerm::Interface(_, _) => Embedded {
            position,
            pointer: false,
            target: term,
        },
    }
}

// The edge of a field, where it is an embedded one.
fn edge_of<'a>(field: StructField<'a>, position: usize) -> Option<Embedded<'a>>
    ensures { let l = line_shown field.entry.line in option_map embedded_shown result ≡ edge_if l.embedded position l.term }
{
    match field.line {
        Some(line) => line_edge(line, position),
        None => None,
    }
}

// The edge of a line, where its field is an embedded one.
fn line_edge<'a>(line: &'a FieldLine, position: usize) -> Option<Embedded<'a>>
    ensures { option_map embedded_shown result ≡ edge_if line.now.embedded position (shape line.now.term) }
{
    if line.embedded {
        Some(edge_to(&line.term, position))
    } else {
        None
    }
}

/// Whether a method that is declared of a defined type has an identifier that is written in a package. It takes expected time that does not
/// grow with the number of methods, and no memory. The Go specification, "Uniqueness of identifiers".
pub fn has_own_method(defined: &DefinedType, name: &str, from: &ImportPath) -> bool
    ensures { result ≡ has_method defined.now.key.path defined.now.methods name.now from.now }
{
    let path = &defined.key().path;
    match defined.method_spellings() {
        Some(index) => is_indexed_as(path, index, name, from),
        None => has_method(path, defined.methods(), name, from),
    }
}

// Whether a method has the identifier of a field of a struct type that is so named.
fn has_namesake(defined: &DefinedType, name: &str, term: &TypeTerm) -> bool
    ensures { result ≡ hidden_in defined.now.key.path defined.now.methods name.now (shape term.now) }
{
    match term {
        TypeTerm::Struct(from, _, _) => has_own_method(defined, name, from),
        TypeTerm::NoType
        | TypeTerm::Basic(_)
        | TypeTerm::Error
        | TypeTerm::Defined(_)
        | TypeTerm::Pointer(_)
        | TypeTerm::Interface(_, _) => false,
    }
}

// Whether fields of a name are kept from a defined type by one of its methods: no is answered also where no field is.
fn is_kept(defined: &DefinedType, name: &str) -> bool
    ensures { IsHiding result (entry_owner defined.now) name.now }
{
    if defined.hides_fields() {
        return has_namesake(defined, name, defined.underlying());
    }
    false
}

// The methods that are declared of a defined type and have an identifier.
fn entry_hits<'a>(defined: &'a DefinedType, name: &str, from: &ImportPath) -> Hits<'a>
    ensures { hits_shown result ≡ tallies (tally_of name.now from.now) (declared_found defined.now.key.path defined.now.methods) }
{
    let path = &defined.key().path;
    let methods = defined.methods();
    match defined.method_spellings() {
        Some(index) => indexed_methods(path, methods, index, name, from),
        None => method_hits(path, methods, name, from),
    }
}

// The members of the underlying type of a defined type that have an identifier.
fn under_hits<'a>(defined: &'a DefinedType, name: &str, from: &ImportPath) -> Hits<'a>
    ensures { hits_shown result ≡ tallies (tally_of name.now from.now) (term_found nobody defined.now.term) }
{
    let term = defined.underlying();
    match defined.member_spellings() {
        Some(index) => indexed_hits(term, index, name, from),
        None => term_hits(term, name, from),
    }
}

// Whether a method that is declared of a defined type is spelled so.
fn is_entry_spelled(defined: &DefinedType, name: &str) -> bool
    ensures { result ≡ is_spelled_in (declared_found defined.now.key.path defined.now.methods) name.now }
{
    match defined.method_spellings() {
        Some(index) => is_indexed(index, name),
        None => is_method_spelled(defined.methods(), name),
    }
}

// Whether the underlying type of a defined type has a member that is spelled so.
fn is_under_spelled(defined: &DefinedType, name: &str) -> bool
    ensures { result ≡ is_spelled_in (term_found nobody defined.now.term) name.now }
{
    match defined.member_spellings() {
        Some(index) => is_indexed(index, name),
        None => is_spelled(defined.underlying(), name),
    }
}

// Adds the edge of an embedded field, where the field of a number is one.
fn add_edge<'a>(
    owner: &Owner<'a>,
    position: usize,
    edges: &mut Vec<Embedded<'a>>,
) -> Result<(), AllocError>
    ensures { OnOk result (map embedded_shown edges.new.items ≡ map embedded_shown edges.old.items ++ option_to_list (embeds_at (owner_shown owner.now) position)) }
{
    match owner.embedded(position) {
        Some(edge) => add(edges, edge),
        None => Ok(()),
    }
}

// Adds the methods that are declared of a defined type.
fn add_declared<'a>(
    defined: &'a DefinedType,
    members: &mut Vec<Member<'a>>,
) -> Result<(), AllocError>
    ensures { OnOk result (map named_shown members.new.items ≡ map named_shown members.old.items ++ declared_found defined.now.key.path defined.now.methods) }
{
    add_methods(&defined.key().path, defined.methods(), members)
}

// Adds the fields of a struct type that no method of its owner keeps from it.
fn add_fields<'a>(
    owner: &Owner<'a>,
    path: &'a ImportPath,
    fields: &'a [Field],
    lines: &'a [FieldLine],
    members: &mut Vec<Member<'a>>,
) -> Result<(), AllocError>
    requires { (owner_shown owner.now).underlying ≡ StructOf path.now (fields_in (line_shapes lines.now) fields.now) }
    ensures { OnOk result (map named_shown members.new.items ≡ map named_shown members.old.items ++ fields_found (owner_shown owner.now) path.now (fields_in (line_shapes lines.now) fields.now)) }
{
    for field in fields {
        if !owner.hides(field.name.as_str()) {
            add_member(path, field, lines, members)?;
        }
    }
    Ok(())
}

// Adds a field of these lines.
fn add_member<'a>(
    path: &'a ImportPath,
    field: &'a Field,
    lines: &'a [FieldLine],
    members: &mut Vec<Member<'a>>,
) -> Result<(), AllocError>
    ensures { OnOk result (map named_shown members.new.items ≡ map named_shown members.old.items ++ (field.now.name, (path.now, AFieldOf path.now field.now.place (line_at (line_shapes lines.now) field.now.line).term)) ∷ []) }
{
    add(members, Member::Field(path, StructField::of(field, lines)))
}

// Adds the members of the underlying type of an owner.
fn add_term<'a>(
    owner: &Owner<'a>,
    term: &'a TypeTerm,
    members: &mut Vec<Member<'a>>,
) -> Result<(), AllocError>
    requires { shape term.now ≡ (owner_shown owner.now).underlying }
    ensures { OnOk result (map named_shown members.new.items ≡ map named_shown members.old.items ++ term_found (owner_shown owner.now) (shape term.now)) }
{
    match term {
        TypeTerm::Error => add(members, Member::ErrorMethod),
        TypeTerm::Struct(path, fields, lines) => add_fields(owner, path, fields, lines, members),
        TypeTerm::Interface(path, methods) => add_interface(path, methods, members),
        TypeTerm::NoType | TypeTerm::Basic(_) | TypeTerm::Defined(_) | TypeTerm::Pointer(_) => Ok(
            (),
        ),
    }
}

impl<'a> Owner<'a> {
    /// The members of a type, in a table.
    pub fn of(table: &'a TypeTable, term: &'a TypeTerm) -> Owner<'a>
        ensures { owner_shown result ≡ owner_in (find_entry table.now) (shape term.now) }
    {
        Owner {
            source: source_of(table, term),
        }
    }

    // Its underlying type, or none where the table has not the type.
    fn underlying(&self) -> Option<&'a TypeTerm>
        ensures { shape_found result ≡ (owner_shown self.now).underlying }
    {
        match self.source {
            Source::Entry(defined) => Some(defined.underlying()),
            Source::Missing(_) => None,
            Source::Plain(term) => Some(term),
        }
    }

    // The fields of its struct type, or none where it is none.
    fn fields(&self) -> StructFields<'a>
        ensures { fields_in (line_shapes result.lines.now) result.fields.now ≡ term_fields (owner_shown self.now).underlying }
    {
        match self.underlying() {
            Some(term) => struct_fields(term),
            None => no_fields(),
        }
    }

    // Whether fields of a name are kept from it by one of its methods: no is answered also where no field is.
    fn hides(&self, name: &str) -> bool
        ensures { IsHiding result (owner_shown self.now) name.now }
    {
        match self.source {
            Source::Entry(defined) => is_kept(defined, name),
            Source::Missing(_) => false,
            Source::Plain(_) => false,
        }
    }

    // The methods that are declared of it and have an identifier.
    fn own_hits(&self, name: &str, from: &ImportPath) -> Hits<'a>
        ensures { let o = owner_shown self.now in hits_shown result ≡ tallies (tally_of name.now from.now) (declared_found o.path o.methods) }
    {
        match self.source {
            Source::Entry(defined) => entry_hits(defined, name, from),
            Source::Missing(_) => Hits::Nothing,
            Source::Plain(_) => Hits::Nothing,
        }
    }

    // The members of its underlying type that have an identifier.
    fn underlying_hits(&self, name: &str, from: &ImportPath) -> Hits<'a>
        ensures { hits_shown result ≡ tallies (tally_of name.now from.now) (term_found nobody (owner_shown self.now).underlying) }
    {
        match self.source {
            Source::Entry(defined) => under_hits(defined, name, from),
            Source::Missing(_) => Hits::Nothing,
            Source::Plain(term) => term_hits(term, name, from),
        }
    }

    // Whether a method that is declared of it is spelled so.
    fn is_own_spelled(&self, name: &str) -> bool
        ensures { let o = owner_shown self.now in result ≡ is_spelled_in (declared_found o.path o.methods) name.now }
    {
        match self.source {
            Source::Entry(defined) => is_entry_spelled(defined, name),
            Source::Missing(_) => false,
            Source::Plain(_) => false,
        }
    }

    // Whether its underlying type has a member that is spelled so.
    fn is_underlying_spelled(&self, name: &str) -> bool
        ensures { result ≡ is_spelled_in (term_found nobody (owner_shown self.now).underlying) name.now }
    {
        match self.source {
            Source::Entry(defined) => is_under_spelled(defined, name),
            Source::Missing(_) => false,
            Source::Plain(term) => is_spelled(term, name),
        }
    }

    /// How many fields its struct type has, and 0 where it is none.
    pub fn field_count(&self) -> usize
        ensures { result ≡ owner_field_count (owner_shown self.now) }
    {
        self.fields().fields.len()
    }

    /// The embedded field at a place among the fields, or none where the field there is not embedded, or is kept from the type by a
    /// method of its name. It takes no memory.
    pub fn embedded(&self, position: usize) -> Option<Embedded<'a>>
        ensures { option_map embedded_shown result ≡ embeds_at (owner_shown self.now) position }
    {
        let all = self.fields();
        match all.fields.get(position) {
            Some(field) => {
                if self.hides(field.name.as_str()) {
                    return None;
                }
                edge_of(StructField::of(field, all.lines), position)
            }
            None => None,
        }
    }

    // Adds the methods that are declared of it.
    fn add_own(&self, members: &mut Vec<Member<'a>>) -> Result<(), AllocError>
        ensures { let o = owner_shown self.now in OnOk result (map named_shown members.new.items ≡ map named_shown members.old.items ++ declared_found o.path o.methods) }
    {
        match self.source {
            Source::Entry(defined) => add_declared(defined, members),
            Source::Missing(_) => Ok(()),
            Source::Plain(_) => Ok(()),
        }
    }

    // Adds the members of its underlying type.
    fn add_underlying(&self, members: &mut Vec<Member<'a>>) -> Result<(), AllocError>
        ensures { let o = owner_shown self.now in OnOk result (map named_shown members.new.items ≡ map named_shown members.old.items ++ term_found o o.underlying) }
    {
        match self.underlying() {
            Some(term) => add_term(self, term, members),
            None => Ok(()),
        }
    }

    /// Its members, in order: the methods that are declared of it, and then the members of its underlying type. A field that a method of the
    /// type keeps from it is left out.
    ///
    /// # Errors
    ///
    /// `AllocError` where memory is wanting.
    pub fn members(&self, alloc: Global) -> Result<Vec<Member<'a>>, AllocError>
        ensures { IfOk result (λ members. map named_shown members.items ≡ members_of (owner_shown self.now)) }
    {
        let mut members = Vec::new(alloc);
        self.add_own(&mut members)?;
        self.add_underlying(&mut members)?;
        Ok(members)
    }

    /// The members that an identifier names which is written in a package. Two that it names are more, however alike. It takes no memory.
    pub fn hits(&self, name: &str, from: &ImportPath) -> Hits<'a>
        ensures { AreHits (owner_shown self.now) name.now from.now result }
    {
        let own = self.own_hits(name, from);
        if self.hides(name) {
            return own;
        }
        own.and(self.underlying_hits(name, from))
    }

    /// Whether it has a member that is spelled so, in whichever package. It takes no memory.
    pub fn has_spelled(&self, name: &str) -> bool
        ensures { result ≡ has_spelled (owner_shown self.now) name.now }
    {
        if self.is_own_spelled(name) {
            return true;
        }
        self.is_underlying_spelled(name)
    }
}

/// The embedded fields of a type, in order: its edges to the types that it embeds.
///
/// # Errors
///
/// `AllocError` where memory is wanting.
pub fn embeds<'a>(
    alloc: Global,
    table: &'a TypeTable,
    term: &'a TypeTerm,
) -> Result<Vec<Embedded<'a>>, AllocError>
    ensures { IfOk result (λ edges. map embedded_shown edges.items ≡ embedded_in (owner_in (find_entry table.now) (shape term.now))) }
{
    let owner = Owner::of(table, term);
    let count = owner.field_count();
    let mut edges = Vec::new(alloc);
    for position in 0..count {
        add_edge(&owner, position, &mut edges)?;
    }
    Ok(edges)
}
