//! Types with an index of their members by name.
ghost use Rattle.std.specs.Prelude.{◌≡◌, IfOk, IfSome, map};
ghost use Rattle.go_term_core.specs.Shapes.{shape};
ghost use Rattle.go_collections_core.specs.spelling_index.Spelled.{AreSpelled, places_of};
ghost use Rattle.go_table_core.specs.MemberNames.{term_names};
ghost use Rattle.go_table_core.specs.Methods.{term_fields};
ghost use Rattle.go_table_core.specs.mirrors.Ordered.{IsFieldIndex};

use crate::entry::DeclaredMethod;
use crate::fields::{FieldTable, has_order};
use go_collections_core::spelling_index::Spellings;
use go_collections_core::text_core::add;
use go_term_core::{Field, Method, TypeTerm};
use std::alloc::{AllocError, Global};
use std::marker::Model;

/// From how many names on a list has an index; of fewer each is looked for.
const INDEX_FROM: usize = 12;

/// A type with an index of its members by their names, where it has many: of the fields of a struct type, or the methods of an interface
/// type. Contracts see the type.
pub struct IndexedTerm {
    term: TypeTerm,
    members: Option<Spellings>,
    /// Whether its fields stand in order of their places, as those of one declaration do.
    in_order: bool,
}

impl Drop for IndexedTerm {
    fn drop(self) {
        let IndexedTerm {
            term: _,
            members: _,
            in_order: _,
        } = self;
    }
}

impl Model for IndexedTerm {
    ghost use Rattle.go_term_core.specs.Terms.{Term};
    ghost use Rattle.go_term_core.specs.codes.TermCodes.{coded_term};
    ghost use Rattle.go_term_core.specs.Shapes.{shape};
    ghost use Rattle.go_table_core.specs.mirrors.Kept.{IsIndexed};

    ghost Value = { Term };

    ghost coded = { coded_term };

    ghost view = { λ t. shape t.term };

    ghost invariant = { λ t. IsIndexed t.members t.in_order (shape t.term) };
}

// The names of fields.
fn field_names<'a>(alloc: Global, fields: &'a [Field]) -> Result<Vec<&'a str>, AllocError>
    ensures { IfOk result (λ names. map (λ n. n.now) names.items ≡ map (λ f. f.name) fields.now) }
{
    let mut names = Vec::with_capacity(alloc, fields.len())?;
    for field in fields {
        add(&mut names, field.name.as_str())?;
    }
    Ok(names)
}

// The names of the methods of an interface type.
fn interface_names<'a>(alloc: Global, methods: &'a [Method]) -> Result<Vec<&'a str>, AllocError>
    ensures { IfOk result (λ names. map (λ n. n.now) names.items ≡ map (λ m. m.name) methods.now) }
{
    let mut names = Vec::with_capacity(alloc, methods.len())?;
    for method in methods {
        add(&mut names, method.name.as_str())?;
    }
    Ok(names)
}

// The names of methods that are declared of a type.
fn method_names<'a>(
    alloc: Global,
    methods: &'a [DeclaredMethod],
) -> Result<Vec<&'a str>, AllocError>
    ensures { IfOk result (λ names. map (λ n. n.now) names.items ≡ map (λ m. m.name) methods.now) }
{
    let mut names = Vec::with_capacity(alloc, methods.len())?;
    for method in methods {
        add(&mut names, method.name.as_str())?;
    }
    Ok(names)
}

// An index of the names of fields, where there are many.
fn field_index(alloc: Global, fields: &[Field]) -> Result<Option<Spellings>, AllocError>
    ensures { IfOk result (λ index. IfSome index (λ s. AreSpelled (places_of s) (map (λ f. f.name) fields.now))) }
{
    if fields.len() < INDEX_FROM {
        return Ok(None);
    }
    let names = field_names(alloc, fields)?;
    let index = Spellings::of(alloc, names.as_slice())?;
    Ok(Some(index))
}

// An index of the names of the methods of an interface type, where there are many.
fn interface_index(alloc: Global, methods: &[Method]) -> Result<Option<Spellings>, AllocError>
    ensures { IfOk result (λ index. IfSome index (λ s. AreSpelled (places_of s) (map (λ m. m.name) methods.now))) }
{
    if methods.len() < INDEX_FROM {
        return Ok(None);
    }
    let names = interface_names(alloc, methods)?;
    let index = Spellings::of(alloc, names.as_slice())?;
    Ok(Some(index))
}

/// An index of the names of methods that are declared of a type, where there are many.
pub(crate) fn method_index(
    alloc: Global,
    methods: &[DeclaredMethod],
) -> Result<Option<Spellings>, AllocError>
    ensures { IfOk result (λ index. IfSome index (λ s. AreSpelled (places_of s) (map (λ m. m.name) methods.now))) }
{
    if methods.len() < INDEX_FROM {
        return Ok(None);
    }
    let names = method_names(alloc, methods)?;
    let index = Spellings::of(alloc, names.as_slice())?;
    Ok(Some(index))
}

// An index of the members of a type as it is written, where they are many.
fn term_index(alloc: Global, term: &TypeTerm) -> Result<Option<Spellings>, AllocError>
    ensures { IfOk result (λ index. IfSome index (λ s. AreSpelled (places_of s) (term_names (shape term.now)))) }
{
    match term {
        TypeTerm::Struct(_, fields, _) => field_index(alloc, fields),
        TypeTerm::Interface(_, methods) => interface_index(alloc, methods),
        TypeTerm::NoType
        | TypeTerm::Basic(_)
        | TypeTerm::Error
        | TypeTerm::Defined(_)
        | TypeTerm::Pointer(_) => Ok(None),
    }
}

impl IndexedTerm {
    /// A type with an index of its members. It takes expected time that is linear in them.
    ///
    /// # Errors
    ///
    /// `AllocError` where memory is wanting.
    pub fn of(alloc: Global, term: TypeTerm) -> Result<IndexedTerm, AllocError>
        ensures { IfOk result (λ t. t ≡ shape term) }
    {
        let members = term_index(alloc, &term)?;
        let in_order = has_order(&term);
        Ok(IndexedTerm {
            term,
            members,
            in_order,
        })
    }

    /// The type.
    pub fn term(&self) -> &TypeTerm
        ensures { shape result.now ≡ self.now }
    {
        &self.term
    }

    /// Where the names of its members stand among them, where they are many.
    pub(crate) fn members(&self) -> Option<&Spellings>
        ensures { IfSome result (λ s. AreSpelled (places_of s.now) (term_names self.now)) }
    {
        match &self.members {
            Some(members) => Some(members),
            None => None,
        }
    }

    // Where the names of the fields of a struct type stand among them, where they are many and stand in order.
    fn fields(&self) -> Option<&Spellings>
        ensures { IfSome result (λ s. IsFieldIndex (places_of s.now) (term_fields self.now)) }
    {
        if !self.in_order {
            return None;
        }
        match &self.term {
            TypeTerm::Struct(_, _, _) => self.members(),
            TypeTerm::NoType
            | TypeTerm::Basic(_)
            | TypeTerm::Error
            | TypeTerm::Defined(_)
            | TypeTerm::Pointer(_)
            | TypeTerm::Interface(_, _) => None,
        }
    }

    /// The fields of the type. It takes constant time where they are many and stand in order of their places, as those of one declaration
    /// do; else it grows with their number.
    ///
    /// # Errors
    ///
    /// `AllocError` where memory is wanting.
    pub fn field_table(&self, alloc: Global) -> Result<FieldTable<'_>, AllocError>
        ensures { IfOk result (λ table. table ≡ self.now) }
    {
        match self.fields() {
            Some(index) => Ok(FieldTable::over(&self.term, index)),
            None => FieldTable::of(alloc, &self.term),
        }
    }
}
