//! Members that a type has itself or by embedded fields, by the names that lead to them.

use crate::fields::{StructParts, parts_of};
use go_diagnostic_core::Words;
use go_graph_core::path_core::ImportPath;
use go_handle_core::table_core::TypeTable;
use go_term_core::{Field, FieldLine, TypeTerm};
use go_tree_nodes::text_core::{add, is_exported};
use std::alloc::{AllocError, Global};

/// How many levels of embedded fields are gone through.
const LEVELS: usize = 8;

/// How many types of a level are looked at.
const MOST: usize = 32;

/// Where a member is declared.
#[derive(Clone, Copy)]
pub enum Owner<'t> {
    /// In the package of a path.
    Package(&'t ImportPath),
    /// In the universe: the method of `error`.
    Universe,
}

impl<'t> Owner<'t> {
    /// The path of the package; none of the universe.
    pub fn path(self) -> Option<&'t ImportPath> {
        match self {
            Owner::Package(path) => Some(path),
            Owner::Universe => None,
        }
    }

    /// Whether a member of a name that is declared there is seen in the package of a path.
    pub(crate) fn shows(self, name: &str, from: &ImportPath) -> bool {
        match self {
            Owner::Package(path) => is_exported(name) || path.is_same(from),
            Owner::Universe => true,
        }
    }
}

/// A member that a type has itself or by embedded fields.
pub struct Way<'t> {
    /// The names of the embedded fields that lead there and its own, with dots between them.
    pub path: String,
    /// Where it is declared.
    pub owner: Owner<'t>,
    /// Whether each of these fields is seen in the package that asks.
    pub is_open: bool,
}

impl Drop for Way<'_> {
    fn drop(self) {
        let Way {
            path: _,
            owner: _,
            is_open: _,
        } = self;
    }
}

// A type that embedded fields lead to.
struct Step<'t> {
    /// The names of these fields, with a dot after each.
    path: String,
    term: &'t TypeTerm,
    /// Whether each of them is seen in the package that asks.
    is_open: bool,
}

impl Drop for Step<'_> {
    fn drop(self) {
        let Step {
            path: _,
            term: _,
            is_open: _,
        } = self;
    }
}

/// An embedded field of a struct type, with its type.
#[derive(Clone, Copy)]
pub struct Embedded<'t> {
    pub field: &'t Field,
    pub term: &'t TypeTerm,
}

/// What a pointer type points to; any other type itself.
pub fn target_of(term: &TypeTerm) -> &TypeTerm {
    match term {
        TypeTerm::Pointer(target) => &**target,
        TypeTerm::NoType => term,
        TypeTerm::Basic(_) => term,
        TypeTerm::Error => term,
        TypeTerm::Defined(_) => term,
        TypeTerm::Struct(_, _, _) => term,
        TypeTerm::Interface(_, _) => term,
    }
}

/// Whether a defined type has a method of a name that is declared with a receiver.
pub fn has_method(table: &TypeTable, term: &TypeTerm, name: &str) -> bool {
    match term {
        TypeTerm::Defined(key) => match table.locate(key) {
            Some(located) => {
                for method in located.defined.methods() {
                    if method.name.as_str() == name {
                        return true;
                    }
                }
                false
            }
            None => false,
        },
        TypeTerm::NoType => false,
        TypeTerm::Basic(_) => false,
        TypeTerm::Error => false,
        TypeTerm::Pointer(_) => false,
        TypeTerm::Struct(_, _, _) => false,
        TypeTerm::Interface(_, _) => false,
    }
}

/// The name of the first method of a defined type that differs from a name in upper and lower case of ASCII letters alone, and is declared with a receiver; none where
/// none does.
pub(crate) fn method_in_case<'t>(
    table: &'t TypeTable,
    term: &'t TypeTerm,
    name: &str,
) -> Option<&'t str> {
    let TypeTerm::Defined(key) = term else {
        return None;
    };
    let located = table.locate(key)?;
    for method in located.defined.methods() {
        let found = method.name.as_str();
        if found != name && found.eq_ignore_ascii_case(name) {
            return Some(found);
        }
    }
    None
}

// Where a defined type is declared; none of another type.
fn package_of(term: &TypeTerm) -> Option<&ImportPath> {
    match term {
        TypeTerm::Defined(key) => Some(&key.path),
        TypeTerm::NoType => None,
        TypeTerm::Basic(_) => None,
        TypeTerm::Error => None,
        TypeTerm::Pointer(_) => None,
        TypeTerm::Struct(_, _, _) => None,
        TypeTerm::Interface(_, _) => None,
    }
}

// Where the field of a name is declared that a struct type has; none where it has none.
fn field_owner<'t>(parts: StructParts<'t>, name: &str) -> Option<Owner<'t>> {
    if parts.number_of(name).is_some() {
        return Some(Owner::Package(parts.path));
    }
    None
}

// Where the field or the method of a name is declared that an underlying type has; none where it has none.
fn owner_under<'t>(under: &'t TypeTerm, name: &str) -> Option<Owner<'t>> {
    match under {
        TypeTerm::Struct(_, _, _) => match parts_of(under) {
            Some(parts) => field_owner(parts, name),
            None => None,
        },
        TypeTerm::Interface(path, methods) => {
            for method in methods {
                if method.name.as_str() == name {
                    return Some(Owner::Package(path));
                }
            }
            None
        }
        TypeTerm::Error => {
            if name == "Error" {
                return Some(Owner::Universe);
            }
            None
        }
        TypeTerm::NoType => None,
        TypeTerm::Basic(_) => None,
        TypeTerm::Defined(_) => None,
        TypeTerm::Pointer(_) => None,
    }
}

/// Where the member of a name is declared that a type has itself; none where it has none.
pub(crate) fn owner_in<'t>(
    table: &'t TypeTable,
    term: &'t TypeTerm,
    name: &str,
) -> Option<Owner<'t>> {
    if has_method(table, term, name) {
        let path = package_of(term)?;
        return Some(Owner::Package(path));
    }
    owner_under(table.underlying(term), name)
}

/// Whether a member that a type may have is there, and is seen in the package of a path.
pub(crate) fn is_shown(owner: Option<Owner<'_>>, name: &str, from: &ImportPath) -> bool {
    match owner {
        Some(owner) => owner.shows(name, from),
        None => false,
    }
}

// Adds the member of a name that the type of a step has itself, where it is seen in the package of a path as it is asked.
fn add_member<'t>(
    table: &'t TypeTable,
    step: &Step<'t>,
    words: Words,
    name: &str,
    from: &ImportPath,
    is_seen: bool,
    found: &mut Vec<Way<'t>>,
) -> Result<(), AllocError> {
    let Some(owner) = owner_in(table, step.term, name) else {
        return Ok(());
    };
    if owner.shows(name, from) != is_seen {
        return Ok(());
    }
    let path = words.and(step.path.as_str()).and(name).text()?;
    let is_open = step.is_open;
    add(
        found,
        Way {
            path,
            owner,
            is_open,
        },
    )
}

// The members of a name that types of a level have themselves: those that are seen in the package of a path, or those that are not.
fn members_at<'t>(
    alloc: Global,
    table: &'t TypeTable,
    steps: &[Step<'t>],
    name: &str,
    from: &ImportPath,
    is_seen: bool,
) -> Result<Vec<Way<'t>>, AllocError> {
    let mut found = Vec::new(alloc);
    for step in steps {
        let words = Words::new(alloc);
        add_member(table, step, words, name, from, is_seen, &mut found)?;
    }
    Ok(found)
}

// The embedded field that a field is; none where it is no embedded one.
fn as_embedded<'t>(lines: &'t [FieldLine], field: &'t Field) -> Option<Embedded<'t>> {
    let line = lines.get(field.line)?;
    if line.embedded {
        return Some(Embedded {
            field,
            term: &line.term,
        });
    }
    None
}

// The type of an embedded field of the type of a step, without its star.
fn next_step<'t>(
    alloc: Global,
    step: &Step<'t>,
    next: Embedded<'t>,
    is_seen: bool,
) -> Result<Step<'t>, AllocError> {
    let path = Words::new(alloc)
        .and(step.path.as_str())
        .and(next.field.name.as_str())
        .and(".")
        .text()?;
    let term = target_of(next.term);
    let is_open = step.is_open && is_seen;
    Ok(Step {
        path,
        term,
        is_open,
    })
}

// Adds the types of the embedded fields of a struct type.
fn add_embedded<'t>(
    alloc: Global,
    parts: StructParts<'t>,
    step: &Step<'t>,
    from: &ImportPath,
    steps: &mut Vec<Step<'t>>,
) -> Result<(), AllocError> {
    for field in parts.fields {
        if steps.len() >= MOST {
            return Ok(());
        }
        if let Some(next) = as_embedded(parts.lines, field) {
            let is_seen = parts.shows(field.name.as_str(), from);
            let next = next_step(alloc, step, next, is_seen)?;
            add(steps, next)?;
        }
    }
    Ok(())
}

// The types of the embedded fields of the types of a level.
fn deeper<'t>(
    alloc: Global,
    table: &'t TypeTable,
    steps: &[Step<'t>],
    from: &ImportPath,
) -> Result<Vec<Step<'t>>, AllocError> {
    let mut next = Vec::new(alloc);
    for step in steps {
        if let Some(parts) = parts_of(table.underlying(step.term)) {
            add_embedded(alloc, parts, step, from, &mut next)?;
        }
    }
    Ok(next)
}

// The level that has a type alone, or what it points to.
fn first_level<'t>(alloc: Global, term: &'t TypeTerm) -> Result<Vec<Step<'t>>, AllocError> {
    let mut steps = Vec::new(alloc);
    let step = Step {
        path: String::new(alloc),
        term: target_of(term),
        is_open: true,
    };
    add(&mut steps, step)?;
    Ok(steps)
}

/// The members of a name at the least depth below a type, or below what it points to: of those that are seen in the package of a path, or of those that are not. None
/// where there is none within eight levels; of more than 32 types of a level the first ones are looked at.
///
/// The Go specification, "Selectors", "Exported identifiers".
///
/// # Errors
///
/// `AllocError` where memory is wanting.
pub fn shallowest<'t>(
    alloc: Global,
    table: &'t TypeTable,
    term: &'t TypeTerm,
    name: &str,
    from: &ImportPath,
    is_seen: bool,
) -> Result<Vec<Way<'t>>, AllocError> {
    let mut steps = first_level(alloc, term)?;
    for _level in 0..LEVELS {
        let found = members_at(alloc, table, &steps, name, from, is_seen)?;
        if !found.is_empty() {
            return Ok(found);
        }
        let next = deeper(alloc, table, &steps, from)?;
        steps = next;
    }
    Ok(Vec::new(alloc))
}

/// The first embedded field of a struct type whose type, without its star, has a member of a name itself that is seen in the package of a path; none where none has.
///
/// The Go specification, "Struct types".
pub fn embedded_with<'t>(
    table: &'t TypeTable,
    parts: StructParts<'t>,
    name: &str,
    from: &ImportPath,
) -> Option<Embedded<'t>> {
    for field in parts.fields {
        if let Some(found) = as_embedded(parts.lines, field) {
            let owner = owner_in(table, target_of(found.term), name);
            if is_shown(owner, name, from) {
                return Some(found);
            }
        }
    }
    None
}

/// What a pointer type points to that makes it have no members, in words: `a pointer to an interface`. None where that is no pointer and no interface, and of another
/// type.
///
/// The Go specification, "Selectors".
pub fn deep_pointer<'t>(table: &'t TypeTable, term: &'t TypeTerm) -> Option<&'static str> {
    match table.underlying(term) {
        TypeTerm::Pointer(target) => match table.underlying(&**target) {
            TypeTerm::Pointer(_) => Some("a pointer to a pointer"),
            TypeTerm::Error => Some("a pointer to an interface"),
            TypeTerm::Interface(_, _) => Some("a pointer to an interface"),
            TypeTerm::NoType => None,
            TypeTerm::Basic(_) => None,
            TypeTerm::Defined(_) => None,
            TypeTerm::Struct(_, _, _) => None,
        },
        TypeTerm::NoType => None,
        TypeTerm::Basic(_) => None,
        TypeTerm::Error => None,
        TypeTerm::Defined(_) => None,
        TypeTerm::Struct(_, _, _) => None,
        TypeTerm::Interface(_, _) => None,
    }
}
