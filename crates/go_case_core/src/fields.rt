//! Fields of struct types.

use crate::case::Case;
use crate::telling::{counted, separate, type_told};
use go_diagnostic_core::{Message, Words, digits};
use go_graph_core::path_core::ImportPath;
use go_handle_core::table_core::TypeTable;
use go_term_core::{Field, FieldLine, TypeTerm};
use go_tree_nodes::text_core::is_exported;
use std::alloc::{AllocError, Global};

/// The fields of a struct type in order, with the lines that they stand in.
#[derive(Clone, Copy)]
pub struct StructParts<'t> {
    /// The path of the package where the struct type is written.
    pub path: &'t ImportPath,
    pub fields: &'t [Field],
    pub lines: &'t [FieldLine],
}

/// The fields of a type as it stands; none of one that is no struct type.
pub fn parts_of(term: &TypeTerm) -> Option<StructParts<'_>> {
    match term {
        TypeTerm::Struct(path, fields, lines) => Some(StructParts {
            path,
            fields: fields.as_slice(),
            lines: lines.as_slice(),
        }),
        TypeTerm::NoType => None,
        TypeTerm::Basic(_) => None,
        TypeTerm::Error => None,
        TypeTerm::Defined(_) => None,
        TypeTerm::Pointer(_) => None,
        TypeTerm::Interface(_, _) => None,
    }
}

// The fields of what lies under a type; none where that is no struct type.
fn parts_under<'t>(table: &'t TypeTable, term: &'t TypeTerm) -> Option<StructParts<'t>> {
    parts_of(table.underlying(term))
}

impl<'t> StructParts<'t> {
    /// The number, from 0, of the field of a name.
    pub fn number_of(self, name: &str) -> Option<usize> {
        let mut number: usize = 0;
        for field in self.fields {
            if field.name.as_str() == name {
                return Some(number);
            }
            number = number.saturating_add(1);
        }
        None
    }

    /// The type of the field of a number, from 0.
    pub fn type_at(self, number: usize) -> Option<&'t TypeTerm> {
        let field = self.fields.get(number)?;
        match self.lines.get(field.line) {
            Some(line) => Some(&line.term),
            None => None,
        }
    }

    /// Whether a field of a name is seen in the package of a path.
    ///
    /// The Go specification, "Exported identifiers".
    pub fn shows(self, name: &str, from: &ImportPath) -> bool {
        is_exported(name) || self.path.is_same(from)
    }

    // The number, from 0, of the first field that is not seen in the package of a path.
    fn first_hidden(self, from: &ImportPath) -> Option<usize> {
        let mut number: usize = 0;
        for field in self.fields {
            if !self.shows(field.name.as_str(), from) {
                return Some(number);
            }
            number = number.saturating_add(1);
        }
        None
    }

    // The name of the field of a number, from 0; nothing where there is none.
    fn name_at(self, number: usize) -> &'t str {
        match self.fields.get(number) {
            Some(field) => field.name.as_str(),
            None => "",
        }
    }

    /// The names of the first fields, with commas between them.
    ///
    /// # Errors
    ///
    /// `AllocError` where memory is wanting.
    pub fn names(self, alloc: Global) -> Result<String, AllocError> {
        let mut text = String::new(alloc);
        let mut number: usize = 0;
        for field in self.fields {
            if !separate(number, &mut text)? {
                break;
            }
            text.push_str(field.name.as_str())?;
            number = number.saturating_add(1);
        }
        Ok(text)
    }
}

/// Adds which field of a struct type is not seen at the place of a fault, the first one, and which element of a literal would set it.
///
/// # Errors
///
/// `AllocError` where memory is wanting.
pub fn add_hidden_field(
    alloc: Global,
    case: &Case<'_>,
    parts: StructParts<'_>,
    message: &mut Message,
) -> Result<(), AllocError> {
    let Some(number) = parts.first_hidden(case.here.path()) else {
        return Ok(());
    };
    let which = digits(alloc, number.saturating_add(1))?;
    message.note(
        Words::new(alloc)
            .and("field ")
            .and(parts.name_at(number))
            .and(" is not exported, and element ")
            .and(which.as_str())
            .and(" would set it"),
    )
}

/// Two struct types that differ, with what each is told as.
struct Differing<'t> {
    one: StructParts<'t>,
    other: StructParts<'t>,
    one_told: String,
    other_told: String,
}

impl Drop for Differing<'_> {
    fn drop(self) {
        let Differing {
            one: _,
            other: _,
            one_told: _,
            other_told: _,
        } = self;
    }
}

// Two struct types, with what each is told as.
fn pair_of<'t>(
    one: StructParts<'t>,
    other: StructParts<'t>,
    one_told: String,
    other_told: String,
) -> Differing<'t> {
    Differing {
        one,
        other,
        one_told,
        other_told,
    }
}

// Adds how many fields each has.
fn add_counts(
    alloc: Global,
    pair: &Differing<'_>,
    message: &mut Message,
) -> Result<(), AllocError> {
    let count = counted(alloc, pair.one.fields.len(), "field")?;
    let other = counted(alloc, pair.other.fields.len(), "field")?;
    message.note(
        Words::new(alloc)
            .and(pair.one_told.as_str())
            .and(" has ")
            .and(count.as_str())
            .and(", and ")
            .and(pair.other_told.as_str())
            .and(" ")
            .and(other.as_str()),
    )
}

// The number, from 0, of the first field that is called otherwise in the other.
fn first_renamed(pair: &Differing<'_>) -> Option<usize> {
    let mut number: usize = 0;
    for field in pair.one.fields {
        if field.name.as_str() != pair.other.name_at(number) {
            return Some(number);
        }
        number = number.saturating_add(1);
    }
    None
}

// Adds that the fields of a number have different names.
fn add_renamed(
    alloc: Global,
    pair: &Differing<'_>,
    number: usize,
    message: &mut Message,
) -> Result<(), AllocError> {
    message.note(
        Words::new(alloc)
            .and("where ")
            .and(pair.one_told.as_str())
            .and(" has field ")
            .and(pair.one.name_at(number))
            .and(", ")
            .and(pair.other_told.as_str())
            .and(" has ")
            .and(pair.other.name_at(number)),
    )
}

// Adds the first field in which both differ by its type as it is told.
fn add_other_type(
    alloc: Global,
    case: &Case<'_>,
    pair: &Differing<'_>,
    message: &mut Message,
) -> Result<(), AllocError> {
    for number in 0..pair.one.fields.len() {
        if let (Some(left), Some(right)) = (pair.one.type_at(number), pair.other.type_at(number)) {
            let left = type_told(alloc, case, left)?;
            let right = type_told(alloc, case, right)?;
            if left.as_str() != right.as_str() {
                return message.note(
                    Words::new(alloc)
                        .and("field ")
                        .and(pair.one.name_at(number))
                        .and(" is ")
                        .and(left.as_str())
                        .and(" in ")
                        .and(pair.one_told.as_str())
                        .and(", and ")
                        .and(right.as_str())
                        .and(" in ")
                        .and(pair.other_told.as_str()),
                );
            }
        }
    }
    Ok(())
}

// Adds in which field two struct types differ.
fn add_first_other(
    alloc: Global,
    case: &Case<'_>,
    pair: &Differing<'_>,
    message: &mut Message,
) -> Result<(), AllocError> {
    if pair.one.fields.len() != pair.other.fields.len() {
        return add_counts(alloc, pair, message);
    }
    match first_renamed(pair) {
        Some(number) => add_renamed(alloc, pair, number, message),
        None => add_other_type(alloc, case, pair, message),
    }
}

// Adds in which field two struct types differ, where both are struct types.
fn add_difference_of<'t>(
    alloc: Global,
    case: &'t Case<'_>,
    one: &'t TypeTerm,
    other: &'t TypeTerm,
    message: &mut Message,
) -> Result<(), AllocError> {
    let table = case.setting.table();
    let Some(left) = parts_under(table, one) else {
        return Ok(());
    };
    let Some(right) = parts_under(table, other) else {
        return Ok(());
    };
    let one_told = type_told(alloc, case, one)?;
    let other_told = type_told(alloc, case, other)?;
    let pair = pair_of(left, right, one_told, other_told);
    add_first_other(alloc, case, &pair, message)
}

/// Adds in which field two struct types differ, by how many there are, by its name or by its type; nothing where one of the two is no struct type.
///
/// # Errors
///
/// `AllocError` where memory is wanting.
pub fn add_difference(
    alloc: Global,
    case: &Case<'_>,
    one: &TypeTerm,
    other: &TypeTerm,
    message: &mut Message,
) -> Result<(), AllocError> {
    add_difference_of(alloc, &*case, &*one, &*other, message)
}
