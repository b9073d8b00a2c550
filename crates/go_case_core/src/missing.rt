//! Why a value of a type does not fit an interface type.

use crate::case::Case;
use crate::embedded::{deep_pointer, method_in_case, shallowest};
use crate::telling::{method_told, type_told};
use go_diagnostic_core::{LineKind, Message, Words};
use go_graph_core::path_core::ImportPath;
use go_handle_core::table_core::TypeTable;
use go_mset_core::select_core::{Member, select};
use go_mset_core::{Missing, implements, implements_by_pointer};
use go_term_core::{Signature, TypeTerm};
use go_tree_nodes::text_core::Rule;
use std::alloc::{AllocError, Global};

/// A value that is given where a type is wanted.
#[derive(Clone, Copy)]
pub struct GivenValue<'t> {
    /// Its type.
    pub(crate) term: &'t TypeTerm,
    /// The value as it is shown.
    pub(crate) written: &'t str,
    /// Whether it has an address.
    pub(crate) addressable: bool,
}

impl<'t> GivenValue<'t> {
    /// A value of a type, as it is shown, and whether it has an address.
    pub fn new(term: &'t TypeTerm, written: &'t str, addressable: bool) -> GivenValue<'t> {
        GivenValue {
            term,
            written,
            addressable,
        }
    }

    /// Whether it is shown to its end: two dots stand for the rest, and no expression ends with one.
    pub(crate) fn is_whole(self) -> bool {
        !self.written.ends_with('.')
    }

    /// Whether it takes `&` in front, as it is shown: it is a composite literal, or has an address.
    pub(crate) fn takes_ampersand(self) -> bool {
        self.written.ends_with('}') || self.addressable
    }
}

/// A value that is given where an interface type is wanted.
#[derive(Clone, Copy)]
struct Asked<'t> {
    table: &'t TypeTable,
    value: GivenValue<'t>,
    /// The type of the value without its star.
    base: &'t TypeTerm,
    /// Whether there is a star.
    is_pointer: bool,
    wanted: &'t TypeTerm,
    /// The package in which the methods are asked for: that of the interface type where it is written out, else that of the fault.
    from: &'t ImportPath,
}

// Whether a type implements an interface type, or a pointer to it.
fn answer_of<'t>(
    alloc: Global,
    asked: &Asked<'t>,
    is_pointer: bool,
) -> Result<Result<(), Missing<'t>>, AllocError> {
    if is_pointer {
        return implements_by_pointer(alloc, asked.table, asked.base, asked.wanted);
    }
    implements(alloc, asked.table, asked.base, asked.wanted)
}

// The name of the first method that the type of a value lacks, or a pointer to it; none where it lacks none.
fn lacked(
    alloc: Global,
    asked: &Asked<'_>,
    is_pointer: bool,
) -> Result<Option<String>, AllocError> {
    match answer_of(alloc, asked, is_pointer)? {
        Ok(()) => Ok(None),
        Err(found) => Ok(Some(String::from_str(alloc, found.name)?)),
    }
}

// Whether what lies under a type is an interface type.
fn is_interface<'t>(table: &'t TypeTable, term: &'t TypeTerm) -> bool {
    match table.underlying(term) {
        TypeTerm::Interface(_, _) => true,
        TypeTerm::Error => true,
        TypeTerm::NoType => false,
        TypeTerm::Basic(_) => false,
        TypeTerm::Defined(_) => false,
        TypeTerm::Pointer(_) => false,
        TypeTerm::Struct(_, _, _) => false,
    }
}

// The package where an interface type is written out; another one where it is none.
fn written_in<'t>(
    table: &'t TypeTable,
    term: &'t TypeTerm,
    other: &'t ImportPath,
) -> &'t ImportPath {
    match table.underlying(term) {
        TypeTerm::Interface(path, _) => path,
        TypeTerm::Error => other,
        TypeTerm::NoType => other,
        TypeTerm::Basic(_) => other,
        TypeTerm::Defined(_) => other,
        TypeTerm::Pointer(_) => other,
        TypeTerm::Struct(_, _, _) => other,
    }
}

// What a pointer type points to, and whether it is one.
fn pointed(term: &TypeTerm) -> (&TypeTerm, bool) {
    match term {
        TypeTerm::Pointer(target) => (&**target, true),
        TypeTerm::NoType => (term, false),
        TypeTerm::Basic(_) => (term, false),
        TypeTerm::Error => (term, false),
        TypeTerm::Defined(_) => (term, false),
        TypeTerm::Struct(_, _, _) => (term, false),
        TypeTerm::Interface(_, _) => (term, false),
    }
}

// Adds that a method has a pointer receiver, so that a pointer has it alone, and what to write where a pointer has all methods.
fn add_by_pointer(
    alloc: Global,
    name: &str,
    told: &str,
    value: GivenValue<'_>,
    has_all: bool,
    message: &mut Message,
) -> Result<(), AllocError> {
    message.note(
        Words::new(alloc)
            .and("method ")
            .and(name)
            .and(" has a pointer receiver: *")
            .and(told)
            .and(" has it, but ")
            .and(told)
            .and(" does not"),
    )?;
    if has_all {
        return add_address(alloc, value, message);
    }
    Ok(())
}

/// Adds how a pointer to a value is written: with `&` in front of it, or in front of a variable that it is put in first.
///
/// # Errors
///
/// `AllocError` where memory is wanting.
pub(crate) fn add_address(
    alloc: Global,
    value: GivenValue<'_>,
    message: &mut Message,
) -> Result<(), AllocError> {
    if !value.is_whole() {
        return Ok(());
    }
    let words = Words::new(alloc);
    if value.takes_ampersand() {
        return message.help(words.and("write &").and(value.written));
    }
    message.help(
        words.and("put ").and(value.written).and(
            " in a variable first, and write & in front of the variable",
        ),
    )
}

// What there is of the name of a method that a type lacks.
enum Instead<'t> {
    /// A method with another signature; none stands for that of the method of `error`.
    Method(Option<&'t Signature>),
    /// A field, or a member of an embedded field, by the names that lead there.
    Member(String),
    /// A method whose name differs in upper and lower case.
    InCase(&'t str),
    Nothing,
}

impl Drop for Instead<'_> {
    fn drop(self) {
        match self {
            Instead::Method(_) => {}
            Instead::Member(_) => {}
            Instead::InCase(_) => {}
            Instead::Nothing => {}
        }
    }
}

// What a selector of a name denotes after a value without the star of its type; none where it denotes nothing.
fn selected<'t>(
    alloc: Global,
    asked: &Asked<'t>,
    name: &str,
) -> Result<Option<Member<'t>>, AllocError> {
    match select(alloc, asked.table, asked.base, name, asked.from) {
        Ok(found) => Ok(Some(found.member)),
        Err(rule) => {
            if rule == Rule::M0 {
                return Err(AllocError);
            }
            Ok(None)
        }
    }
}

// The first member of a name by embedded fields, or else a method whose name is spelled nearly so.
fn by_embedding<'t>(
    alloc: Global,
    asked: &Asked<'t>,
    name: &str,
) -> Result<Instead<'t>, AllocError> {
    let ways = shallowest(alloc, asked.table, asked.base, name, asked.from, true)?;
    if let Some(way) = ways.first() {
        let path = String::from_str(alloc, way.path.as_str())?;
        return Ok(Instead::Member(path));
    }
    match method_in_case(asked.table, asked.base, name) {
        Some(found) => Ok(Instead::InCase(found)),
        None => Ok(Instead::Nothing),
    }
}

// What there is of the name of a method that the type of a value lacks.
fn in_place<'t>(alloc: Global, asked: &Asked<'t>, name: &str) -> Result<Instead<'t>, AllocError> {
    match selected(alloc, asked, name)? {
        Some(Member::Method(_, method)) => Ok(Instead::Method(Some(&method.signature))),
        Some(Member::InterfaceMethod(_, method)) => Ok(Instead::Method(Some(&method.signature))),
        Some(Member::ErrorMethod) => Ok(Instead::Method(None)),
        Some(Member::Field(_, _)) => by_embedding(alloc, asked, name),
        None => by_embedding(alloc, asked, name),
    }
}

// The signature of the method of a name that an interface type asks for; none of the method of `error`.
fn wanted_signature<'t>(asked: &Asked<'t>, name: &str) -> Option<&'t Signature> {
    let TypeTerm::Interface(_, methods) = asked.table.underlying(asked.wanted) else {
        return None;
    };
    for method in methods {
        if method.name.as_str() == name {
            return Some(&method.signature);
        }
    }
    None
}

// A method of a name with its signature; where there is none, the method of `error`.
fn signature_told(
    alloc: Global,
    case: &Case<'_>,
    name: &str,
    signature: Option<&Signature>,
) -> Result<String, AllocError> {
    match signature {
        Some(signature) => method_told(alloc, case, name, signature),
        None => String::from_str(alloc, "Error() string"),
    }
}

// Adds the method that a type has, and the one that is wanted of it.
fn add_signatures(
    alloc: Global,
    case: &Case<'_>,
    asked: &Asked<'_>,
    name: &str,
    has: Option<&Signature>,
    message: &mut Message,
) -> Result<(), AllocError> {
    let have = signature_told(alloc, case, name, has)?;
    message.line(LineKind::Have, Words::new(alloc).and(have.as_str()))?;
    let want = signature_told(alloc, case, name, wanted_signature(asked, name))?;
    message.line(LineKind::Want, Words::new(alloc).and(want.as_str()))
}

// That a type has no method of a name, or what it has in place of it, in words.
fn lack_told(alloc: Global, found: &Instead<'_>, name: &str, value: &str, wanted: &str) -> Words {
    let words = Words::new(alloc);
    match found {
        Instead::Method(_) => words
            .and("method ")
            .and(name)
            .and(" of ")
            .and(value)
            .and(" has other parameters or results than that of ")
            .and(wanted),
        Instead::Member(path) => words
            .and(path.as_str())
            .and(" of ")
            .and(value)
            .and(" is not the method ")
            .and(name)
            .and(" of ")
            .and(wanted),
        Instead::InCase(other) => words
            .and(value)
            .and(" has method ")
            .and(*other)
            .and(", but ")
            .and(wanted)
            .and(" wants ")
            .and(name),
        Instead::Nothing => words
            .and(value)
            .and(" has no method ")
            .and(name)
            .and(" of ")
            .and(wanted),
    }
}

// Adds that a value is a pointer to what makes it have no methods.
fn add_deep(
    alloc: Global,
    value: &str,
    what: &str,
    message: &mut Message,
) -> Result<(), AllocError> {
    message.note(
        Words::new(alloc)
            .and(value)
            .and(" is ")
            .and(what)
            .and(", and has no methods"),
    )
}

// Adds which method a value lacks of an interface type, or what it has in place of it.
fn add_instead(
    alloc: Global,
    case: &Case<'_>,
    asked: &Asked<'_>,
    name: &str,
    told: &str,
    message: &mut Message,
) -> Result<(), AllocError> {
    let wanted = type_told(alloc, case, asked.wanted)?;
    let found = in_place(alloc, asked, name)?;
    message.note(lack_told(alloc, &found, name, told, wanted.as_str()))?;
    match &found {
        Instead::Method(has) => add_signatures(alloc, case, asked, name, *has, message),
        _ => Ok(()),
    }
}

// Adds which method a value lacks of an interface type.
fn add_lacked(
    alloc: Global,
    case: &Case<'_>,
    asked: &Asked<'_>,
    name: &str,
    message: &mut Message,
) -> Result<(), AllocError> {
    let told = type_told(alloc, case, asked.value.term)?;
    let told = told.as_str();
    if let Some(what) = deep_pointer(asked.table, asked.value.term) {
        return add_deep(alloc, told, what, message);
    }
    if !asked.is_pointer && !is_interface(asked.table, asked.base) {
        let left = lacked(alloc, asked, true)?;
        if !is_named(&left, name) {
            return add_by_pointer(alloc, name, told, asked.value, left.is_none(), message);
        }
    }
    add_instead(alloc, case, asked, name, told, message)
}

// Whether what is lacked has this name.
fn is_named(method: &Option<String>, name: &str) -> bool {
    match method {
        Some(found) => found.as_str() == name,
        None => false,
    }
}

// A value of a type where an interface type is wanted, in the package of a path.
fn asked_of<'t>(
    table: &'t TypeTable,
    value: GivenValue<'t>,
    wanted: &'t TypeTerm,
    path: &'t ImportPath,
) -> Asked<'t> {
    let (base, is_pointer) = pointed(value.term);
    let from = written_in(table, wanted, path);
    Asked {
        table,
        value,
        base,
        is_pointer,
        wanted,
        from,
    }
}

/// Adds which method a value lacks where a type is wanted: with both signatures where it has another method of the name, and with what to write where a pointer to the
/// value has all. Nothing where no interface type is wanted.
///
/// The Go specification, "Implementing an interface".
///
/// # Errors
///
/// `AllocError` where memory is wanting.
pub fn add_missing(
    alloc: Global,
    case: &Case<'_>,
    value: GivenValue<'_>,
    wanted: &TypeTerm,
    message: &mut Message,
) -> Result<(), AllocError> {
    let table = case.setting.table();
    if !is_interface(table, wanted) {
        return Ok(());
    }
    let asked = asked_of(table, value, &*wanted, case.here.path());
    match lacked(alloc, &asked, asked.is_pointer)? {
        Some(name) => add_lacked(alloc, case, &asked, name.as_str(), message),
        None => Ok(()),
    }
}

// The name of the first method that an interface type asks for; none where it asks for none.
fn first_wanted<'t>(table: &'t TypeTable, wanted: &'t TypeTerm) -> Option<&'t str> {
    match table.underlying(wanted) {
        TypeTerm::Interface(_, methods) => Some(methods.first()?.name.as_str()),
        TypeTerm::Error => Some("Error"),
        _ => None,
    }
}

/// Adds that an untyped value, of this type by itself, has no methods where an interface type with methods is wanted; nothing where none is wanted.
///
/// # Errors
///
/// `AllocError` where memory is wanting.
pub(crate) fn add_no_methods<'t>(
    alloc: Global,
    case: &'t Case<'_>,
    told: &str,
    wanted: &'t TypeTerm,
    message: &mut Message,
) -> Result<(), AllocError> {
    let Some(name) = first_wanted(case.setting.table(), wanted) else {
        return Ok(());
    };
    let asked_by = type_told(alloc, case, wanted)?;
    let found = Instead::Nothing;
    message.note(lack_told(alloc, &found, name, told, asked_by.as_str()))
}

/// Adds that a value of an interface type is no value of another type without a type assertion; nothing where it has no interface type, or one is wanted.
///
/// The Go specification, "Type assertions".
///
/// # Errors
///
/// `AllocError` where memory is wanting.
pub fn add_assertion(
    alloc: Global,
    case: &Case<'_>,
    value: GivenValue<'_>,
    wanted: &TypeTerm,
    message: &mut Message,
) -> Result<(), AllocError> {
    let table = case.setting.table();
    if is_interface(table, wanted) || !is_interface(table, value.term) {
        return Ok(());
    }
    message.note(Words::new(alloc).and(
        "a type assertion would be needed: Go has these, govisd does not support them yet",
    ))
}
