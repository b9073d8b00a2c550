//! The faults of fields that a method of their type stands before.
ghost use Rattle.std.specs.Prelude.{◌≡◌, ◌∷◌, IfOk, List, OnOk, map};
ghost use Rattle.std.specs.Str.{bytes_eq};
ghost use Rattle.go_collections_core.specs.text_core.Text.{is_blank};
ghost use Rattle.go_term_core.specs.Shapes.{Line, fields_in};
ghost use Rattle.go_term_core.specs.settling.Settled.{is_among_names};
ghost use Rattle.go_type_core.specs.table_core.Shown.{member_shown};
ghost use Rattle.go_embed_core.specs.Faults.{is_left_out, own_names, named_faults, hidden_faults};
ghost use Rattle.go_embed_core.specs.mirrors.Passing.{SameNames, is_hiding, is_one_hiding, names_with};

use crate::faults::{MemberFault, note_if};
use go_collections_core::text_core::{Rule, is_blank};
use go_path_core::ImportPath;
use go_type_core::table_core::FieldTable;
use go_type_core::{DeclaredMethod, Field, TypeTerm};
use std::alloc::{AllocError, Global};
use std::collections::BTreeSet;

// Whether a name is among these.
fn has_name(names: &BTreeSet<&str>, name: &str) -> bool
    ensures { result ≡ is_among_names (map (λ n. n.now) names.now.keys) name.now }
{
    names.contains(name)
}

// Whether a path is another.
fn is_home(home: &ImportPath, path: &ImportPath) -> bool
    ensures { result ≡ bytes_eq home.now path.now }
{
    home.as_str() == path.as_str()
}

// Adds a name to others.
fn add_name<'a>(names: &mut BTreeSet<&'a str>, name: &'a str) -> Result<(), AllocError>
    ensures { OnOk result (SameNames (map (λ n. n.now) names.new.keys) (name.now ∷ map (λ n. n.now) names.old.keys)) }
{
    match names.insert(name) {
        Ok(_) => Ok(()),
        Err(_) => Err(AllocError),
    }
}

// Whether a method is blank, or stands behind a field of its identifier.
fn is_left_out(path: &ImportPath, fields: &FieldTable<'_>, method: &DeclaredMethod) -> bool
    ensures { result ≡ is_left_out path.now fields.now (member_shown method.now) }
{
    is_blank(method.name.as_str()) || fields.comes_before(path, method)
}

// Adds the name of a method, unless the method is left out.
fn take_name<'a>(
    path: &ImportPath,
    fields: &FieldTable<'_>,
    method: &'a DeclaredMethod,
    names: &mut BTreeSet<&'a str>,
) -> Result<(), AllocError>
    ensures { OnOk result (SameNames (map (λ n. n.now) names.new.keys) (names_with path.now fields.now (member_shown method.now) (map (λ n. n.now) names.old.keys))) }
{
    if is_left_out(path, fields, method) {
        return Ok(());
    }
    add_name(names, method.name.as_str())
}

// The names of the methods that are a type's own.
fn own_names<'a>(
    alloc: Global,
    path: &ImportPath,
    fields: &FieldTable<'_>,
    methods: &'a [DeclaredMethod],
) -> Result<BTreeSet<&'a str>, AllocError>
    ensures { IfOk result (λ names. SameNames (map (λ n. n.now) names.keys) (own_names path.now fields.now (map member_shown methods.now))) }
{
    let mut names = BTreeSet::new(alloc);
    for method in methods {
        take_name(path, fields, method, &mut names)?;
    }
    Ok(names)
}

// The faults of fields that have one of these names.
fn named_faults(
    alloc: Global,
    names: &BTreeSet<&str>,
    fields: &[Field],
) -> Result<Vec<MemberFault>, AllocError>
    ensures { IfOk result (λ faults. (ls : List Line) → faults.items ≡ named_faults (map (λ n. n.now) names.now.keys) (fields_in ls fields.now)) }
{
    let mut faults = Vec::new(alloc);
    for field in fields {
        let is_hidden = has_name(names, field.name.as_str());
        note_if(&mut faults, is_hidden, field.place, Rule::B5)?;
    }
    Ok(faults)
}

// The faults of the fields of a struct type that methods of a defined type of the same package stand before.
fn hidden_fields(
    alloc: Global,
    path: &ImportPath,
    table: &FieldTable<'_>,
    fields: &[Field],
    methods: &[DeclaredMethod],
) -> Result<Vec<MemberFault>, AllocError>
    ensures { IfOk result (λ faults. (ls : List Line) → faults.items ≡ named_faults (own_names path.now table.now (map member_shown methods.now)) (fields_in ls fields.now)) }
{
    let names = own_names(alloc, path, table, methods)?;
    named_faults(alloc, &names, fields)
}

// Whether a method is a type's own and spelled as one of its fields.
fn is_hiding(path: &ImportPath, fields: &FieldTable<'_>, method: &DeclaredMethod) -> bool
    ensures { result ≡ is_hiding path.now fields.now (member_shown method.now) }
{
    fields.has_spelled(method.name.as_str()) && !is_left_out(path, fields, method)
}

// Whether one of the methods that are a type's own is spelled as one of its fields.
fn is_one_hiding(path: &ImportPath, fields: &FieldTable<'_>, methods: &[DeclaredMethod]) -> bool
    ensures { result ≡ is_one_hiding path.now fields.now (map member_shown methods.now) }
{
    for method in methods {
        if is_hiding(path, fields, method) {
            return true;
        }
    }
    false
}

/// The faults of the fields of a defined type that its methods keep from it, in order of the fields: a field of a struct type that is written
/// in the package of the type repeats the identifier of a method that is declared before it (B5). `path` is of the type's package,
/// `fields` has the fields of the type's underlying type, be it written in another type declaration, or, where it is no type, of the type as
/// it is written; `methods` are those that are declared of it. Of a field and a method of one identifier the one that stands behind the other
/// has the fault, here or in `check_methods`. It takes time that is linear but for a logarithm in the methods, and in the fields only where a
/// method is spelled as one of them and stands behind none.
///
/// # Errors
///
/// `AllocError` where memory is wanting.
pub fn check_hidden_fields(
    alloc: Global,
    path: &ImportPath,
    fields: &FieldTable<'_>,
    methods: &[DeclaredMethod],
) -> Result<Vec<MemberFault>, AllocError>
    ensures { IfOk result (λ faults. faults.items ≡ hidden_faults path.now fields.now (map member_shown methods.now)) }
{
    if !is_one_hiding(path, fields, methods) {
        return Ok(Vec::new(alloc));
    }
    match fields.underlying() {
        TypeTerm::Struct(home, list, _) => {
            if is_home(home, path) {
                hidden_fields(alloc, path, fields, list, methods)
            } else {
                Ok(Vec::new(alloc))
            }
        }
        TypeTerm::NoType
        | TypeTerm::Basic(_)
        | TypeTerm::Error
        | TypeTerm::Defined(_)
        | TypeTerm::Pointer(_)
        | TypeTerm::Interface(_, _) => Ok(Vec::new(alloc)),
    }
}
