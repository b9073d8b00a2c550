//! Names that fit in one form or another.
ghost use Rattle.std.specs.Prelude.{◌≡◌, ◌≢◌, ◌+◌, ◌<◌, ◌≤◌, ◌↔◌, [], IfOk, IsTrue, OnOk, length, map, string_bytes};
ghost use Rattle.std.specs.List.{AllZip};
ghost use Rattle.std.specs.List.Sorted.{IsStrictlySortedBy};
ghost use Rattle.go_graph_core.specs.Workspaces.{by_bytes};
ghost use Rattle.go_query_core.specs.complete_core.PlaceCompletions.{texts_of};
ghost use Rattle.go_reference_core.specs.forms.Forms.{AreFitting, AreNamesIn, IsAmongFirst, IsNamed, form_shown, fitting_shown};
ghost use Rattle.go_reference_core.specs.forms.mirrors.Listing.{AddsFirst, AreFirst, AreListed, AreRising};

use go_path_core::ImportPath;
use go_path_core::text_core::{Rule, add};
use go_query_core::complete;
use go_query_core::snap_core::Snapshot;
use std::alloc::{AllocError, Global};

/// A form of a text: a snapshot in which a file has it, and where in that file a name is asked for.
#[derive(Clone, Copy)]
pub struct Formed<'s> {
    /// The snapshot.
    pub snapshot: &'s Snapshot,
    /// The offset of a byte of the identifier, in bytes from the file's start.
    pub offset: usize,
}

/// A name that fits.
pub struct Fitting {
    /// The name.
    pub name: String,
    /// The number of the first form in which it fits, from 0.
    pub form: usize,
}

impl Drop for Fitting {
    fn drop(self) {
        let Fitting { name: _, form: _ } = self;
    }
}

// No names, where there is no answer by a rule other than M0.
fn none_for(alloc: Global, rule: Rule) -> Result<Vec<String>, AllocError>
    ensures empty { IfOk result (λ names. names.items ≡ []) }
    ensures memory { IfOk result (λ _. rule ≢ Rule.M0) }
{
    if rule == Rule::M0 {
        return Err(AllocError);
    }
    Ok(Vec::new(alloc))
}

// The names that fit in a form, in byte order; none where no identifier is used there.
fn names_in(
    alloc: Global,
    form: Formed<'_>,
    path: &ImportPath,
    file: &str,
) -> Result<Vec<String>, AllocError>
    ensures names { IfOk result (λ names. AreNamesIn path.now file.now (form_shown form.entry) (texts_of names)) }
    ensures rising { IfOk result (λ names. IsStrictlySortedBy by_bytes (texts_of names)) }
{
    match complete(alloc, form.snapshot, path, file, form.offset) {
        Ok(names) => Ok(names),
        Err(rule) => none_for(alloc, rule),
    }
}

// The names that fit in each form.
fn names_of_forms(
    alloc: Global,
    forms: &[Formed<'_>],
    path: &ImportPath,
    file: &str,
) -> Result<Vec<Vec<String>>, AllocError>
    ensures names { IfOk result (λ all. AllZip (AreNamesIn path.now file.now) (map form_shown forms.now) (map texts_of all.items)) }
    ensures rising { IfOk result (λ all. AreRising (map texts_of all.items)) }
{
    let mut all = Vec::new(alloc);
    for form in forms {
        let names = names_in(alloc, *form, path, file)?;
        add(&mut all, names)?;
    }
    Ok(all)
}

// Whether a name is among names in byte order.
fn is_named(names: &[String], name: &str) -> bool
    requires { IsStrictlySortedBy by_bytes (map string_bytes names.now) }
    ensures { IsTrue result ↔ IsNamed (map string_bytes names.now) name.now }
{
    names.binary_search_by(|own| own.as_str().cmp(name)).is_ok()
}

// Whether a name is among those of the first so many forms.
fn is_among_first(all: &[Vec<String>], count: usize, name: &str) -> bool
    requires rising { AreRising (map texts_of all.now) }
    requires within { count ≤ length all.now }
    ensures { IsTrue result ↔ IsAmongFirst (map texts_of all.now) count name.now }
{
    for form in 0..count {
        if is_named(&all[form], name) {
            return true;
        }
    }
    false
}

// Adds a name of the form of a number, where it is among those of no earlier form.
fn add_name(
    alloc: Global,
    found: &mut Vec<Fitting>,
    all: &[Vec<String>],
    form: usize,
    name: &str,
) -> Result<(), AllocError>
    requires rising { AreRising (map texts_of all.now) }
    requires within { form ≤ length all.now }
    ensures { OnOk result (AddsFirst (map texts_of all.now) form name.now (map fitting_shown found.old.items) (map fitting_shown found.new.items)) }
{
    if is_among_first(all, form, name) {
        return Ok(());
    }
    let name = String::from_str(alloc, name)?;
    add(found, Fitting { name, form })
}

// Adds the names of the form of a number that are among those of no earlier form.
fn add_names(
    alloc: Global,
    found: &mut Vec<Fitting>,
    all: &[Vec<String>],
    form: usize,
) -> Result<(), AllocError>
    requires rising { AreRising (map texts_of all.now) }
    requires within { form < length all.now }
    requires listed { AreListed (map texts_of all.now) form [] (map fitting_shown found.old.items) }
    ensures { OnOk result (AreListed (map texts_of all.now) (form + 1) [] (map fitting_shown found.new.items)) }
{
    let names = &all[form];
    for name in names {
        add_name(alloc, found, all, form, name.as_str())?;
    }
    Ok(())
}

// The names of forms, each with the number of the first form that has it.
fn first_names(alloc: Global, all: &[Vec<String>]) -> Result<Vec<Fitting>, AllocError>
    requires { AreRising (map texts_of all.now) }
    ensures { IfOk result (λ found. AreFirst (map texts_of all.now) (map fitting_shown found.items)) }
{
    let mut found = Vec::new(alloc);
    for form in 0..all.len() {
        add_names(alloc, &mut found, all, form)?;
    }
    Ok(found)
}

/// The names that fit in the file of a name, in the package of a path, in one of several forms: each that `complete` gives in one of them, and no other, each once,
/// with the first form in which it fits; in order of form, and those of a form in byte order. A form in which no identifier is used at its place has no name.
///
/// # Errors
///
/// `AllocError` where memory is wanting.
pub fn names_in_forms(
    alloc: Global,
    forms: &[Formed<'_>],
    path: &ImportPath,
    file: &str,
) -> Result<Vec<Fitting>, AllocError>
    ensures { IfOk result (λ found. AreFitting path.now file.now (map form_shown forms.now) (map fitting_shown found.items)) }
{
    let all = names_of_forms(alloc, forms, path, file)?;
    first_names(alloc, &all)
}
