//! Lines of a diagnostic that name what fits at the place of a fault.

use crate::here::Here;
use crate::messages::{Message, Words};
use crate::place::place_here;
use crate::suggesting::{fitting_change, import_like, import_with, names_here, near_here};
use go_recovery_core::mend::{Mend, Mending};
use std::alloc::{AllocError, Global};

/// Adds the name that is nearest to a spelling among those that have a declaration at a place, as by [`crate::nearest_name`], and answers whether there is one.
///
/// # Errors
///
/// `AllocError` where memory is wanting.
pub fn add_near(
    alloc: Global,
    here: &Here<'_>,
    spelled: &str,
    message: &mut Message,
) -> Result<bool, AllocError> {
    match near_here(alloc, here, spelled)? {
        Some(name) => {
            message.fitting(Words::new(alloc).and("did you mean "), &name, "?")?;
            Ok(true)
        }
        None => Ok(false),
    }
}

/// Adds the name that [`add_near`] adds where it differs from the spelling in upper and lower case of ASCII letters alone, and answers whether there is such a one.
///
/// # Errors
///
/// `AllocError` where memory is wanting.
pub fn add_near_in_case(
    alloc: Global,
    here: &Here<'_>,
    spelled: &str,
    message: &mut Message,
) -> Result<bool, AllocError> {
    if let Some(name) = near_here(alloc, here, spelled)? {
        if name.text().eq_ignore_ascii_case(spelled) {
            message.fitting(Words::new(alloc).and("did you mean "), &name, "?")?;
            return Ok(true);
        }
    }
    Ok(false)
}

/// Adds the first names that have a declaration at a place, at most six, after other words. Where there are none it adds nothing.
///
/// # Errors
///
/// `AllocError` where memory is wanting.
pub fn add_names(
    alloc: Global,
    here: &Here<'_>,
    before: &str,
    message: &mut Message,
) -> Result<(), AllocError> {
    match names_here(alloc, here)? {
        Some(names) => message.fitting(Words::new(alloc).and(before), &names, ""),
        None => Ok(()),
    }
}

/// Adds the path of a package that the package of a place could import: one with the last element of a spelling, or else the nearest to it, as by
/// [`crate::nearest_import`]. Where none is near it adds nothing.
///
/// # Errors
///
/// `AllocError` where memory is wanting.
pub fn add_near_import(
    alloc: Global,
    here: &Here<'_>,
    spelled: &str,
    message: &mut Message,
) -> Result<(), AllocError> {
    match import_like(alloc, here, spelled)? {
        Some(near) => message.fitting(Words::new(alloc).and("did you mean \""), &near, "\"?"),
        None => Ok(()),
    }
}

/// Adds the import of a package that has a name and exports a member, where the package of a place could import one, and answers whether there is one.
///
/// # Errors
///
/// `AllocError` where memory is wanting.
pub fn add_import_with(
    alloc: Global,
    here: &Here<'_>,
    name: &str,
    member: &str,
    message: &mut Message,
) -> Result<bool, AllocError> {
    match import_with(alloc, here, name, member)? {
        Some(path) => {
            let before = Words::new(alloc).and("import \"");
            let after = Words::new(alloc).and("\", which has ").and(member).text()?;
            message.fitting(before, &path, after.as_str())?;
            Ok(true)
        }
        None => Ok(false),
    }
}

// Where a mark is put in that stands elsewhere than the fault, as the words after the change; nothing of any other change.
fn words_of_place(alloc: Global, here: &Here<'_>, found: &Mend) -> Result<String, AllocError> {
    match found.mending {
        Some(Mending::PutIn { token: _, at }) if at != here.offset => {
            let place = place_here(alloc, here, at)?;
            Words::new(alloc).and(" at ").and(place.as_str()).text()
        }
        _ => Ok(String::new(alloc)),
    }
}

/// Adds the change with which the text of the file of a fault has a tree, in words, and answers whether there is one: `put in )`, and of a mark that is put in elsewhere
/// than at the fault `put in { at main.go:79:17`. There is none where a word of another language is told in its place.
///
/// # Errors
///
/// `AllocError` where memory is wanting.
pub fn add_change(
    alloc: Global,
    here: &Here<'_>,
    found: &Mend,
    message: &mut Message,
) -> Result<bool, AllocError> {
    match fitting_change(alloc, found)? {
        Some(change) => {
            let after = words_of_place(alloc, here, found)?;
            message.fitting(Words::new(alloc), &change, after.as_str())?;
            Ok(true)
        }
        None => Ok(false),
    }
}
