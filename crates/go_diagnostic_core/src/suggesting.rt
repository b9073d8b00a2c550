//! Suggestions: names that queries give.
ghost use Rattle.std.specs.Prelude.{◌≡◌, ◌≢◌, ⊤, List, ℕ, [], IfOk, MatchOption, None, Some, map, string_bytes};
ghost use Rattle.std.specs.Option.{option_map};
ghost use Rattle.go_recovery_core.specs.mend.Said.{help_text};
ghost use Rattle.go_recovery_core.specs.declared.mend.mending.Mending.{Mending};
ghost use Rattle.go_diagnostic_core.specs.Near.{IsSuggested};
ghost use Rattle.go_diagnostic_core.specs.Suggestions.{AreImportablePaths, AreNamesFor, entry_path};
ghost use Rattle.go_diagnostic_core.specs.mirrors.Fittings.{fitting_text};

use crate::here::Here;
use crate::near::nearest;
use go_package_core::path_core::ImportPath;
use go_query_core::{PackageEntry, complete, list};
use go_recovery_core::mend::Mend;
use go_snap_core::Snapshot;
use go_token_core::text_core::{Rule, add};
use std::alloc::{AllocError, Global};

// The names that have a declaration in place of the identifier that is used at an offset of a file: those that [`complete`] gives, and none where it
// gives no answer.
fn names_at(
    alloc: Global,
    snapshot: &Snapshot,
    path: &ImportPath,
    file: &str,
    offset: usize,
) -> Result<Vec<String>, AllocError>
    ensures { IfOk result (λ names. AreNamesFor snapshot.now path.now file.now offset (map string_bytes names.items)) }
{
    match complete(alloc, snapshot, path, file, offset) {
        Ok(names) => Ok(names),
        Err(rule) => none_for(alloc, rule),
    }
}

// No names, where there is no answer by a rule other than M0.
fn none_for(alloc: Global, rule: Rule) -> Result<Vec<String>, AllocError>
    ensures empty { IfOk result (λ names. names.items ≡ []) }
    ensures memory { IfOk result (λ _. rule ≢ Rule.M0) }
{
    if rule == Rule::M0 {
        return Err(AllocError);
    }
    Ok(Vec::new(alloc))
}

/// The name that is nearest to a spelling among those that have a declaration in place of the identifier that is used at an offset in bytes of the file of a
/// name, in the package of a path. `None` where none is near.
///
/// # Errors
///
/// `AllocError` where memory is wanting.
pub fn nearest_name(
    alloc: Global,
    snapshot: &Snapshot,
    path: &ImportPath,
    file: &str,
    offset: usize,
    spelled: &str,
) -> Result<Option<String>, AllocError>
    ensures { IfOk result (λ found. (names : List (List ℕ)) × AreNamesFor snapshot.now path.now file.now offset names × IsSuggested spelled.now names (option_map string_bytes found)) }
{
    let names = names_at(alloc, snapshot, path, file, offset)?;
    match nearest(alloc, &names, spelled)? {
        Some(name) => Ok(Some(String::from_str(alloc, name)?)),
        None => Ok(None),
    }
}

// The paths of the packages that the package of a path could import: those that [`list`] gives, and none where it gives no answer.
fn importable_paths(
    alloc: Global,
    snapshot: &Snapshot,
    path: &ImportPath,
) -> Result<Vec<String>, AllocError>
    ensures { IfOk result (λ paths. AreImportablePaths snapshot.now path.now (map string_bytes paths.items)) }
{
    match list(alloc, snapshot, path) {
        Ok(listing) => paths_of(alloc, &listing.importable),
        Err(rule) => none_for(alloc, rule),
    }
}

// The paths of packages.
fn paths_of(alloc: Global, entries: &[PackageEntry<'_>]) -> Result<Vec<String>, AllocError>
    ensures { IfOk result (λ paths. map string_bytes paths.items ≡ map entry_path entries.now) }
{
    let mut paths = Vec::new(alloc);
    for entry in entries {
        let path = String::from_str(alloc, entry.path().as_str())?;
        add(&mut paths, path)?;
    }
    Ok(paths)
}

/// The path that is nearest to a spelling among those of the packages that the package of a path could import. `None` where none is near.
///
/// # Errors
///
/// `AllocError` where memory is wanting.
pub fn nearest_import(
    alloc: Global,
    snapshot: &Snapshot,
    path: &ImportPath,
    spelled: &str,
) -> Result<Option<String>, AllocError>
    ensures { IfOk result (λ found. (paths : List (List ℕ)) × AreImportablePaths snapshot.now path.now paths × IsSuggested spelled.now paths (option_map string_bytes found)) }
{
    let paths = importable_paths(alloc, snapshot, path)?;
    match nearest(alloc, &paths, spelled)? {
        Some(name) => Ok(Some(String::from_str(alloc, name)?)),
        None => Ok(None),
    }
}

/// A text that fits at a place: what a query gives there, or the change with which a text has a tree. It is made by the calls of this module alone.
#[derive(Drop)]
pub(crate) struct Fitting {
    text: String,
}

impl Fitting {
    /// The text.
    pub(crate) fn text(&self) -> &str {
        self.text.as_str()
    }
}

// A text that fits, where there is one.
fn as_fitting(found: Option<String>) -> Option<Fitting>
    ensures { option_map fitting_text result ≡ option_map string_bytes found }
{
    match found {
        Some(text) => Some(Fitting { text }),
        None => None,
    }
}

// The name of [`nearest_name`].
fn fitting_name(
    alloc: Global,
    snapshot: &Snapshot,
    path: &ImportPath,
    file: &str,
    offset: usize,
    spelled: &str,
) -> Result<Option<Fitting>, AllocError>
    ensures { IfOk result (λ found. (names : List (List ℕ)) × AreNamesFor snapshot.now path.now file.now offset names × IsSuggested spelled.now names (option_map fitting_text found)) }
{
    let found = nearest_name(alloc, snapshot, path, file, offset, spelled)?;
    Ok(as_fitting(found))
}

// The path of [`nearest_import`].
fn fitting_import(
    alloc: Global,
    snapshot: &Snapshot,
    path: &ImportPath,
    spelled: &str,
) -> Result<Option<Fitting>, AllocError>
    ensures { IfOk result (λ found. (paths : List (List ℕ)) × AreImportablePaths snapshot.now path.now paths × IsSuggested spelled.now paths (option_map fitting_text found)) }
{
    let found = nearest_import(alloc, snapshot, path, spelled)?;
    Ok(as_fitting(found))
}

// The change with which a text has a tree, in words, where what is told is one.
fn change_told(alloc: Global, found: &Mend) -> Result<Option<Fitting>, AllocError>
    ensures { IfOk result (λ said. MatchOption said ⊤ (λ f. ((m : Mending) × (found.now.mending ≡ Some m)) × (help_text found.now ≡ Some (fitting_text f)))) }
{
    match found.mending {
        Some(_) => {
            let said = found.help(alloc)?;
            Ok(as_fitting(said))
        }
        None => Ok(None),
    }
}

/// The change with which a text has a tree, in words; none where there is none, and where a word of another language is told in its place.
///
/// # Errors
///
/// `AllocError` where memory is wanting.
pub(crate) fn fitting_change(alloc: Global, found: &Mend) -> Result<Option<Fitting>, AllocError>
    ensures { IfOk result (λ said. MatchOption said ⊤ (λ f. (found.now.foreign ≡ None) × ((m : Mending) × (found.now.mending ≡ Some m)) × (help_text found.now ≡ Some (fitting_text f)))) }
{
    match found.foreign {
        Some(_) => Ok(None),
        None => change_told(alloc, found),
    }
}

/// A package that the package of a place could import, which has this name and exports this one.
///
/// # Errors
///
/// `AllocError` where memory is wanting.
pub(crate) fn import_with(
    alloc: Global,
    here: &Here<'_>,
    name: &str,
    member: &str,
) -> Result<Option<Fitting>, AllocError> {
    let listing = match list(alloc, here.snapshot, here.path()) {
        Ok(listing) => listing,
        Err(Rule::M0) => return Err(AllocError),
        Err(_) => return Ok(None),
    };
    for entry in &listing.importable {
        if entry.name() == name && exports(here.snapshot, entry.path(), member) {
            let text = String::from_str(alloc, entry.path().as_str())?;
            return Ok(Some(Fitting { text }));
        }
    }
    Ok(None)
}

// The last element of a path.
fn last_element(path: &str) -> &str {
    match path.rsplit_once('/') {
        Some((_, last)) => last,
        None => path,
    }
}

/// The path of a package that the package of a place could import, which has the last element of a spelling; where there is none, the path that is nearest to
/// it, as by [`nearest_import`].
///
/// # Errors
///
/// `AllocError` where memory is wanting.
pub(crate) fn import_like(
    alloc: Global,
    here: &Here<'_>,
    spelled: &str,
) -> Result<Option<Fitting>, AllocError> {
    let listing = match list(alloc, here.snapshot, here.path()) {
        Ok(listing) => listing,
        Err(Rule::M0) => return Err(AllocError),
        Err(_) => return Ok(None),
    };
    for entry in &listing.importable {
        let path = entry.path().as_str();
        if last_element(path) == last_element(spelled) {
            let text = String::from_str(alloc, path)?;
            return Ok(Some(Fitting { text }));
        }
    }
    fitting_import(alloc, here.snapshot, here.path(), spelled)
}

// Whether the package of a path exports a name.
fn exports(snapshot: &Snapshot, path: &ImportPath, name: &str) -> bool {
    match snapshot.part(path) {
        Some(part) => part.summary().exports().decl(name).is_some(),
        None => false,
    }
}

/// The name that is nearest to the one at a place, among those that have a declaration there.
///
/// # Errors
///
/// `AllocError` where memory is wanting.
pub(crate) fn near_here(
    alloc: Global,
    here: &Here<'_>,
    spelled: &str,
) -> Result<Option<Fitting>, AllocError> {
    fitting_name(
        alloc,
        here.snapshot,
        here.path(),
        here.file.name(),
        here.offset,
        spelled,
    )
}

/// How many names are listed.
const LISTED: usize = 6;

/// The first names that have a declaration at a place, with commas between them; none where none has.
///
/// # Errors
///
/// `AllocError` where memory is wanting.
pub(crate) fn names_here(alloc: Global, here: &Here<'_>) -> Result<Option<Fitting>, AllocError> {
    let names = names_at(
        alloc,
        here.snapshot,
        here.path(),
        here.file.name(),
        here.offset,
    )?;
    if names.is_empty() {
        return Ok(None);
    }
    let text = list_of(alloc, &names)?;
    Ok(Some(Fitting { text }))
}

// The first of some names, with commas between them.
fn list_of(alloc: Global, names: &[String]) -> Result<String, AllocError> {
    let mut text = String::new(alloc);
    let mut number: usize = 0;
    for name in names {
        if number == LISTED {
            text.push_str(", ..")?;
            return Ok(text);
        }
        if number > 0 {
            text.push_str(", ")?;
        }
        text.push_str(name.as_str())?;
        number = number.saturating_add(1);
    }
    Ok(text)
}
