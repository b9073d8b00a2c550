//! The packages that a package could import.
ghost use Rattle.std.specs.Prelude.{◌≡◌, ◌⊎◌, ◌<◌, All, IfErr, IfOk, length};
ghost use Rattle.std.specs.List.{AllZip};
ghost use Rattle.go_complete_core.specs.package_core.PackagePartInputs.{path_in};
ghost use Rattle.go_query_core.specs.Defining.{HasNoPart};
ghost use Rattle.go_query_core.specs.Listing.{AreEntries, IsEntryOf, IsListing};
ghost use Rattle.go_query_core.specs.Parts.{HasPart, IsPartOf};

use crate::entry::PackageEntry;
use crate::parts::{own_part, part_there};
use go_complete_core::package_core::Part;
use go_complete_core::snap_core::Snapshot;
use go_import_core::list::importable;
use go_import_core::path_core::ImportPath;
use go_tree_nodes::text_core::{Rule, add};
use std::alloc::{AllocError, Global};

/// A package, and those that it could import.
pub struct Listing<'s> {
    /// The package itself.
    pub own: PackageEntry<'s>,
    /// Those that it could import or imports, in byte order of path.
    pub importable: Vec<PackageEntry<'s>>,
}

impl Drop for Listing<'_> {
    fn drop(self) {
        let Listing {
            own: _,
            importable: _,
        } = self;
    }
}

// The entry of the package of a number, as the package of a path sees it.
fn entry_at<'s>(snapshot: &'s Snapshot, number: usize, from: &'s ImportPath) -> PackageEntry<'s>
    requires { HasPart snapshot.now number }
    ensures { IsEntryOf snapshot.now from.now number result }
{
    let part = part_there(snapshot, number);
    PackageEntry::new(snapshot, number, part, from)
}

// The entries of packages by their numbers.
fn entries_of<'s>(
    alloc: Global,
    snapshot: &'s Snapshot,
    numbers: &[usize],
    from: &'s ImportPath,
) -> Result<Vec<PackageEntry<'s>>, AllocError>
    requires { All (HasPart snapshot.now) numbers.now }
    ensures { IfOk result (λ entries. AllZip (IsEntryOf snapshot.now from.now) numbers.now entries.items) }
{
    let mut entries = Vec::new(alloc);
    for number in numbers {
        let entry = entry_at(snapshot, *number, from);
        add(&mut entries, entry)?;
    }
    Ok(entries)
}

// The entries of the packages that the package of a number could import.
fn importable_entries<'s>(
    alloc: Global,
    snapshot: &'s Snapshot,
    own: usize,
    from: &'s ImportPath,
) -> Result<Vec<PackageEntry<'s>>, AllocError>
    requires { own < length snapshot.now.sources }
    ensures { IfOk result (λ entries. AreEntries snapshot.now own from.now entries.items) }
{
    let sources = snapshot.sources();
    let _packages = sources.packages();
    let numbers = importable(alloc, sources, own)?;
    entries_of(alloc, snapshot, &numbers, from)
}

// The package of a number and a part, and those that it could import.
fn listing_of<'s>(
    alloc: Global,
    snapshot: &'s Snapshot,
    number: usize,
    part: &'s Part,
) -> Result<Listing<'s>, Rule>
    requires { IsPartOf snapshot.now (path_in part.now.input) number part.now }
    ensures ok { IfOk result (λ l. IsListing snapshot.now (path_in part.now.input) l.own l.importable.items) }
    ensures err { IfErr result (λ rule. rule ≡ Rule.M0) }
{
    let from = part.path();
    let own = PackageEntry::new(snapshot, number, part, from);
    match importable_entries(alloc, snapshot, number, from) {
        Ok(importable) => Ok(Listing { own, importable }),
        Err(AllocError) => Err(Rule::M0),
    }
}

/// The assembled package of a path, and those that it could import: each package of which an import there would come to it, whether the package has
/// this import or not. A package that imports lead from to this one is none of them. What each entry shows is as far as the package may import it.
///
/// The time is linear in the imports of the workspace; what an entry shows is made when it is asked for.
///
/// # Errors
///
/// - `Rule::Q1` where there is no assembled package of the path.
/// - `Rule::M0` where memory is wanting.
///
/// The Go specification, "Import declarations"; `go help list`, `go help internal`.
pub fn list<'s>(
    alloc: Global,
    snapshot: &'s Snapshot,
    from: &ImportPath,
) -> Result<Listing<'s>, Rule>
    ensures ok { IfOk result (λ l. IsListing snapshot.now from.now l.own l.importable.items) }
    ensures err { IfErr result (λ rule. (rule ≡ Rule.M0) ⊎ ((rule ≡ Rule.Q1) × HasNoPart snapshot.now from.now)) }
{
    // Its parts are those of its packages.
    let _sources = snapshot.sources();
    match own_part(snapshot, from) {
        Some((number, part)) => listing_of(alloc, snapshot, number, part),
        None => Err(Rule::Q1),
    }
}
