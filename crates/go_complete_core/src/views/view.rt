//! What a package sees of the packages that its imports come to.
ghost use Rattle.std.specs.Prelude.{◌≡◌, ◌++◌, ◌∷◌, ◌||◌, ℕ, [], IfOk, List, OnOk, if◌then◌else◌, map};
ghost use Rattle.std.specs.List.{list_any};
ghost use Rattle.go_names_core.specs.block_core.Naming.{imported_in};
ghost use Rattle.go_package_core.specs.summary_core.Summaries.{path_of};
ghost use Rattle.go_package_core.specs.summary_core.Views.{PathsAreApart, exports_told, faces_told, types_told};
ghost use Rattle.go_complete_core.specs.views.Imported.{comes_to, has_path, is_imported, told_by_imports};

use go_names_core::block_core::Imported;
use go_package_core::package_part::PartInput;
use go_package_core::summary_core::{Summary, View, view_of};
use go_tree_nodes::text_core::add;
use std::alloc::{AllocError, Global};
use std::collections::BTreeSet;

// Adds the path of the package that an import comes to, where it comes to one.
fn add_path<'a>(paths: &mut BTreeSet<&'a str>, import: &'a Imported) -> Result<(), AllocError>
    ensures { OnOk result ((path : List ℕ) → has_path paths.new.keys path ≡ (has_path paths.old.keys path || comes_to path import.now)) }
{
    match import {
        Imported::Package(exports) => match paths.insert(exports.path().as_str()) {
            Ok(_) => Ok(()),
            Err(_) => Err(AllocError),
        },
        Imported::Refused(_) => Ok(()),
    }
}

// The same of the imports of a file.
fn add_paths<'a>(paths: &mut BTreeSet<&'a str>, imports: &'a [Imported]) -> Result<(), AllocError>
    ensures { OnOk result ((path : List ℕ) → has_path paths.new.keys path ≡ (has_path paths.old.keys path || list_any (comes_to path) imports.now)) }
{
    for import in imports {
        add_path(paths, import)?;
    }
    Ok(())
}

// The paths of the packages that the imports of files come to.
fn imported_paths<'a>(
    alloc: Global,
    files: &'a [Vec<Imported>],
) -> Result<BTreeSet<&'a str>, AllocError>
    ensures { IfOk result (λ paths. (path : List ℕ) → has_path paths.keys path ≡ is_imported (map imported_in files.now) path) }
{
    let mut paths = BTreeSet::new(alloc);
    for imports in files {
        add_paths(&mut paths, imports)?;
    }
    Ok(paths)
}

// Whether a path is one of these.
fn has(paths: &BTreeSet<&str>, path: &str) -> bool
    ensures { result ≡ has_path paths.now.keys path.now }
{
    paths.contains(path)
}

// Adds what a package tells, where its path is one of these.
fn add_if_imported(
    paths: &BTreeSet<&str>,
    summary: &Summary,
    kept: &mut Vec<Summary>,
) -> Result<(), AllocError>
    ensures { OnOk result (kept.new.items ≡ kept.old.items ++ (if has_path paths.now.keys (path_of summary.now) then summary.now ∷ [] else [])) }
{
    if has(paths, summary.path().as_str()) {
        add(kept, summary.share()?)?;
    }
    Ok(())
}

// What those packages tell that imports come to, of those that are reached.
fn told_by_imports(alloc: Global, input: &PartInput) -> Result<Vec<Summary>, AllocError>
    ensures told { IfOk result (λ told. told.items ≡ told_by_imports input.now) }
    ensures apart { IfOk result (λ told. PathsAreApart told.items) }
{
    let paths = imported_paths(alloc, input.imports())?;
    let reached = input.reached();
    let mut told = Vec::new(alloc);
    for number in 0..reached.len() {
        match reached.get(number) {
            Some(summary) => add_if_imported(&paths, summary, &mut told)?,
            None => unreachable!(),
        }
    }
    Ok(told)
}

/// What a package sees of the packages that its imports come to, by what it is made from: in each table what these tell, in the order of what is reached.
/// The time that it takes is linear in the packages that are reached and in the imports; it shares what it holds.
///
/// # Errors
///
/// `AllocError` where memory is wanting.
pub fn view_of_imports(alloc: Global, input: &PartInput) -> Result<View, AllocError>
    ensures types { IfOk result (λ v. v.types ≡ types_told (told_by_imports input.now)) }
    ensures shown { IfOk result (λ v. v.shown ≡ exports_told (told_by_imports input.now)) }
    ensures faces { IfOk result (λ v. v.faces ≡ faces_told (told_by_imports input.now)) }
{
    let told = told_by_imports(alloc, input)?;
    let view = view_of(alloc, &told)?;
    Ok(view)
}
