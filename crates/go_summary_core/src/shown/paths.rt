//! Paths that are shown.
ghost use Rattle.std.specs.Prelude.{◌↔◌, ◌∷◌, ℕ, List, [], Contains, IfOk, OnOk, map};
ghost use Rattle.std.specs.List.{flat_map};
ghost use Rattle.std.specs.List.Sorted.{IsStrictlySortedBy};
ghost use Rattle.go_declared_core.specs.graph_core.Workspaces.{by_bytes};
ghost use Rattle.go_declared_core.specs.block_core.Naming.{imported_in};
ghost use Rattle.go_summary_core.specs.Summaries.{path_of};
ghost use Rattle.go_summary_core.specs.shown.Shown.{MayBeShown, Picks, import_paths, path_in, texts};
ghost use Rattle.go_summary_core.specs.shown.mirrors.Adding.{AddsPicked};

use crate::ReachedSummaries;
use go_declared_core::block_core::Imported;
use go_table_core::path_core::{ImportPath, may_import};
use go_term_core::text_core::add;
use std::alloc::{AllocError, Global};

// Adds a path, where it is shown.
fn add_shown<'a>(
    paths: &mut Vec<&'a str>,
    path: &'a ImportPath,
    from: &ImportPath,
) -> Result<(), AllocError>
    ensures { OnOk result (AddsPicked (MayBeShown from.now) (path.now ∷ []) (texts paths.old.items) (texts paths.new.items)) }
{
    if may_import(from, path) {
        add(paths, path.as_str())?;
    }
    Ok(())
}

// Adds the path of the package that an import comes to, where there is one and it is shown.
fn add_import<'a>(
    paths: &mut Vec<&'a str>,
    import: &'a Imported,
    from: &ImportPath,
) -> Result<(), AllocError>
    ensures { OnOk result (AddsPicked (MayBeShown from.now) (path_in import.now) (texts paths.old.items) (texts paths.new.items)) }
{
    match import {
        Imported::Package(exports) => add_shown(paths, exports.path(), from),
        Imported::Refused(_) => Ok(()),
    }
}

// The same of the imports of a file.
fn add_imports<'a>(
    paths: &mut Vec<&'a str>,
    imports: &'a [Imported],
    from: &ImportPath,
) -> Result<(), AllocError>
    ensures { OnOk result (AddsPicked (MayBeShown from.now) (flat_map path_in imports.now) (texts paths.old.items) (texts paths.new.items)) }
{
    for import in imports {
        add_import(paths, import, from)?;
    }
    Ok(())
}

// The same of the imports of files.
fn add_all_imports<'a>(
    paths: &mut Vec<&'a str>,
    files: &'a [Vec<Imported>],
    from: &ImportPath,
) -> Result<(), AllocError>
    ensures { OnOk result (AddsPicked (MayBeShown from.now) (import_paths (map imported_in files.now)) (texts paths.old.items) (texts paths.new.items)) }
{
    for imports in files {
        add_imports(paths, imports, from)?;
    }
    Ok(())
}

// Puts texts in byte order, and leaves each once.
fn put_in_order(paths: &mut Vec<&str>)
    ensures order { IsStrictlySortedBy by_bytes (texts paths.new.items) }
    ensures same { (path : List ℕ) → Contains (texts paths.new.items) path ↔ Contains (texts paths.old.items) path }
{
    paths.sort_unstable();
    paths.dedup();
}

/// The paths of the packages that imports come to, which are given for each file, as far as a package of another path may import them: each once, in
/// byte order.
///
/// # Errors
///
/// `AllocError` where memory is wanting.
pub fn imports_shown<'a>(
    alloc: Global,
    files: &'a [Vec<Imported>],
    from: &ImportPath,
) -> Result<Vec<&'a str>, AllocError>
    ensures order { IfOk result (λ paths. IsStrictlySortedBy by_bytes (texts paths.items)) }
    ensures each { IfOk result (λ paths. (path : List ℕ) → Contains (texts paths.items) path ↔ (Contains (import_paths (map imported_in files.now)) path × MayBeShown from.now path)) }
{
    let mut paths = Vec::new(alloc);
    add_all_imports(&mut paths, files, from)?;
    put_in_order(&mut paths);
    Ok(paths)
}

/// The paths of the packages that are reached, as far as a package of another path may import them, in their order.
///
/// # Errors
///
/// `AllocError` where memory is wanting.
pub fn deps_shown<'a>(
    alloc: Global,
    reached: &'a ReachedSummaries,
    from: &ImportPath,
) -> Result<Vec<&'a str>, AllocError>
    ensures { IfOk result (λ paths. Picks (MayBeShown from.now) (map path_of reached.now) (texts paths.items)) }
{
    let mut paths = Vec::new(alloc);
    for number in 0..reached.len() {
        match reached.get(number) {
            Some(summary) => add_shown(&mut paths, summary.path(), from)?,
            None => unreachable!(),
        }
    }
    Ok(paths)
}
