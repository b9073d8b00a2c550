//! The packages that imports come to.
ghost use Rattle.std.specs.Prelude.{◌≡◌, ◌++◌, IfOk, OnOk, map};
ghost use Rattle.std.specs.List.{flat_map};
ghost use Rattle.go_declared_core.specs.block_core.Naming.{imported_in};
ghost use Rattle.go_emit_core.specs.Imports.{all_passing, imported_paths};

use go_constant_core::text_core::add;
use go_declared_core::block_core::Imported;
use go_table_core::path_core::ImportPath;
use std::alloc::{AllocError, Global};

// Adds the package that an import comes to.
fn add_path(paths: &mut Vec<ImportPath>, import: &Imported) -> Result<(), AllocError>
    ensures { OnOk result (paths.new.items ≡ paths.old.items ++ imported_paths import.now) }
{
    match import {
        Imported::Package(exports) => add(paths, exports.path().share()?),
        Imported::Refused(_) => Ok(()),
    }
}

// Adds the packages that the imports of a file come to.
fn add_paths(paths: &mut Vec<ImportPath>, imports: &[Imported]) -> Result<(), AllocError>
    ensures { OnOk result (paths.new.items ≡ paths.old.items ++ flat_map imported_paths imports.now) }
{
    for import in imports {
        add_path(paths, import)?;
    }
    Ok(())
}

/// The packages that the imports of all files come to: the files in order of name, the imports of each in order of place.
///
/// # Errors
///
/// `AllocError` where memory is wanting.
pub(crate) fn passing_of(
    alloc: Global,
    imports: &[Vec<Imported>],
) -> Result<Vec<ImportPath>, AllocError>
    ensures { IfOk result (λ paths. paths.items ≡ all_passing (map imported_in imports.now)) }
{
    let mut paths = Vec::new(alloc);
    for file in imports {
        add_paths(&mut paths, file)?;
    }
    Ok(paths)
}
