//! Which package is run, where none is named.
ghost use Rattle.std.specs.Prelude.{◌≡◌, ◌++◌, IfOk, OnOk, codes, map, string_bytes};
ghost use Rattle.std.specs.List.{flat_map};
ghost use Rattle.go_object_core.specs.Objects.{object_shown};
ghost use Rattle.govisd_disk.specs.Finds.{refused_line};
ghost use Rattle.govisd_folders.specs.runs.Outcomes.{NothingRan};
ghost use Rattle.govisd_folders.specs.runs.Choices.{is_main, main_line, main_paths, path_if, several_text};

use crate::runs::answers::nothing_ran;
use crate::{CheckAnswer, Scope, is_inside, name_or_quotes, note};
use go_object_core::Object;
use go_path_core::ImportPath;
use go_report_core::answer::Site;
use std::alloc::{AllocError, Global};

// Whether a package is called `main` and lies in a scope.
fn is_main(scope: &Scope<'_>, object: &Object<Site>) -> bool
    ensures { result ≡ is_main (scope.now.package.now, scope.now.file.now) (object_shown object.now) }
{
    object.name.as_str() == "main" && is_inside(scope, object.path.as_str())
}

// Adds a path, if it is one of those that are looked for.
fn add_if<'a>(
    mains: &mut Vec<&'a ImportPath>,
    is_one: bool,
    path: &'a ImportPath,
) -> Result<(), AllocError>
    ensures { OnOk result (map (λ m. m.now) mains.new.items ≡ map (λ m. m.now) mains.old.items ++ path_if is_one path.now) }
{
    if is_one {
        mains.push(path)?;
    }
    Ok(())
}

/// The paths of the packages in a scope that are called `main`, in order.
///
/// # Errors
///
/// `AllocError` for want of memory.
pub(crate) fn mains_in<'a>(
    alloc: Global,
    scope: &Scope<'_>,
    objects: &'a [Object<Site>],
) -> Result<Vec<&'a ImportPath>, AllocError>
    ensures { IfOk result (λ mains. map (λ m. m.now) mains.items ≡ main_paths (scope.now.package.now, scope.now.file.now) (map object_shown objects.now)) }
{
    let mut mains = Vec::new(alloc);
    for object in objects {
        add_if(&mut mains, is_main(scope, object), &object.path)?;
    }
    Ok(mains)
}

// Adds a line for each of these packages.
fn note_mains(said: &mut String, mains: &[&ImportPath]) -> Result<(), AllocError>
    ensures { OnOk result (string_bytes said.new ≡ string_bytes said.old ++ flat_map main_line (map (λ m. m.now) mains.now)) }
{
    for main in mains {
        note(said, main.as_str(), "this package is called main")?;
    }
    Ok(())
}

/// Nothing ran, since several packages of a folder are called `main`. That stands behind what is said already.
///
/// # Errors
///
/// `AllocError` for want of memory.
pub(crate) fn refuse_several(
    alloc: Global,
    before: &str,
    folder: &str,
    mains: &[&ImportPath],
) -> Result<CheckAnswer, AllocError>
    ensures { IfOk result (NothingRan (before.now ++ several_text folder.now (map (λ m. m.now) mains.now))) }
{
    let mut said = String::from_str(alloc, before)?;
    note(
        &mut said,
        name_or_quotes(folder),
        "several packages are called main, and --main names the one to run",
    )?;
    note_mains(&mut said, mains)?;
    Ok(nothing_ran(alloc, said))
}
