//! The object of a package, and the objects of many.
ghost use Rattle.std.specs.Prelude.{◌≡◌, ◌++◌, [], IfOk, OnOk, map};
ghost use Rattle.std.specs.List.{flat_map};
ghost use Rattle.std.specs.Option.{option_map};
ghost use Rattle.go_declared_core.specs.typexpr_core.EntryOutlines.{outline_of, outline_shown};
ghost use Rattle.go_package_core.specs.summary_core.Views.{PathsAreApart, faces_told, types_told};
ghost use Rattle.go_declared_core.specs.graph_core.Packages.{trees_of};
ghost use Rattle.go_object_core.specs.Objects.{function_shown, object_shown};
ghost use Rattle.go_package_core.specs.package_part.Parts.{file_shown};
ghost use Rattle.go_emit_core.specs.Emitted.{AreOfDifferentPackages, are_clean, code_scene_over, object_of, objects_of, told_by, told_to, whole_object};
ghost use Rattle.go_emit_core.specs.mirrors.Listing.{outlines_functions};
ghost use Rattle.go_emit_core.specs.meaning.mirrors.Naming.{code_scene_shown, scene_with};
ghost use Rattle.go_emit_core.specs.mirrors.Naming.{objects_with};
ghost use Rattle.go_package_core.specs.package_part.Slots.{somes};

use crate::functions::add_file;
use crate::imports::passing_of;
use crate::meaning::{PackageNames, Tables, names_of, shorter};
use crate::tables::tables_of;
use go_constant_core::text_core::add;
use go_declared_core::typexpr_core::outlines;
use go_object_core::{FunctionCode, Object};
use go_package_core::package_part::{Part, PartFile};
use go_package_core::report_core::Site;
use go_package_core::summary_core::{Summary, View, view_of};
use go_term_core::decl_core::Outline;
use std::alloc::{AllocError, Global};

// Whether nothing is reported of any of these files.
fn are_clean(files: &[PartFile]) -> bool
    ensures { result ≡ are_clean (map file_shown files.now) }
{
    for file in files {
        if !file.report.is_empty() {
            return false;
        }
    }
    true
}

// The functions of the files of a package.
fn functions_of(
    alloc: Global,
    names: &PackageNames<'_>,
    outlines: &[Outline<'_>],
    files: &[PartFile],
) -> Result<Vec<FunctionCode<Site>>, AllocError>
    ensures { IfOk result (λ functions. map function_shown functions.items ≡ outlines_functions (code_scene_shown names.now) 0 (map outline_shown outlines.now) (map file_shown files.now)) }
{
    let mut functions = Vec::new(alloc);
    for number in 0..shorter(outlines.len(), files.len()) {
        let found = &files[number].answers;
        let tops = &outlines[number].decls;
        add_file(
            alloc,
            &mut functions,
            names,
            number,
            tops,
            &found.answers,
            &found.locals,
        )?;
    }
    Ok(functions)
}

// The object of the package of a part, whatever is reported of it, by the tables of what some packages tell.
fn whole_object(alloc: Global, tables: &Tables<'_>, part: &Part) -> Result<Object<Site>, AllocError>
    ensures { IfOk result (λ object. object_shown object ≡ whole_object (scene_with tables.now part.now.input part.now.content) part.now.input part.now.content) }
{
    let outlines = outlines(alloc, part.input().package().files())?;
    let names = names_of(alloc, tables, part, &outlines)?;
    let functions = functions_of(alloc, &names, &outlines, &part.content().files)?;
    let imports = passing_of(alloc, part.input().imports())?;
    let path = part.path().share()?;
    let name = part.summary().exports().name().copy(alloc)?;
    Ok(Object {
        path,
        name,
        imports,
        functions,
    })
}

// Adds what the package of a part tells itself to what the packages tell that it reaches.
fn tell_own(told: &mut Vec<Summary>, part: &Part) -> Result<(), AllocError>
    requires { told.old.items ≡ part.now.input.reached }
    ensures told { OnOk result (told.new.items ≡ told_to part.now.input part.now.content) }
    ensures apart { OnOk result (PathsAreApart told.new.items) }
{
    // Each path is there once, since a package does not reach itself.
    let _content = part.content();
    let _reached = part.input().reached();
    part.tell(told)
}

// The object of the package of a part, whatever is reported of it, by what the packages tell that it reaches and what it tells itself, and by what is
// seen of these.
fn object_seen(
    alloc: Global,
    part: &Part,
    told: &[Summary],
    seen: &View,
) -> Result<Object<Site>, AllocError>
    requires told { told.now ≡ told_to part.now.input part.now.content }
    requires types { seen.now.types ≡ types_told told.now }
    requires faces { seen.now.faces ≡ faces_told told.now }
    ensures { IfOk result (λ object. object_shown object ≡ whole_object (code_scene_over (told_to part.now.input part.now.content) part.now.input part.now.content) part.now.input part.now.content) }
{
    let tables = tables_of(alloc, told, seen)?;
    let object = whole_object(alloc, &tables, part)?;
    Ok(object)
}

// The object of the package of a part, whatever is reported of it. To what the packages tell that it reaches, what it tells itself is added.
fn object_told(
    alloc: Global,
    part: &Part,
    told: &mut Vec<Summary>,
) -> Result<Object<Site>, AllocError>
    requires { told.old.items ≡ part.now.input.reached }
    ensures { IfOk result (λ object. object_shown object ≡ whole_object (code_scene_over (told_to part.now.input part.now.content) part.now.input part.now.content) part.now.input part.now.content) }
{
    tell_own(told, part)?;
    let all = told.as_slice();
    let seen = view_of(alloc, all)?;
    let object = object_seen(alloc, part, all, &seen)?;
    Ok(object)
}

// The object of the package of a part, whatever is reported of it, over what the packages tell that it reaches and what it tells itself.
fn own_object(alloc: Global, part: &Part) -> Result<Object<Site>, AllocError>
    ensures { IfOk result (λ object. object_shown object ≡ whole_object (code_scene_over (told_to part.now.input part.now.content) part.now.input part.now.content) part.now.input part.now.content) }
{
    let mut told = part.input().reached().list(alloc)?;
    let object = object_told(alloc, part, &mut told)?;
    Ok(object)
}

/// The object of the package of a part: none where anything is reported of a file of it. Its functions stand in order of file name and offset. Each
/// has its declaration, its name, whether it has a receiver, how many slots it has, its code, and its references: what the occurrences of its body
/// come to, in order of offset. The time that it takes is linear in the package and in what the packages tell that it reaches, but for a logarithm:
/// the objects of many packages are `emit_all`'s.
///
/// The Go specification, "Packages", "Function declarations", "Method declarations", "Statements", "Expressions".
///
/// # Errors
///
/// `AllocError` where memory is wanting.
pub fn emit(alloc: Global, part: &Part) -> Result<Option<Object<Site>>, AllocError>
    ensures { IfOk result (λ object. option_map object_shown object ≡ object_of part.now.input part.now.content) }
{
    if are_clean(&part.content().files) {
        let object = own_object(alloc, part)?;
        Ok(Some(object))
    } else {
        Ok(None)
    }
}

// Adds what these parts tell, in their order, to nothing.
fn tell_parts(told: &mut Vec<Summary>, parts: &[Option<Part>]) -> Result<(), AllocError>
    requires { told.old.items ≡ [] }
    ensures { OnOk result (told.new.items ≡ told_by (somes parts.now)) }
{
    for part in parts {
        if let Some(part) = part {
            part.tell(told)?;
        }
    }
    Ok(())
}

// Adds the object of the package of a part, where nothing is reported of a file of it.
fn add_object(
    alloc: Global,
    objects: &mut Vec<Object<Site>>,
    tables: &Tables<'_>,
    part: &Part,
) -> Result<(), AllocError>
    ensures { OnOk result (map object_shown objects.new.items ≡ map object_shown objects.old.items ++ objects_with tables.now part.now) }
{
    if are_clean(&part.content().files) {
        add(objects, whole_object(alloc, tables, part)?)
    } else {
        Ok(())
    }
}

// The objects of the packages of parts, by the tables of what some packages tell.
fn objects_in(
    alloc: Global,
    tables: &Tables<'_>,
    parts: &[Option<Part>],
) -> Result<Vec<Object<Site>>, AllocError>
    ensures { IfOk result (λ objects. map object_shown objects.items ≡ flat_map (objects_with tables.now) (somes parts.now)) }
{
    let mut objects = Vec::new(alloc);
    for part in parts {
        if let Some(part) = part {
            add_object(alloc, &mut objects, tables, part)?;
        }
    }
    Ok(objects)
}

// The objects of the packages of parts, over what all of these parts tell, by what is seen of that.
fn objects_seen(
    alloc: Global,
    parts: &[Option<Part>],
    told: &[Summary],
    seen: &View,
) -> Result<Vec<Object<Site>>, AllocError>
    requires told { told.now ≡ told_by (somes parts.now) }
    requires types { seen.now.types ≡ types_told told.now }
    requires faces { seen.now.faces ≡ faces_told told.now }
    ensures { IfOk result (λ objects. map object_shown objects.items ≡ objects_of (somes parts.now)) }
{
    let tables = tables_of(alloc, told, seen)?;
    let objects = objects_in(alloc, &tables, parts)?;
    Ok(objects)
}

// The objects of the packages of parts, over what all of these parts tell. What they tell is added to nothing.
fn objects_told(
    alloc: Global,
    parts: &[Option<Part>],
    told: &mut Vec<Summary>,
) -> Result<Vec<Object<Site>>, AllocError>
    requires apart { AreOfDifferentPackages (somes parts.now) }
    requires nothing { told.old.items ≡ [] }
    ensures { IfOk result (λ objects. map object_shown objects.items ≡ objects_of (somes parts.now)) }
{
    tell_parts(told, parts)?;
    let all = told.as_slice();
    let seen = view_of(alloc, all)?;
    let objects = objects_seen(alloc, parts, all, &seen)?;
    Ok(objects)
}

/// The objects of packages by their parts, as of a whole workspace, in the order of the parts: of each part that is there, and of which nothing is
/// reported. Each is made over what all of these parts tell. The tables of that are made once, so that the time is linear in the packages together, but
/// for a logarithm.
///
/// The Go specification, "Packages", "Import declarations", "Function declarations", "Method declarations".
///
/// # Errors
///
/// `AllocError` where memory is wanting.
pub fn emit_all(alloc: Global, parts: &[Option<Part>]) -> Result<Vec<Object<Site>>, AllocError>
    requires { AreOfDifferentPackages (somes parts.now) }
    ensures { IfOk result (λ objects. map object_shown objects.items ≡ objects_of (somes parts.now)) }
{
    let mut told = Vec::new(alloc);
    let objects = objects_told(alloc, parts, &mut told)?;
    Ok(objects)
}
