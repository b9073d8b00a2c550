//! The check of a package whose files are checked in pieces at once.
ghost use Rattle.std.specs.Prelude.{◌≡◌, ◌++◌, All, List, IfOk, map};
ghost use Rattle.std.specs.List.{AllByRecursion};
ghost use Rattle.go_type_core.specs.table_core.Entries.{Entry};
ghost use Rattle.go_type_core.specs.table_core.Tables.{AreOthers};
ghost use Rattle.go_body_core.specs.typexpr_core.EntryOutlines.{outline_shown};
ghost use Rattle.go_package_core.specs.prepare.Inlines.{IsPlacedOutline};
ghost use Rattle.go_package_core.specs.prepare.Packages.{outlines_in, package_in_shown, shows_in};
ghost use Rattle.go_package_core.specs.prepare.Types.{AreTypes};
ghost use Rattle.go_package_core.specs.Checked.{IsChecked, checked_shown};
ghost use Rattle.go_package_core.specs.mirrors.Stages.{IsReady};
ghost use Rattle.go_tree_nodes.specs.Spelling.{IsPlaced};

use crate::checked::CheckedPackage;
use crate::files::check_files_at_once;
use crate::package::{declare, scene_of};
use crate::prepare::{
    OwnTypes, PackageAt, Ready, make_ready, package_aliases, package_outlines, package_types,
};
use go_body_core::typexpr_core::ImportedNames;
use go_report_core::answer::{held_faces, shown_faces};
use go_report_core::declared_core::TypesHere;
use go_term_core::decl_core::Outline;
use go_type_core::TypeTable;
use std::alloc::{AllocError, Global};
use std::marker::Brand;
use std::thread::Threads;

// Checks a package whose types are made, and of which this is ready.
fn check_ready_at_once<'p, R: Threads + Sync, P: ImportedNames, N: ImportedNames + Sync>(
    rt: &R,
    alloc: Global,
    at: &'p PackageAt<'_, P>,
    names: &'p N,
    types: &'p TypeTable,
    outlines: &'p [Outline<'p>],
    ready: &'p Ready,
    own: OwnTypes,
) -> Result<CheckedPackage, AllocError>
    requires names { N.shows names.now ≡ shows_in (package_in_shown P.shows at.now) }
    requires outlines { map outline_shown outlines.now ≡ outlines_in (package_in_shown P.shows at.now) }
    requires placed { All IsPlaced (package_in_shown P.shows at.now).trees }
    requires ready { IsReady (package_in_shown P.shows at.now) types.now ready.now }
    ensures types { IfOk result (λ c. c.types ≡ own.types) }
    ensures checked { IfOk result (λ c. (far : List Entry) → types.now ≡ far ++ own.types.entries → AreTypes (package_in_shown P.shows at.now) far own.types.entries own.faults.items → IsChecked (package_in_shown P.shows at.now) far (checked_shown c)) }
{
    let written = &ready.written;
    let scene = scene_of(&ready.home, at.blocks, types, at.faces, written);
    let declared = declare(alloc, &scene, &ready.initial, outlines)?;
    let files = check_files_at_once::<R, P, N, Brand>(
        rt,
        alloc,
        at,
        names,
        &scene,
        outlines,
        ready,
        &declared,
        &own.faults,
    )?;
    let faces = shown_faces(
        alloc,
        at.package.path(),
        at.blocks,
        written,
        &declared.known,
    )?;
    Ok(CheckedPackage {
        faces,
        declared: held_faces(alloc, &declared.known)?,
        files,
        types: own.types,
    })
}

// Checks a package whose types are made.
fn check_typed_at_once<R: Threads + Sync, P: ImportedNames, N: ImportedNames + Sync>(
    rt: &R,
    alloc: Global,
    at: &PackageAt<'_, P>,
    names: &N,
    types: &TypeTable,
    outlines: &[Outline<'_>],
    own: OwnTypes,
) -> Result<CheckedPackage, AllocError>
    requires names { N.shows names.now ≡ shows_in (package_in_shown P.shows at.now) }
    requires outlines { map outline_shown outlines.now ≡ outlines_in (package_in_shown P.shows at.now) }
    requires tokens { AllByRecursion IsPlacedOutline (map outline_shown outlines.now) }
    requires placed { All IsPlaced (package_in_shown P.shows at.now).trees }
    ensures types { IfOk result (λ c. c.types ≡ own.types) }
    ensures checked { IfOk result (λ c. (far : List Entry) → types.now ≡ far ++ own.types.entries → AreTypes (package_in_shown P.shows at.now) far own.types.entries own.faults.items → IsChecked (package_in_shown P.shows at.now) far (checked_shown c)) }
{
    let ready = make_ready(alloc, &*at, &*names, &*outlines, &*types)?;
    check_ready_at_once(rt, alloc, &*at, &*names, &*types, &*outlines, &ready, own)
}

/// Checks a package as [`check_package`](crate::check_package) does, its files in pieces of source at once, of which each decides for itself what holds of types. The answer
/// is the same.
///
/// # Errors
///
/// `AllocError` where memory is wanting, or a thread; the table has then the types of the package, or is as it was.
pub fn check_package_at_once<R: Threads + Sync, P: ImportedNames + Sync>(
    rt: &R,
    alloc: Global,
    at: &PackageAt<'_, P>,
    types: &mut TypeTable,
) -> Result<CheckedPackage, AllocError>
    requires others { AreOthers (package_in_shown P.shows at.now).path types.old }
    ensures path { IfOk result (λ c. c.types.path ≡ (package_in_shown P.shows at.now).path) }
    ensures table { IfOk result (λ c. types.new ≡ types.old ++ c.types.entries) }
    ensures checked { IfOk result (λ c. IsChecked (package_in_shown P.shows at.now) types.old (checked_shown c)) }
{
    let outlines = package_outlines(alloc, &*at)?;
    let aliases = package_aliases(alloc, &*at, &outlines)?;
    let names = TypesHere {
        path: at.package.path(),
        shown: at.shown,
        faces: at.faces,
        aliases: &aliases,
    };
    let own = package_types(alloc, &*at, &names, &aliases, &outlines, types)?;
    check_typed_at_once(rt, alloc, &*at, &names, &*types, &outlines, own)
}
