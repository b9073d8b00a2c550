//! A package of a snapshot as its functions are checked.
ghost use Rattle.std.specs.Prelude.{◌≡◌, map};
ghost use Rattle.std.specs.List.{AllByRecursion};
ghost use Rattle.go_body_core.specs.typexpr_core.EntryOutlines.{outline_shown};
ghost use Rattle.go_package_core.specs.prepare.Inlines.{IsPlacedOutline};
ghost use Rattle.go_package_core.specs.prepare.Packages.{outlines_in, package_in_shown, shows_in};

use crate::branches::Sums;
use crate::branches::functions::compare_files;
use go_body_core::env_core::Scene;
use go_body_core::typexpr_core::ImportedNames;
use go_declared_core::handle_core::{SignatureRef, TypeRef};
use go_declared_core::{Face, TypesHere, lend};
use go_denote_core::text_core::add;
use go_package_core::package_part::{Part, types_of};
use go_package_core::prepare::{PackageAt, Ready, make_ready, package_aliases, package_outlines};
use go_package_core::summary_core::{View, view_of};
use go_table_core::TypeTable;
use go_term_core::decl_core::Outline;
use go_term_core::{Signature, TypeTerm};
use std::alloc::{AllocError, Global};
use std::marker::Brand;
use std::thread::Threads;

/// What a declaration is, lent, if it is known.
fn lend_some<'p>(
    face: &'p Option<Face<TypeTerm, Signature>>,
) -> Result<Option<Face<TypeRef<'p>, SignatureRef<'p>>>, AllocError> {
    match face {
        Some(face) => Ok(Some(lend(face)?)),
        None => Ok(None),
    }
}

/// What declarations are, lent.
fn lend_all<'p>(
    alloc: Global,
    declared: &'p [Option<Face<TypeTerm, Signature>>],
) -> Result<Vec<Option<Face<TypeRef<'p>, SignatureRef<'p>>>>, AllocError> {
    let mut lent = Vec::new(alloc);
    for face in declared {
        add(&mut lent, lend_some(face)?)?;
    }
    Ok(lent)
}

/// Checks the functions of a package in both ways, of which this is ready. Its declarations are known.
fn compare_ready<'p, R: Threads + Sync, P: ImportedNames>(
    rt: &R,
    alloc: Global,
    at: &'p PackageAt<'_, P>,
    declared: &'p [Option<Face<TypeTerm, Signature>>],
    types: &'p TypeTable,
    ready: &'p Ready,
    sums: &mut Sums,
) -> Result<(), AllocError> {
    let scene = Scene {
        home: &ready.home,
        blocks: at.blocks,
        types,
        others: at.faces,
        written: &ready.written,
    };
    let known = lend_all(alloc, declared)?;
    compare_files::<R, Brand>(
        rt,
        alloc,
        &scene,
        &known,
        &ready.functions,
        at.package.files(),
        sums,
    )
}

/// Checks the functions of a package in both ways: with its outlines, and what names of types lead to in it.
fn compare_outlined<R: Threads + Sync, P: ImportedNames, N: ImportedNames>(
    rt: &R,
    alloc: Global,
    at: &PackageAt<'_, P>,
    names: &N,
    declared: &[Option<Face<TypeTerm, Signature>>],
    types: &TypeTable,
    outlines: &[Outline<'_>],
    sums: &mut Sums,
) -> Result<(), AllocError>
    requires names { N.shows names.now ≡ shows_in (package_in_shown P.shows at.now) }
    requires outlines { map outline_shown outlines.now ≡ outlines_in (package_in_shown P.shows at.now) }
    requires placed { AllByRecursion IsPlacedOutline (map outline_shown outlines.now) }
{
    let ready = make_ready(alloc, &*at, &*names, &*outlines, &*types)?;
    compare_ready(rt, alloc, &*at, &*declared, &*types, &ready, sums)
}

/// Checks the functions of a package in both ways.
fn compare_package<R: Threads + Sync, P: ImportedNames>(
    rt: &R,
    alloc: Global,
    at: &PackageAt<'_, P>,
    declared: &[Option<Face<TypeTerm, Signature>>],
    types: &TypeTable,
    sums: &mut Sums,
) -> Result<(), AllocError> {
    let outlines = package_outlines(alloc, &*at)?;
    let aliases = package_aliases(alloc, &*at, &outlines)?;
    let names = TypesHere {
        path: at.package.path(),
        shown: at.shown,
        faces: at.faces,
        aliases: &aliases,
    };
    compare_outlined(
        rt, alloc, &*at, &names, &*declared, &*types, &outlines, sums,
    )
}

/// What the package of a part sees of those that it reaches.
fn view_of_part(alloc: Global, part: &Part) -> Result<View, AllocError> {
    let summaries = part.input().reached().list(alloc)?;
    view_of(alloc, &summaries)
}

/// Checks the functions of the package of a part in both ways, by what it sees of those that it reaches, and by its types.
fn compare_seen<R: Threads + Sync>(
    rt: &R,
    alloc: Global,
    part: &Part,
    types: &TypeTable,
    view: &View,
    sums: &mut Sums,
) -> Result<(), AllocError> {
    let (input, content) = (part.input(), part.content());
    let at = PackageAt {
        package: input.package(),
        blocks: &content.blocks,
        imports: input.imports(),
        shown: &view.shown,
        faces: &view.faces,
    };
    compare_package(rt, alloc, &at, &content.declared, types, sums)
}

/// Checks the functions of the package of a part in both ways.
pub(crate) fn compare_part<R: Threads + Sync>(
    rt: &R,
    alloc: Global,
    part: &Part,
    sums: &mut Sums,
) -> Result<(), AllocError> {
    let types = types_of(alloc, part)?;
    let view = view_of_part(alloc, part)?;
    compare_seen(rt, alloc, part, &types, &view, sums)
}
