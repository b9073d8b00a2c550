//! What the names of a file come to.
ghost use Rattle.std.specs.Prelude.{◌≡◌, IfOk, map};
ghost use Rattle.go_declared_core.specs.handle_core.Declarations.{site_shown};
ghost use Rattle.go_declared_core.specs.Packages.{face_in};
ghost use Rattle.go_package_core.specs.Checked.{local_shown};
ghost use Rattle.go_emit_core.specs.meaning.Looking.{locals_meant, uses_meant};
ghost use Rattle.go_emit_core.specs.meaning.Scenes.{decl_meaning, declared_meaning, local_place_meaning, method_meaning, method_place_meaning, outcome_meaning, own_or, place_meaning, selected_meaning};
ghost use Rattle.go_emit_core.specs.meaning.mirrors.Naming.{code_scene_shown};

use crate::lookup::{FileCodeNames, OffsetTable, meant};
use crate::meaning::meanings::{local_meaning, some_meaning, universe_meaning};
use crate::meaning::scene::PackageNames;
use go_code_core::fragments::Meaning;
use go_constant_core::text_core::add;
use go_declared_core::handle_core::{DeclSite, SignatureRef, TypeRef};
use go_declared_core::{Face, FaceTable};
use go_expr_core::denote_core::Outcome;
use go_package_core::report_core::{Answer, HeldLocal, Site};
use go_select_core::EmbedPath;
use go_table_core::TypeTable;
use go_table_core::path_core::ImportPath;
use go_term_core::decl_core::DeclRef;
use go_term_core::{LocalPlace, MemberPlace};
use std::alloc::{AllocError, Global};

// What a declaration of a package is that is reached.
fn face_at<'p>(
    faces: &'p FaceTable,
    path: &ImportPath,
    decl: DeclRef,
) -> Result<Option<Face<TypeRef<'p>, SignatureRef<'p>>>, AllocError>
    ensures { IfOk result (λ f. f ≡ face_in faces.now path.now decl) }
{
    match faces.locate(path) {
        Some(shown) => shown.face(decl),
        None => Ok(None),
    }
}

// A declaration of a package outside functions: of this package, or of one that it reaches.
fn decl_meaning(
    package_names: &PackageNames<'_>,
    path: &ImportPath,
    decl: DeclRef,
) -> Result<Meaning, AllocError>
    ensures { IfOk result (λ m. m ≡ decl_meaning (code_scene_shown package_names.now) path.now decl) }
{
    match package_names.own.meaning(path, decl) {
        Some(meaning) => Ok(meaning),
        None => {
            let face = face_at(package_names.tables.faces, path, decl)?;
            Ok(some_meaning(package_names.tables.types, &face))
        }
    }
}

// A local: one of the same file.
fn local_at(
    package_names: &PackageNames<'_>,
    file: usize,
    locals: &OffsetTable,
    path: &ImportPath,
    place: LocalPlace,
) -> Meaning
    ensures { result ≡ local_place_meaning (code_scene_shown package_names.now) file locals.now path.now place }
{
    if path.is_same(package_names.path) && place.file == file {
        meant(locals.meaning(place.offset))
    } else {
        Meaning::Other
    }
}

fn place_meaning(
    package_names: &PackageNames<'_>,
    file: usize,
    locals: &OffsetTable,
    path: &ImportPath,
    place: MemberPlace,
) -> Result<Meaning, AllocError>
    ensures { IfOk result (λ m. m ≡ place_meaning (code_scene_shown package_names.now) file locals.now path.now place) }
{
    match place {
        MemberPlace::Declared(decl) => decl_meaning(package_names, path, decl),
        MemberPlace::Local(inner) => Ok(local_at(package_names, file, locals, path, inner)),
    }
}

// A name that denotes what is declared at a site.
fn declared_at(
    package_names: &PackageNames<'_>,
    file: usize,
    locals: &OffsetTable,
    site: DeclSite<'_>,
) -> Result<Meaning, AllocError>
    ensures { IfOk result (λ m. m ≡ declared_meaning (code_scene_shown package_names.now) file locals.now (site_shown site.entry)) }
{
    match site {
        DeclSite::Universe(name) => Ok(universe_meaning(name)),
        DeclSite::ErrorMethod => Ok(Meaning::Other),
        DeclSite::Package(_) => Ok(Meaning::Other),
        DeclSite::InFile(path, place) => place_meaning(package_names, file, locals, path, place),
    }
}

fn method_place(package_names: &PackageNames<'_>, path: &ImportPath, place: MemberPlace) -> Meaning
    ensures { result ≡ method_place_meaning (code_scene_shown package_names.now) path.now place }
{
    match place {
        MemberPlace::Declared(decl) => meant(package_names.tables.methods.meaning(path, decl)),
        MemberPlace::Local(_) => Meaning::Other,
    }
}

fn method_at(package_names: &PackageNames<'_>, site: DeclSite<'_>) -> Meaning
    ensures { result ≡ method_meaning (code_scene_shown package_names.now) (site_shown site.entry) }
{
    match site {
        DeclSite::InFile(path, place) => method_place(package_names, path, place),
        DeclSite::Universe(_) => Meaning::Other,
        DeclSite::ErrorMethod => Meaning::Other,
        DeclSite::Package(_) => Meaning::Other,
    }
}

// A member that is selected: a method to which no embedded field leads.
fn selected_meaning(package_names: &PackageNames<'_>, site: &Site, path: &EmbedPath) -> Meaning
    ensures { result ≡ selected_meaning (code_scene_shown package_names.now) site.now path.now }
{
    match path.steps() {
        [] => method_at(package_names, site.decl().site()),
        _ => Meaning::Other,
    }
}

fn outcome_meaning(
    package_names: &PackageNames<'_>,
    file: usize,
    locals: &OffsetTable,
    outcome: &Outcome<Site, EmbedPath>,
) -> Result<Meaning, AllocError>
    ensures { IfOk result (λ m. m ≡ outcome_meaning (code_scene_shown package_names.now) file locals.now outcome.now) }
{
    match outcome {
        Outcome::Declared(site) => { declared_at(package_names, file, locals, site.decl().site()) }
        Outcome::Selected(site, path) => Ok(selected_meaning(package_names, site, path)),
        Outcome::Refused(_) => Ok(Meaning::Other),
    }
}

// What the locals of a file come to.
fn local_items(
    alloc: Global,
    types: &TypeTable,
    locals: &[HeldLocal],
) -> Result<Vec<(usize, Meaning)>, AllocError>
    ensures { IfOk result (λ items. items.items ≡ locals_meant types.now (map local_shown locals.now)) }
{
    let mut items = Vec::new(alloc);
    for local in locals {
        let meaning = local_meaning(types, local.offset, local.value());
        add(&mut items, (local.offset, meaning))?;
    }
    Ok(items)
}

// What the occurrences of a file come to.
fn use_items(
    alloc: Global,
    package_names: &PackageNames<'_>,
    file: usize,
    locals: &OffsetTable,
    answers: &[Answer],
) -> Result<Vec<(usize, Meaning)>, AllocError>
    ensures { IfOk result (λ items. items.items ≡ uses_meant (code_scene_shown package_names.now) file locals.now answers.now) }
{
    let mut items = Vec::new(alloc);
    for answer in answers {
        let meaning = outcome_meaning(package_names, file, locals, &answer.outcome)?;
        add(&mut items, (answer.offset, meaning))?;
    }
    Ok(items)
}

/// What the names of the file of a number come to. The time that it takes is linear in its occurrences and locals, but for a logarithm.
///
/// # Errors
///
/// `AllocError` where memory is wanting.
pub fn file_names(
    alloc: Global,
    package_names: &PackageNames<'_>,
    file: usize,
    answers: &[Answer],
    locals: &[HeldLocal],
) -> Result<FileCodeNames, AllocError>
    ensures locals { IfOk result (λ f. f.locals ≡ locals_meant package_names.now.tables.now.types.now (map local_shown locals.now)) }
    ensures uses { IfOk result (λ f. f.uses ≡ uses_meant (code_scene_shown package_names.now) file (locals_meant package_names.now.tables.now.types.now (map local_shown locals.now)) answers.now) }
{
    let local_items = local_items(alloc, package_names.tables.types, locals)?;
    let local_table = OffsetTable::new(alloc, local_items)?;
    let use_items = use_items(alloc, package_names, file, &local_table, answers)?;
    let uses = OffsetTable::new(alloc, use_items)?;
    Ok(FileCodeNames {
        uses,
        locals: local_table,
    })
}
