//! The faces of a package's declarations, held.
ghost use Rattle.std.specs.Prelude.{◌≡◌, ◌++◌, IfOk, OnOk, map, slice_get};
ghost use Rattle.std.specs.List.Sorted.{IsSorted, IsPermutation};
ghost use Rattle.std.specs.Option.{option_map};
ghost use Rattle.go_summary_core.specs.declared_core.Faces.{face_shown};
ghost use Rattle.go_summary_core.specs.declared_core.Held.{declared_shown};
ghost use Rattle.go_summary_core.specs.declared_core.Written.{DeclsRise, decls_of};
ghost use Rattle.go_block_core.specs.Exports.{name_and_decl};
ghost use Rattle.go_term_core.specs.decl_core.Order.{place_cmp};
ghost use Rattle.go_report_core.specs.answer.Shown.{exported_decls, is_decl_listed, package_shown, shown_among, shown_if};
ghost use Rattle.go_report_core.specs.answer.mirrors.Steps.{shown_at};

use go_block_core::{Blocks, NamedDecl};
use go_path_core::ImportPath;
use go_path_core::text_core::{add, is_exported};
use go_summary_core::declared_core::{DeclaredFace, Face, PackageFaces, WrittenFaces, hold};
use go_summary_core::handle_core::{SignatureRef, TypeRef};
use go_term_core::decl_core::{DeclRef, place_order};
use go_term_core::{Signature, TypeTerm};
use std::alloc::{AllocError, Global};

// What a declaration is, lent: none where nothing is known of it.
type Known<'p> = Option<Face<TypeRef<'p>, SignatureRef<'p>>>;

// What a declaration is, held.
fn hold_known(
    alloc: Global,
    known: &Known<'_>,
) -> Result<Option<Face<TypeTerm, Signature>>, AllocError>
    ensures { IfOk result (λ held. option_map face_shown held ≡ known.now) }
{
    match known {
        Some(face) => Ok(Some(hold(alloc, face)?)),
        None => Ok(None),
    }
}

/// What declarations are, held: each at its place.
///
/// # Errors
///
/// `AllocError` where memory is wanting.
pub fn held_faces(
    alloc: Global,
    known: &[Option<Face<TypeRef<'_>, SignatureRef<'_>>>],
) -> Result<Vec<Option<Face<TypeTerm, Signature>>>, AllocError>
    ensures { IfOk result (λ held. map (option_map face_shown) held.items ≡ known.now) }
{
    let mut held = Vec::new(alloc);
    for face in known {
        add(&mut held, hold_known(alloc, face)?)?;
    }
    Ok(held)
}

// The declarations that a block has under exported names, in the order of the block.
fn exported_of(alloc: Global, block: &[NamedDecl]) -> Result<Vec<DeclRef>, AllocError>
    ensures { IfOk result (λ decls. decls.items ≡ exported_decls (map name_and_decl block.now)) }
{
    let mut decls = Vec::new(alloc);
    for named in block {
        if is_exported(named.name.as_str()) {
            decls.push(named.decl)?;
        }
    }
    Ok(decls)
}

// Puts declarations into their order.
fn sort(decls: &mut Vec<DeclRef>)
    ensures moved { IsPermutation decls.old.items decls.new.items }
    ensures sorted { IsSorted place_cmp decls.new.items }
{
    decls.sort_unstable_by(|one, other| place_order(*one, *other));
}

// Whether a declaration is among those of a list in order, by file and number.
fn is_listed(sorted: &[DeclRef], decl: DeclRef) -> bool
    requires { IsSorted place_cmp sorted.now }
    ensures { result ≡ is_decl_listed sorted.now decl }
{
    sorted
        .binary_search_by(|other| place_order(*other, decl))
        .is_ok()
}

// Adds the face of a declaration that is among those of a list in order, where something is known of it.
fn add_face(
    alloc: Global,
    sorted: &[DeclRef],
    decl: DeclRef,
    known: &Known<'_>,
    faces: &mut Vec<DeclaredFace>,
) -> Result<(), AllocError>
    requires { IsSorted place_cmp sorted.now }
    ensures { OnOk result (map declared_shown faces.new.items ≡ map declared_shown faces.old.items ++ shown_if (is_decl_listed sorted.now decl) decl known.now) }
{
    if let Some(face) = known {
        if is_listed(sorted, decl) {
            let face = hold(alloc, face)?;
            faces.push(DeclaredFace { decl, face })?;
        }
    }
    Ok(())
}

// Adds the face of the declaration at a place.
fn add_face_at(
    alloc: Global,
    sorted: &[DeclRef],
    written: &WrittenFaces,
    known: &[Known<'_>],
    at: usize,
    faces: &mut Vec<DeclaredFace>,
) -> Result<(), AllocError>
    requires { IsSorted place_cmp sorted.now }
    ensures { OnOk result (map declared_shown faces.new.items ≡ map declared_shown faces.old.items ++ shown_at sorted.now (option_map (λ w. w.decl) (slice_get written.now at)) (slice_get known.now at)) }
{
    match written.decl(at) {
        Some(decl) => match known.get(at) {
            Some(face) => add_face(alloc, sorted, decl, face, faces),
            None => Ok(()),
        },
        None => Ok(()),
    }
}

// The faces of those declarations of a package that are among those of a list in order.
fn faces_among(
    alloc: Global,
    sorted: &[DeclRef],
    written: &WrittenFaces,
    known: &[Known<'_>],
) -> Result<Vec<DeclaredFace>, AllocError>
    requires { IsSorted place_cmp sorted.now }
    ensures faces { IfOk result (λ faces. map declared_shown faces.items ≡ shown_among sorted.now (decls_of written.now) known.now) }
    ensures rising { DeclsRise (decls_of written.now) }
{
    let mut faces = Vec::new(alloc);
    for at in 0..written.len() {
        add_face_at(alloc, sorted, written, known, at, &mut faces)?;
    }
    Ok(faces)
}

/// What the package of a path shows to those that import it: the names of its package block, and, in order of file and number, the faces of
/// those declarations that the block has under an exported name, where something is known of them. What a declaration is stands in `known`
/// at the declaration's place in `written`. A declaration that is not exported, a method too, counts for nothing but the name that it has in
/// the block.
///
/// Takes time that grows with the number n of declarations as n log n.
///
/// The Go specification, "Exported identifiers".
///
/// # Errors
///
/// `AllocError` where memory is wanting.
pub fn shown_faces(
    alloc: Global,
    path: &ImportPath,
    blocks: &Blocks,
    written: &WrittenFaces,
    known: &[Option<Face<TypeRef<'_>, SignatureRef<'_>>>],
) -> Result<PackageFaces, AllocError>
    ensures { IfOk result (λ p. p ≡ package_shown path.now blocks.now (decls_of written.now) known.now) }
{
    let block = blocks.names(alloc)?;
    let mut shown = exported_of(alloc, &block)?;
    sort(&mut shown);
    let faces = faces_among(alloc, &shown, written, known)?;
    PackageFaces::new(alloc, path.share()?, blocks, faces)
}
