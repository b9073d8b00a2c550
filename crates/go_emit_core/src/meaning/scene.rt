//! What the names of a package are looked up in.
ghost use Rattle.std.specs.Prelude.{◌≡◌, ◌≤◌, ◌⊎◌, ◌++◌, IfOk, OnOk, map};
ghost use Rattle.std.specs.Option.{option_map};
ghost use Rattle.go_term_core.specs.decl_core.Shown.{decl_shown};
ghost use Rattle.go_declared_core.specs.typexpr_core.EntryOutlines.{outline_of, outline_shown};
ghost use Rattle.go_declared_core.specs.graph_core.Packages.{trees_of};
ghost use Rattle.go_declared_core.specs.Faces.{face_shown};
ghost use Rattle.go_emit_core.specs.meaning.Meanings.{some_face_meaning};
ghost use Rattle.go_emit_core.specs.meaning.Scenes.{decl_at, own_spotted};
ghost use Rattle.go_emit_core.specs.lookup.Places.{decl_spot};
ghost use Rattle.go_emit_core.specs.meaning.mirrors.Listing.{outlines_decls};
ghost use Rattle.go_emit_core.specs.meaning.mirrors.Naming.{code_scene_in, code_scene_shown, scene_with};
ghost use Rattle.go_emit_core.specs.lookup.mirrors.Spotting.{item_shown};

use crate::lookup::{DeclSpot, DeclTable, SpottedDecl};
use crate::meaning::meanings::some_meaning;
use crate::meaning::tables::Tables;
use go_constant_core::text_core::add;
use go_declared_core::{Face, lend};
use go_package_core::package_part::Part;
use go_table_core::TypeTable;
use go_table_core::path_core::ImportPath;
use go_term_core::decl_core::{DeclRef, Outline, TopDecl};
use go_term_core::{Signature, TypeTerm};
use std::alloc::{AllocError, Global};

/// What the names of a package are looked up in.
pub struct PackageNames<'a> {
    /// The path of the package.
    pub path: &'a ImportPath,
    /// Its declarations outside functions.
    pub own: DeclTable<'a>,
    /// What is told of other packages, and of this one.
    pub tables: &'a Tables<'a>,
}

impl Drop for PackageNames<'_> {
    fn drop(self) {
        let PackageNames {
            path: _,
            own: _,
            tables: _,
        } = self;
    }
}

/// The smaller of two lengths.
pub fn shorter(one: usize, other: usize) -> usize
    ensures first { result ≤ one }
    ensures second { result ≤ other }
    ensures either { (result ≡ one) ⊎ (result ≡ other) }
{
    if one < other { one } else { other }
}

/// A declaration outside functions in the file of a number.
pub fn decl_at(file: usize, decl: &TopDecl<'_>) -> DeclRef
    ensures { result ≡ decl_at file (decl_shown decl.now) }
{
    DeclRef {
        file,
        number: decl.number,
        kind: decl.form.kind(),
    }
}

// Adds the declarations of a file.
fn add_decls(decls: &mut Vec<DeclRef>, file: usize, tops: &[TopDecl<'_>]) -> Result<(), AllocError>
    ensures { OnOk result (decls.new.items ≡ decls.old.items ++ map (decl_at file) (map decl_shown tops.now)) }
{
    for decl in tops {
        add(decls, decl_at(file, decl))?;
    }
    Ok(())
}

// The declarations of a package, in order of file and number.
fn decls_of(alloc: Global, outlines: &[Outline<'_>]) -> Result<Vec<DeclRef>, AllocError>
    ensures { IfOk result (λ decls. decls.items ≡ outlines_decls 0 (map outline_shown outlines.now)) }
{
    let mut decls = Vec::new(alloc);
    for (file, outline) in outlines.iter().enumerate() {
        add_decls(&mut decls, file, &outline.decls)?;
    }
    Ok(decls)
}

// A declaration of the package of a path, with what it comes to.
fn own_item<'a>(
    types: &TypeTable,
    path: &'a ImportPath,
    decl: DeclRef,
    face: &Option<Face<TypeTerm, Signature>>,
) -> Result<SpottedDecl<'a>, AllocError>
    ensures { IfOk result (λ i. item_shown i ≡ (decl_spot path.now decl, some_face_meaning types.now (option_map face_shown face.now))) }
{
    let lent = match face {
        Some(face) => Some(lend(face)?),
        None => None,
    };
    Ok(SpottedDecl {
        spot: DeclSpot::new(path, decl),
        meaning: some_meaning(types, &lent),
    })
}

// The declarations of the package of a path, with what they come to.
fn own_items<'a>(
    alloc: Global,
    types: &TypeTable,
    path: &'a ImportPath,
    decls: &[DeclRef],
    declared: &[Option<Face<TypeTerm, Signature>>],
) -> Result<Vec<SpottedDecl<'a>>, AllocError>
    ensures { IfOk result (λ items. map item_shown items.items ≡ own_spotted types.now path.now decls.now (map (option_map face_shown) declared.now)) }
{
    let mut items = Vec::new(alloc);
    for place in 0..shorter(decls.len(), declared.len()) {
        add(
            &mut items,
            own_item(types, path, decls[place], &declared[place])?,
        )?;
    }
    Ok(items)
}

// What the names of the package of a path are looked up in, by the outlines of its files, by what is known of its declarations, and by the tables of
// what some packages tell.
fn package_names<'a>(
    alloc: Global,
    tables: &'a Tables<'a>,
    path: &'a ImportPath,
    declared: &[Option<Face<TypeTerm, Signature>>],
    outlines: &[Outline<'_>],
) -> Result<PackageNames<'a>, AllocError>
    ensures { IfOk result (λ names. code_scene_shown names ≡ code_scene_in tables.now path.now (outlines_decls 0 (map outline_shown outlines.now)) (map (option_map face_shown) declared.now)) }
{
    let decls = decls_of(alloc, outlines)?;
    let items = own_items(alloc, tables.types, path, &decls, declared)?;
    let own = DeclTable::new(alloc, items)?;
    Ok(PackageNames { path, own, tables })
}

/// What the names of the package of a part are looked up in, by the tables of what some packages tell, and by the outlines of the package's files.
///
/// The Go specification, "Declarations and scope", "Qualified identifiers", "Method sets".
///
/// # Errors
///
/// `AllocError` where memory is wanting.
pub fn names_of<'a>(
    alloc: Global,
    tables: &'a Tables<'a>,
    part: &'a Part,
    outlines: &[Outline<'_>],
) -> Result<PackageNames<'a>, AllocError>
    requires { map outline_shown outlines.now ≡ map (λ t. outline_of t.1) (trees_of part.now.input.source.1) }
    ensures { IfOk result (λ names. code_scene_shown names ≡ scene_with tables.now part.now.input part.now.content) }
{
    let content = part.content();
    let names = package_names(alloc, tables, part.path(), &content.declared, outlines)?;
    Ok(names)
}
