//! The types that a package declares.
ghost use Rattle.std.specs.Prelude.{◌≡◌, ◌++◌, [], ◌∷◌, All, IfOk, OnOk, map};
ghost use Rattle.go_term_core.specs.decl_core.Shown.{decl_shown};
ghost use Rattle.go_tree_nodes.specs.Shapes.{shape_type_spec};
ghost use Rattle.go_type_core.specs.table_core.Shown.{entry_shown};
ghost use Rattle.go_type_core.specs.table_core.Tables.{AreOf, KeysRise};
ghost use Rattle.go_typexpr_core.specs.written.Written.{in_file};
ghost use Rattle.go_typexpr_core.specs.entry.Entries.{all_entries, declared_entries, entries_with, entry_by, file_entries_by, is_listed, listed_entry, package_meanings, spec_entry};
ghost use Rattle.go_typexpr_core.specs.entry.Marks.{alias_mark};
ghost use Rattle.go_typexpr_core.specs.entry.Outlines.{IsOutline, outline_shown};

use crate::entry::file_names::{DeclaredNames, FileNames, ImportedNames};
use crate::entry::marks::is_listed;
use crate::entry::methods::add_methods;
use crate::written::{TypeNames, WrittenIn, write_type};
use go_path_core::ImportPath;
use go_path_core::text_core::add;
use go_scope_core::block_core::Blocks;
use go_term_core::decl_core::{DeclForm, DeclKey, DeclKind, DeclRef, Outline, TopDecl};
use go_tree_nodes::TypeSpec;
use go_type_core::table_core::TypeEntry;
use std::alloc::{AllocError, Global};

// A type as it is written, without methods.
fn write_entry<N: TypeNames>(
    alloc: Global,
    names: &N,
    at: &WrittenIn<'_>,
    decl: &TopDecl<'_>,
    spec: &TypeSpec,
) -> Result<TypeEntry, AllocError>
    ensures { IfOk result (λ e. entry_shown e ≡ spec_entry (N.meaning names.now) (in_file at.now) [] (decl_shown decl.now) (shape_type_spec spec.now)) }
{
    let path = at.path.share()?;
    let name = decl.ident.name.copy(alloc)?;
    let term = write_type(alloc, names, at, &spec.type_expr)?;
    let own = DeclRef {
        file: at.file,
        number: decl.number,
        kind: DeclKind::Type,
    };
    Ok(TypeEntry {
        key: DeclKey { path, decl: own },
        name,
        term,
        methods: Vec::new(alloc),
    })
}

// Adds a type, or an alias where aliases count also.
fn add_spec<N: TypeNames>(
    alloc: Global,
    names: &N,
    at: &WrittenIn<'_>,
    decl: &TopDecl<'_>,
    spec: &TypeSpec,
    also: bool,
    entries: &mut Vec<TypeEntry>,
) -> Result<(), AllocError>
    ensures { OnOk result (map entry_shown entries.new.items ≡ map entry_shown entries.old.items ++ listed_entry (is_listed also (alias_mark (shape_type_spec spec.now))) (spec_entry (N.meaning names.now) (in_file at.now) [] (decl_shown decl.now) (shape_type_spec spec.now))) }
{
    if !is_listed(also, spec) {
        return Ok(());
    }
    let entry = write_entry(alloc, names, at, decl, spec)?;
    add(entries, entry)
}

// Adds what a declaration declares, where that is a type, or an alias where aliases count also.
fn add_type<N: TypeNames>(
    alloc: Global,
    names: &N,
    at: &WrittenIn<'_>,
    decl: &TopDecl<'_>,
    also: bool,
    entries: &mut Vec<TypeEntry>,
) -> Result<(), AllocError>
    ensures { OnOk result (map entry_shown entries.new.items ≡ map entry_shown entries.old.items ++ entry_by also (N.meaning names.now) (in_file at.now) [] (decl_shown decl.now) (decl_shown decl.now).form) }
{
    match decl.form {
        DeclForm::Type(spec) => add_spec(alloc, names, at, decl, spec, also, entries),
        DeclForm::Value(_, _, _) => Ok(()),
        DeclForm::Func(_) => Ok(()),
    }
}

// Adds the types that a file declares, and its aliases where they count also.
fn add_types<N: TypeNames>(
    alloc: Global,
    names: &N,
    at: &WrittenIn<'_>,
    decls: &[TopDecl<'_>],
    also: bool,
    entries: &mut Vec<TypeEntry>,
) -> Result<(), AllocError>
    ensures { OnOk result (map entry_shown entries.new.items ≡ map entry_shown entries.old.items ++ file_entries_by also (N.meaning names.now) (in_file at.now) [] (map decl_shown decls.now)) }
{
    for decl in decls {
        add_type(alloc, names, at, decl, also, entries)?;
    }
    Ok(())
}

// The types of the files of a package, in order of file and number, without methods.
fn bare_entries<P: ImportedNames>(
    alloc: Global,
    path: &ImportPath,
    blocks: &Blocks,
    imported: &P,
    outlines: &[Outline<'_>],
) -> Result<Vec<TypeEntry>, AllocError>
    ensures { IfOk result (λ es. map entry_shown es.items ≡ entries_with (package_meanings (P.shows imported.now) path.now blocks.now) path.now [] (map outline_shown outlines.now)) }
{
    let mut entries = Vec::new(alloc);
    for (file, outline) in outlines.iter().enumerate() {
        let names = FileNames {
            path,
            blocks,
            file,
            imported,
        };
        let places = &outline.places;
        let at = WrittenIn { path, file, places };
        add_types(alloc, &names, &at, &outline.decls, false, &mut entries)?;
    }
    Ok(entries)
}

/// The types and the aliases that the package of a path declares outside functions, in order of file and number, each with what is written of
/// it and without methods, where each name means the declaration that it denotes: one that denotes an alias means the alias. `outlines` has one
/// for each file of the package in order of name, as `outlines` of this crate makes them. The Go specification, "Type declarations".
///
/// # Errors
///
/// `AllocError` where memory is wanting.
pub fn all_types<P: ImportedNames>(
    alloc: Global,
    path: &ImportPath,
    blocks: &Blocks,
    imported: &P,
    outlines: &[Outline<'_>],
) -> Result<Vec<TypeEntry>, AllocError>
    requires { All IsOutline (map outline_shown outlines.now) }
    ensures entries { IfOk result (λ es. map entry_shown es.items ≡ all_entries (P.shows imported.now).shown path.now blocks.now (map outline_shown outlines.now)) }
    ensures own { IfOk result (λ es. AreOf path.now (map entry_shown es.items)) }
    ensures rising { IfOk result (λ es. KeysRise (map entry_shown es.items)) }
{
    let mut entries = Vec::new(alloc);
    for (file, outline) in outlines.iter().enumerate() {
        let names = DeclaredNames {
            path,
            blocks,
            file,
            imported,
        };
        let places = &outline.places;
        let at = WrittenIn { path, file, places };
        add_types(alloc, &names, &at, &outline.decls, true, &mut entries)?;
    }
    Ok(entries)
}

/// The types that the package of a path declares outside functions, in order of file and number, each with what it is defined by and with
/// the methods of all files whose receivers name it, in order of file and number. `outlines` has one for each file of the package in order
/// of name, as `outlines` of this crate makes them, `blocks` are the package's, and `imported` is what other packages show. A method belongs to a type where its receiver's base
/// denotes that type at the top of its file; one whose receiver denotes no type of the package belongs to none. Names of types that
/// denote none are `TypeTerm::NoType`. The time that it takes is linear in what is written, times the logarithm of the number of types for
/// each method. The Go specification, "Type declarations", "Method declarations".
///
/// # Errors
///
/// `AllocError` where memory is wanting.
pub fn type_entries<P: ImportedNames>(
    alloc: Global,
    path: &ImportPath,
    blocks: &Blocks,
    imported: &P,
    outlines: &[Outline<'_>],
) -> Result<Vec<TypeEntry>, AllocError>
    requires { All IsOutline (map outline_shown outlines.now) }
    ensures entries { IfOk result (λ es. map entry_shown es.items ≡ declared_entries (P.shows imported.now) path.now blocks.now (map outline_shown outlines.now)) }
    // So the keys are those of one package, and differ.
    ensures own { IfOk result (λ es. AreOf path.now (map entry_shown es.items)) }
    ensures rising { IfOk result (λ es. KeysRise (map entry_shown es.items)) }
{
    let mut entries = bare_entries(alloc, path, blocks, imported, outlines)?;
    for (file, outline) in outlines.iter().enumerate() {
        let names = FileNames {
            path,
            blocks,
            file,
            imported,
        };
        let places = &outline.places;
        let at = WrittenIn { path, file, places };
        add_methods(alloc, &names, &at, &outline.decls, &mut entries)?;
    }
    Ok(entries)
}
