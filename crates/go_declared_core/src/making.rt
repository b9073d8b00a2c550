//! What the declarations of a package are, as far as they are written.
ghost use Rattle.std.specs.Prelude.{◌≡◌, ◌++◌, ◌∷◌, [], All, IfOk, OnOk, map};
ghost use Rattle.go_tree_nodes.specs.Shapes.{func_of, shape_type_spec, shape_value_spec};
ghost use Rattle.go_tree_nodes.specs.declared.decls.ValueKind.TheVariants as value_kinds;
ghost use Rattle.go_tree_nodes.specs.TypeShapes.{shape_signature};
ghost use Rattle.go_term_core.specs.decl_core.Shown.{decl_shown, form_shown};
ghost use Rattle.go_term_core.specs.decl_core.TopDecls.{FuncForm, TypeForm, ValueForm};
ghost use Rattle.go_typexpr_core.specs.written.Written.{in_file};
ghost use Rattle.go_typexpr_core.specs.entry.Entries.{package_meanings};
ghost use Rattle.go_typexpr_core.specs.entry.Marks.{alias_mark};
ghost use Rattle.go_typexpr_core.specs.entry.Outlines.{IsOutline, outline_shown};
ghost use Rattle.go_declared_core.specs.Held.{form_held, written_shown};
ghost use Rattle.go_declared_core.specs.Written.{DeclsRise, declared_face, decls_of, file_written, form_as_written, package_written, type_face, value_as_written, written_of, written_with};

use crate::settling::{settled_signature, settled_type, typed};
use crate::written::{WrittenDecl, WrittenFaces, WrittenForm};
use go_block_core::Blocks;
use go_collections_core::text_core::add;
use go_handle_core::table_core::TypeTable;
use go_term_core::TypeTerm;
use go_term_core::decl_core::{DeclForm, DeclKey, DeclKind, DeclRef, Outline, TopDecl};
use go_tree_nodes::{TypeSpec, ValueKind, ValueSpec};
use go_typexpr_core::entry::{FileNames, ImportedNames};
use go_typexpr_core::path_core::ImportPath;
use go_typexpr_core::written::{TypeNames, WrittenIn};
use std::alloc::{AllocError, Global};

// What a constant or a variable is, by its specification.
fn value_form<N: TypeNames>(
    alloc: Global,
    names: &N,
    at: &WrittenIn<'_>,
    types: &TypeTable,
    kind: ValueKind,
    spec: &ValueSpec,
) -> Result<WrittenForm, AllocError>
    ensures { IfOk result (λ w. form_held w ≡ value_as_written (N.meaning names.now) (in_file at.now) types.now kind (shape_value_spec spec.now).type_expr) }
{
    match (kind, &spec.type_expr) {
        (ValueKind::Var, Some(tree)) => Ok(WrittenForm::Variable(settled_type(
            alloc, names, at, types, tree,
        )?)),
        (ValueKind::Var, None) => Ok(WrittenForm::Unwritten),
        (ValueKind::Const, _) => Ok(WrittenForm::Unwritten),
    }
}

// What a type is, by its number in its file.
fn type_form(
    at: &WrittenIn<'_>,
    types: &TypeTable,
    number: usize,
) -> Result<WrittenForm, AllocError>
    ensures { IfOk result (λ w. form_held w ≡ Some (type_face (in_file at.now) types.now number)) }
{
    let path = at.path.share()?;
    let decl = DeclRef {
        file: at.file,
        number,
        kind: DeclKind::Type,
    };
    let own = TypeTerm::Defined(DeclKey { path, decl });
    Ok(WrittenForm::Type(typed(types, own)))
}

// What a type declaration is, by its number in its file: an alias is the type that its name means.
fn declared_form<N: TypeNames>(
    alloc: Global,
    names: &N,
    at: &WrittenIn<'_>,
    types: &TypeTable,
    number: usize,
    spec: &TypeSpec,
) -> Result<WrittenForm, AllocError>
    ensures { IfOk result (λ w. form_held w ≡ Some (declared_face (alias_mark (shape_type_spec spec.now)) (N.meaning names.now) (in_file at.now) types.now number (shape_type_spec spec.now).type_expr)) }
{
    match &spec.alias {
        Some(_) => {
            let target = settled_type(alloc, names, at, types, &spec.type_expr)?;
            Ok(WrittenForm::Type(target))
        }
        None => type_form(at, types, number),
    }
}

// What a declaration is.
fn form_of<N: TypeNames>(
    alloc: Global,
    names: &N,
    at: &WrittenIn<'_>,
    types: &TypeTable,
    decl: &TopDecl<'_>,
) -> Result<WrittenForm, AllocError>
    ensures { IfOk result (λ w. form_held w ≡ form_as_written (N.meaning names.now) (in_file at.now) types.now (decl_shown decl.now).number (decl_shown decl.now).form) }
{
    match decl.form {
        DeclForm::Value(kind, spec, _) => value_form(alloc, names, at, types, kind, spec),
        DeclForm::Type(spec) => declared_form(alloc, names, at, types, decl.number, spec),
        DeclForm::Func(func) => Ok(WrittenForm::Func(settled_signature(
            alloc,
            names,
            at,
            types,
            &func.signature,
        )?)),
    }
}

// A declaration, with what it is.
fn write_decl<N: TypeNames>(
    alloc: Global,
    names: &N,
    at: &WrittenIn<'_>,
    types: &TypeTable,
    decl: &TopDecl<'_>,
) -> Result<WrittenDecl, AllocError>
    ensures { IfOk result (λ w. written_shown w ≡ written_of (N.meaning names.now) (in_file at.now) types.now (decl_shown decl.now)) }
{
    let form = form_of(alloc, names, at, types, decl)?;
    let decl = DeclRef {
        file: at.file,
        number: decl.number,
        kind: decl.form.kind(),
    };
    Ok(WrittenDecl { decl, form })
}

// Adds the declarations of a file.
fn add_decls<N: TypeNames>(
    alloc: Global,
    names: &N,
    at: &WrittenIn<'_>,
    types: &TypeTable,
    decls: &[TopDecl<'_>],
    written: &mut Vec<WrittenDecl>,
) -> Result<(), AllocError>
    ensures { OnOk result (map written_shown written.new.items ≡ map written_shown written.old.items ++ file_written (N.meaning names.now) (in_file at.now) types.now (map decl_shown decls.now)) }
{
    for decl in decls {
        let one = write_decl(alloc, names, at, types, decl)?;
        add(written, one)?;
    }
    Ok(())
}

// The declarations of the files of a package, in order of file and number.
fn write_decls<P: ImportedNames>(
    alloc: Global,
    path: &ImportPath,
    blocks: &Blocks,
    imported: &P,
    types: &TypeTable,
    outlines: &[Outline<'_>],
) -> Result<Vec<WrittenDecl>, AllocError>
    ensures { IfOk result (λ ws. map written_shown ws.items ≡ package_written (P.shows imported.now) path.now blocks.now types.now (map outline_shown outlines.now)) }
{
    let mut written = Vec::new(alloc);
    for (file, outline) in outlines.iter().enumerate() {
        let names = FileNames {
            path,
            blocks,
            file,
            imported,
        };
        let places = &outline.places;
        let at = WrittenIn { path, file, places };
        add_decls(alloc, &names, &at, types, &outline.decls, &mut written)?;
    }
    Ok(written)
}

/// The declarations of the package of a path outside functions, in order of file and number, each with what it is as far as it is written.
/// `outlines` has one for each file of the package in order of name, as `outlines` of `go_typexpr_core::entry` makes them, `blocks` are the package's,
/// `imported` is what other packages show and what declarations mean, and `types` has the types of the package and of those that it reaches. A
/// type is its own key's, where that is a type, and an alias is the type that its name means, settled, where it is one; a function and a method
/// have their settled signature; a variable with a written type has that type, settled, where it is one. The time that it takes is linear in what
/// is written, times what a look-up among types takes.
///
/// The Go specification, "Type declarations", "Alias declarations", "Function declarations", "Method declarations", "Variable declarations".
///
/// # Errors
///
/// `AllocError` where memory is wanting.
pub fn written_faces<P: ImportedNames>(
    alloc: Global,
    path: &ImportPath,
    blocks: &Blocks,
    imported: &P,
    types: &TypeTable,
    outlines: &[Outline<'_>],
) -> Result<WrittenFaces, AllocError>
    requires { All IsOutline (map outline_shown outlines.now) }
    ensures { IfOk result (λ w. w ≡ package_written (P.shows imported.now) path.now blocks.now types.now (map outline_shown outlines.now)) }
{
    let decls = write_decls(alloc, path, blocks, imported, types, outlines)?;
    Ok(WrittenFaces { decls })
}
