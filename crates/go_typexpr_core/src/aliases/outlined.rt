//! The aliases that the files of a package declare.
ghost use Rattle.std.specs.Prelude.{◌≡◌, ◌++◌, All, IfOk, OnOk, map};
ghost use Rattle.go_tree_nodes.specs.Shapes.{shape_type_spec};
ghost use Rattle.go_typexpr_core.specs.entry.Entries.{package_meanings};
ghost use Rattle.go_typexpr_core.specs.entry.Marks.{alias_mark};
ghost use Rattle.go_typexpr_core.specs.entry.Outlines.{IsOutline, outline_shown};
ghost use Rattle.go_term_core.specs.decl_core.Shown.{decl_shown};
ghost use Rattle.go_typexpr_core.specs.written.Written.{in_file};
ghost use Rattle.go_typexpr_core.specs.aliases.Aliases.{decls_of, DeclsRise};
ghost use Rattle.go_typexpr_core.specs.aliases.Outlined.{alias_if, alias_of, alias_spec, file_aliases, written_aliases};
ghost use Rattle.go_typexpr_core.specs.aliases.Shown.{alias_shown};

use crate::aliases::written::Alias;
use crate::entry::{DeclaredNames, ImportedNames, is_alias};
use crate::written::{TypeNames, WrittenIn, write_type};
use go_path_core::ImportPath;
use go_path_core::text_core::add;
use go_scope_core::block_core::Blocks;
use go_term_core::decl_core::{DeclForm, DeclKind, DeclRef, Outline, TopDecl};
use go_tree_nodes::TypeSpec;
use std::alloc::{AllocError, Global};

// A type declaration as an alias.
fn write_alias<N: TypeNames>(
    alloc: Global,
    names: &N,
    at: &WrittenIn<'_>,
    decl: &TopDecl<'_>,
    spec: &TypeSpec,
) -> Result<Alias, AllocError>
    ensures { IfOk result (λ a. alias_shown a ≡ alias_spec (N.meaning names.now) (in_file at.now) (decl_shown decl.now) (shape_type_spec spec.now)) }
{
    let term = write_type(alloc, names, at, &spec.type_expr)?;
    let own = DeclRef {
        file: at.file,
        number: decl.number,
        kind: DeclKind::Type,
    };
    Ok(Alias { decl: own, term })
}

// Adds a type declaration that declares an alias.
fn add_spec<N: TypeNames>(
    alloc: Global,
    names: &N,
    at: &WrittenIn<'_>,
    decl: &TopDecl<'_>,
    spec: &TypeSpec,
    aliases: &mut Vec<Alias>,
) -> Result<(), AllocError>
    ensures { OnOk result (map alias_shown aliases.new.items ≡ map alias_shown aliases.old.items ++ alias_if (alias_mark (shape_type_spec spec.now)) (alias_spec (N.meaning names.now) (in_file at.now) (decl_shown decl.now) (shape_type_spec spec.now))) }
{
    if !is_alias(spec) {
        return Ok(());
    }
    let alias = write_alias(alloc, names, at, decl, spec)?;
    add(aliases, alias)
}

// Adds what a declaration declares, where that is an alias.
fn add_alias<N: TypeNames>(
    alloc: Global,
    names: &N,
    at: &WrittenIn<'_>,
    decl: &TopDecl<'_>,
    aliases: &mut Vec<Alias>,
) -> Result<(), AllocError>
    ensures { OnOk result (map alias_shown aliases.new.items ≡ map alias_shown aliases.old.items ++ alias_of (N.meaning names.now) (in_file at.now) (decl_shown decl.now) (decl_shown decl.now).form) }
{
    match decl.form {
        DeclForm::Type(spec) => add_spec(alloc, names, at, decl, spec, aliases),
        DeclForm::Value(_, _, _) => Ok(()),
        DeclForm::Func(_) => Ok(()),
    }
}

// Adds the aliases that a file declares.
fn add_aliases<N: TypeNames>(
    alloc: Global,
    names: &N,
    at: &WrittenIn<'_>,
    decls: &[TopDecl<'_>],
    aliases: &mut Vec<Alias>,
) -> Result<(), AllocError>
    ensures { OnOk result (map alias_shown aliases.new.items ≡ map alias_shown aliases.old.items ++ file_aliases (N.meaning names.now) (in_file at.now) (map decl_shown decls.now)) }
{
    for decl in decls {
        add_alias(alloc, names, at, decl, aliases)?;
    }
    Ok(())
}

/// The aliases that the package of a path declares outside functions, in order of file and number, each with what the name behind its `=`
/// denotes: the name of an alias means the alias. `outlines` has one for each file of the package in order of name, as `outlines` of
/// `go_typexpr_core::entry` makes them.
///
/// # Errors
///
/// `AllocError` where memory is wanting.
pub fn written_aliases<P: ImportedNames>(
    alloc: Global,
    path: &ImportPath,
    blocks: &Blocks,
    imported: &P,
    outlines: &[Outline<'_>],
) -> Result<Vec<Alias>, AllocError>
    requires { All IsOutline (map outline_shown outlines.now) }
    ensures aliases { IfOk result (λ xs. map alias_shown xs.items ≡ written_aliases (P.shows imported.now).shown path.now blocks.now (map outline_shown outlines.now)) }
    ensures rising { IfOk result (λ xs. DeclsRise (decls_of (map alias_shown xs.items))) }
{
    let mut aliases = Vec::new(alloc);
    for (file, outline) in outlines.iter().enumerate() {
        let names = DeclaredNames {
            path,
            blocks,
            file,
            imported,
        };
        let places = &outline.places;
        let at = WrittenIn { path, file, places };
        add_aliases(alloc, &names, &at, &outline.decls, &mut aliases)?;
    }
    Ok(aliases)
}
