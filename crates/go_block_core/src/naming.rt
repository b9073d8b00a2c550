//! The imports of a package, with the names that they may bind.
ghost use Rattle.std.specs.Prelude.{◌≡◌, ◌++◌, ◌<◌, IfOk, OnOk, map, length};
ghost use Rattle.go_tree_nodes.specs.Shapes.{import_of, file_of, shape_import_spec, shape_import_specs};
ghost use Rattle.go_tree_nodes.specs.Terminals.{value_of};
ghost use Rattle.go_graph_core.specs.Packages.{trees_of};
ghost use Rattle.go_block_core.specs.Blocks.{imports_of};
ghost use Rattle.go_block_core.specs.Naming.{HaveOneEach, form_named, file_named, file_specs, imported_in, named_import, own_name, package_named, specs_in, specs_named, specs_of};
ghost use Rattle.go_block_core.specs.mirrors.Shown.{spec_shown};

use crate::imports::{ImportForm, ImportNames, Imported, NamedImport};
use crate::word::refused_name;
use go_graph_core::Package;
use go_parse_reader::types::add;
use go_tree_nodes::text_core::Name;
use go_tree_nodes::{File, ImportDecl, ImportName, ImportSpec, ImportSpecs, TextLiteral};
use std::alloc::{AllocError, Global};

/// Adds the imports of a declaration.
fn add_specs<'a>(
    specs: &mut Vec<&'a ImportSpec>,
    declared: &'a ImportSpecs,
) -> Result<(), AllocError>
    ensures { OnOk result (map spec_shown specs.new.items ≡ map spec_shown specs.old.items ++ specs_in (shape_import_specs declared.now)) }
{
    match declared {
        ImportSpecs::One(spec) => add(specs, spec),
        ImportSpecs::Group(_, lines, _) => {
            for line in lines {
                add(specs, &line.spec)?;
            }
            Ok(())
        }
    }
}

/// The imports that the import declarations of a file write, in order of place: those of a group one by one. What `blocks` is handed of a
/// file has one entry for each of these, and an import's number in a file is its number in this list ("Import declarations").
///
/// # Errors
///
/// `AllocError` where memory is wanting.
pub fn import_specs<'a>(
    alloc: Global,
    imports: &'a Vec<ImportDecl>,
) -> Result<Vec<&'a ImportSpec>, AllocError>
    ensures { IfOk result (λ specs. map spec_shown specs.items ≡ specs_of (map import_of imports.now.items)) }
{
    let mut specs = Vec::new(alloc);
    for import in imports {
        add_specs(&mut specs, &import.specs)?;
    }
    Ok(specs)
}

/// The name of an import of this path that is written without one: that in the clauses of the package that it comes
/// to. A refused import has what its path ends with, if that may be a name.
fn own_name(
    alloc: Global,
    path: &TextLiteral,
    imported: &Imported,
) -> Result<Option<Name>, AllocError>
    ensures { IfOk result (λ name. name ≡ own_name (value_of path.now) imported.now) }
{
    match imported {
        Imported::Package(exports) => Ok(Some(exports.name().copy(alloc)?)),
        Imported::Refused(_) => refused_name(alloc, path),
    }
}

/// The form of an import.
fn form_of(alloc: Global, spec: &ImportSpec, imported: &Imported) -> Result<ImportForm, AllocError>
    ensures { IfOk result (λ form. form ≡ form_named (value_of spec.now.path) spec.now.name imported.now) }
{
    match &spec.name {
        ImportName::Own => Ok(ImportForm::Own(own_name(alloc, &spec.path, imported)?)),
        ImportName::Named(ident) => Ok(ImportForm::Named(ident.name.copy(alloc)?)),
        ImportName::Dot(_) => Ok(ImportForm::Dot),
    }
}

/// An import with what it comes to.
fn named_import(
    alloc: Global,
    spec: &ImportSpec,
    imported: &Imported,
) -> Result<NamedImport, AllocError>
    ensures { IfOk result (λ named. named ≡ named_import (shape_import_spec spec.now) imported.now) }
{
    let form = form_of(alloc, spec, imported)?;
    Ok(NamedImport {
        at: spec.path.span.start as usize,
        imported: imported.share()?,
        form,
    })
}

/// The imports that are written so, in order, each with what it comes to.
fn specs_named(
    alloc: Global,
    specs: &[&ImportSpec],
    imported: &[Imported],
) -> Result<Vec<NamedImport>, AllocError>
    requires { length specs.now ≡ length imported.now }
    ensures { IfOk result (λ imports. imports.items ≡ specs_named (map spec_shown specs.now) imported.now) }
{
    let mut imports = Vec::with_capacity(alloc, specs.len())?;
    for import in 0..specs.len() {
        let named = named_import(alloc, specs[import], &imported[import])?;
        add(&mut imports, named)?;
    }
    Ok(imports)
}

/// The imports of a file, each with what it comes to.
fn file_named(
    alloc: Global,
    tree: &File,
    imported: &[Imported],
) -> Result<Vec<NamedImport>, AllocError>
    requires { length (file_specs (file_of tree.now)) ≡ length imported.now }
    ensures { IfOk result (λ imports. imports.items ≡ file_named (file_of tree.now) imported.now) }
{
    let specs = import_specs(alloc, &tree.imports)?;
    specs_named(alloc, &specs, imported)
}

/// The imports of a package, each with what it comes to and the names that it may bind.
///
/// An import without a name has the name in the clauses of the package that it comes to, an import with a dot the
/// exported names of that package: "the PackageName is used in qualified identifiers to access exported
/// identifiers of the package", it "defaults to the identifier specified in the package clause of the imported
/// package" where it is left out, and for an explicit period "all the package's exported identifiers declared in
/// that package's package block will be declared in the importing source file's file block" (the Go
/// specification, "Import declarations").
///
/// `imports` has for each file of the package, in order of name, and for each import of the file, in order of place,
/// what it comes to.
///
/// # Errors
///
/// `AllocError` for want of memory.
pub fn import_names(
    alloc: Global,
    package: &Package,
    imports: &[Vec<Imported>],
) -> Result<ImportNames, AllocError>
    requires { HaveOneEach (trees_of «package».now.1) (map imported_in imports.now) }
    ensures { IfOk result (λ names. imports_of names ≡ package_named (trees_of «package».now.1) (map imported_in imports.now)) }
{
    let files = package.files();
    let mut named = Vec::with_capacity(alloc, files.len())?;
    for file in 0..files.len() {
        let of_file = file_named(alloc, package.tree(file), imports[file].as_slice())?;
        add(&mut named, of_file)?;
    }
    Ok(ImportNames::new(named))
}
