//! The faults of receivers.
ghost use Rattle.std.specs.Prelude.{◌≡◌, ◌++◌, false, IfErr, map, OnOk, true};
ghost use Rattle.go_term_core.specs.Shapes.{shape};
ghost use Rattle.go_term_core.specs.decl_core.Shown.{decl_shown};
ghost use Rattle.go_tree_nodes.specs.Shapes.{func_of};
ghost use Rattle.go_summary_core.specs.typexpr_core.EntryEntries.{package_meanings};
ghost use Rattle.go_summary_core.specs.typexpr_core.EntryMeanings.{raw};
ghost use Rattle.go_summary_core.specs.typexpr_core.EntryOutlines.{outline_shown};
ghost use Rattle.go_report_core.specs.type_faults.TypeFaults.{base_fault, file_receivers, form_fault, is_base, received_fault, receivers_faults, type_base_fault};

use crate::type_faults::places::PackageFault;
use go_block_core::Blocks;
use go_path_core::ImportPath;
use go_path_core::text_core::Rule;
use go_select_core::embed_core::check_base;
use go_summary_core::table_core::TypeTable;
use go_summary_core::typexpr_core::{DeclaredNames, FileNames, ImportedNames, TypeNames};
use go_term_core::decl_core::{DeclForm, Outline, TopDecl};
use go_term_core::{TypeTerm, is_no_type};
use go_tree_nodes::{FuncDecl, TypeName, type_name_start};
use std::alloc::{AllocError, Global};

// A file of a package whose receivers are checked, and what is known of its names. All is lent.
#[derive(Drop)]
struct ReceiversAt<'a, D, N> {
    types: &'a TypeTable,
    path: &'a ImportPath,
    file: usize,
    // What names denote, where each means its declaration.
    declared: &'a D,
    // What they mean.
    names: &'a N,
}

// Whether the type that a receiver's base means may be one. A base that means no type may not: an alias without a target, for one.
fn check_type(types: &TypeTable, path: &ImportPath, term: &TypeTerm) -> Result<(), Rule>
    ensures ok { OnOk result (is_base types.now path.now (shape term.now) ≡ true) }
    ensures err { IfErr result (λ rule. (rule ≡ Rule.B6) × (is_base types.now path.now (shape term.now) ≡ false)) }
{
    if is_no_type(term) {
        Err(Rule::B6)
    } else {
        check_base(types, path, term)
    }
}

// Adds the fault of a receiver's base by the type that it means, at an offset of a file, if it has one.
fn add_type_base(
    types: &TypeTable,
    path: &ImportPath,
    file: usize,
    offset: usize,
    term: &TypeTerm,
    faults: &mut Vec<PackageFault>,
) -> Result<(), AllocError>
    ensures { OnOk result (faults.new.items ≡ faults.old.items ++ type_base_fault types.now path.now file offset (shape term.now)) }
{
    match check_type(types, path, term) {
        Ok(()) => Ok(()),
        Err(rule) => {
            faults.push(PackageFault { file, offset, rule })?;
            Ok(())
        }
    }
}

// Adds the fault of a receiver's base in a file, if it has one. A name that is refused has its own where it stands.
fn add_base<D: TypeNames, N: TypeNames>(
    alloc: Global,
    at: &ReceiversAt<'_, D, N>,
    base: &TypeName,
    faults: &mut Vec<PackageFault>,
) -> Result<(), AllocError>
    ensures { OnOk result (faults.new.items ≡ faults.old.items ++ base_fault at.now.types.now (D.meaning at.now.declared.now) (N.meaning at.now.names.now) at.now.path.now at.now.file base.now) }
{
    let declared = at.declared.named(alloc, base)?;
    if is_no_type(&declared) {
        return Ok(());
    }
    let term = at.names.named(alloc, base)?;
    add_type_base(
        at.types,
        at.path,
        at.file,
        type_name_start(base),
        &term,
        faults,
    )
}

// Adds the fault of a function's receiver, if it has a receiver and that has a fault.
fn add_received<D: TypeNames, N: TypeNames>(
    alloc: Global,
    at: &ReceiversAt<'_, D, N>,
    func: &FuncDecl,
    faults: &mut Vec<PackageFault>,
) -> Result<(), AllocError>
    ensures { OnOk result (faults.new.items ≡ faults.old.items ++ received_fault at.now.types.now (D.meaning at.now.declared.now) (N.meaning at.now.names.now) at.now.path.now at.now.file (func_of func.now).receiver) }
{
    match &func.receiver {
        None => Ok(()),
        Some(receiver) => add_base(alloc, at, &receiver.base, faults),
    }
}

// Adds the faults of the receivers of a file.
fn add_file<D: TypeNames, N: TypeNames>(
    alloc: Global,
    at: &ReceiversAt<'_, D, N>,
    decls: &[TopDecl<'_>],
    faults: &mut Vec<PackageFault>,
) -> Result<(), AllocError>
    ensures { OnOk result (faults.new.items ≡ faults.old.items ++ file_receivers at.now.types.now (D.meaning at.now.declared.now) (N.meaning at.now.names.now) at.now.path.now at.now.file (map decl_shown decls.now)) }
{
    for decl in decls {
        add_form(alloc, at, decl, faults)?;
    }
    Ok(())
}

// Adds the fault of what a declaration declares, where that is a method whose receiver has one.
fn add_form<D: TypeNames, N: TypeNames>(
    alloc: Global,
    at: &ReceiversAt<'_, D, N>,
    decl: &TopDecl<'_>,
    faults: &mut Vec<PackageFault>,
) -> Result<(), AllocError>
    ensures { OnOk result (faults.new.items ≡ faults.old.items ++ form_fault at.now.types.now (D.meaning at.now.declared.now) (N.meaning at.now.names.now) at.now.path.now at.now.file (decl_shown decl.now).form) }
{
    match decl.form {
        DeclForm::Func(func) => add_received(alloc, at, func, faults),
        DeclForm::Value(_, _, _) => Ok(()),
        DeclForm::Type(_) => Ok(()),
    }
}

/// Adds the faults of the receivers of a package (B6), in order of file and place: of those whose base's name is not refused, and means no
/// defined type of the package that has neither a pointer type nor an interface type behind it.
pub(crate) fn add_receivers<P: ImportedNames>(
    alloc: Global,
    types: &TypeTable,
    path: &ImportPath,
    blocks: &Blocks,
    imported: &P,
    outlines: &[Outline<'_>],
    faults: &mut Vec<PackageFault>,
) -> Result<(), AllocError>
    ensures { OnOk result (faults.new.items ≡ faults.old.items ++ receivers_faults types.now (package_meanings (raw (P.shows imported.now)) path.now blocks.now) (package_meanings (P.shows imported.now) path.now blocks.now) path.now (map outline_shown outlines.now)) }
{
    for (file, outline) in outlines.iter().enumerate() {
        let declared = DeclaredNames {
            path,
            blocks,
            file,
            imported,
        };
        let names = FileNames {
            path,
            blocks,
            file,
            imported,
        };
        let at = ReceiversAt {
            types,
            path,
            file,
            declared: &declared,
            names: &names,
        };
        add_file(alloc, &at, &outline.decls, faults)?;
    }
    Ok(())
}
