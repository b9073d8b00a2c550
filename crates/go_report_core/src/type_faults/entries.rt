//! The faults of type declarations.
ghost use Rattle.std.specs.Prelude.{◌≡◌, ◌++◌, IfOk, OnOk, map, slice_get};
ghost use Rattle.go_summary_core.specs.table_core.Shown.{entry_shown};
ghost use Rattle.go_summary_core.specs.typexpr_core.EntryEntries.{package_meanings};
ghost use Rattle.go_summary_core.specs.typexpr_core.EntryMeanings.{raw};
ghost use Rattle.go_summary_core.specs.typexpr_core.EntryOutlines.{outline_shown};
ghost use Rattle.go_report_core.specs.type_faults.TypeFaults.{alias_faults, entries_faults, entry_faults, faults_of_types, type_loop_fault, loops_faults, met_in};

use crate::type_faults::places::{PackageFault, add_fault, add_faults};
use crate::type_faults::receivers::add_receivers;
use go_block_core::Blocks;
use go_path_core::ImportPath;
use go_path_core::text_core::Rule;
use go_select_core::embed_core::{check_hidden_fields, check_methods, check_struct};
use go_select_core::type_core::TypeFault;
use go_summary_core::table_core::{FieldTable, TypeEntry, TypeTable};
use go_summary_core::typexpr_core::ImportedNames;
use go_term_core::decl_core::{DeclRef, Outline};
use go_term_core::{MemberPlace, TypeTerm};
use std::alloc::{AllocError, Global};

/// The types of a package as they are written, beside its files. All is lent.
#[derive(Clone, Copy)]
pub struct WrittenTypes<'a, 'o> {
    /// The path of the package.
    pub path: &'a ImportPath,
    /// What its package block and its file blocks bind.
    pub blocks: &'a Blocks,
    /// Its files in order of name.
    pub outlines: &'a [Outline<'o>],
    /// Its type declarations, in order of file and place.
    pub entries: &'a [TypeEntry],
    /// Those of them that reach themselves outside pointers and interfaces.
    pub loops: &'a [TypeFault],
    /// The aliases that reach themselves so.
    pub looped: &'a [DeclRef],
}

// The fields that the methods of a defined type may meet.
fn met_fields<'a>(
    alloc: Global,
    types: &'a TypeTable,
    entry: &'a TypeEntry,
) -> Result<FieldTable<'a>, AllocError>
    ensures { IfOk result (λ fields. fields ≡ met_in types.now (entry_shown entry.now)) }
{
    match types.locate(&entry.key) {
        None => FieldTable::of(alloc, &entry.term),
        Some(located) => match located.defined.underlying() {
            TypeTerm::NoType => FieldTable::of(alloc, &entry.term),
            _ => located.defined.field_table(alloc),
        },
    }
}

// Adds the faults of a type declaration, of the methods of its type, and of the fields behind them.
fn add_entry(
    alloc: Global,
    types: &TypeTable,
    path: &ImportPath,
    outlines: &[Outline<'_>],
    entry: &TypeEntry,
    faults: &mut Vec<PackageFault>,
) -> Result<(), AllocError>
    ensures { OnOk result (faults.new.items ≡ faults.old.items ++ entry_faults types.now path.now (map outline_shown outlines.now) (entry_shown entry.now)) }
{
    let found = check_struct(alloc, types, &entry.term)?;
    add_faults(faults, outlines, &found)?;
    let fields = met_fields(alloc, types, entry)?;
    let found = check_methods(alloc, types, path, &fields, &entry.methods)?;
    add_faults(faults, outlines, &found)?;
    let found = check_hidden_fields(alloc, path, &fields, &entry.methods)?;
    add_faults(faults, outlines, &found)
}

// Adds the faults of type declarations.
fn add_entries(
    alloc: Global,
    types: &TypeTable,
    path: &ImportPath,
    outlines: &[Outline<'_>],
    entries: &[TypeEntry],
    faults: &mut Vec<PackageFault>,
) -> Result<(), AllocError>
    ensures { OnOk result (faults.new.items ≡ faults.old.items ++ entries_faults types.now path.now (map outline_shown outlines.now) (map entry_shown entries.now)) }
{
    for entry in entries {
        add_entry(alloc, types, path, outlines, entry, faults)?;
    }
    Ok(())
}

// Adds the fault of a type that reaches itself.
fn add_loop(
    outlines: &[Outline<'_>],
    entries: &[TypeEntry],
    fault: TypeFault,
    faults: &mut Vec<PackageFault>,
) -> Result<(), AllocError>
    ensures { OnOk result (faults.new.items ≡ faults.old.items ++ type_loop_fault (map outline_shown outlines.now) fault (slice_get (map entry_shown entries.now) fault.entry)) }
{
    match entries.get(fault.entry) {
        None => Ok(()),
        Some(entry) => {
            let place = MemberPlace::Declared(entry.key.decl);
            add_fault(faults, outlines, place, fault.rule)
        }
    }
}

// Adds the faults of types that reach themselves.
fn add_loops(
    outlines: &[Outline<'_>],
    entries: &[TypeEntry],
    loops: &[TypeFault],
    faults: &mut Vec<PackageFault>,
) -> Result<(), AllocError>
    ensures { OnOk result (faults.new.items ≡ faults.old.items ++ loops_faults (map outline_shown outlines.now) (map entry_shown entries.now) loops.now) }
{
    for fault in loops {
        add_loop(outlines, entries, *fault, faults)?;
    }
    Ok(())
}

// Adds the faults of aliases that reach themselves.
fn add_looped(
    outlines: &[Outline<'_>],
    looped: &[DeclRef],
    faults: &mut Vec<PackageFault>,
) -> Result<(), AllocError>
    ensures { OnOk result (faults.new.items ≡ faults.old.items ++ alias_faults (map outline_shown outlines.now) looped.now) }
{
    for alias in looped {
        add_fault(faults, outlines, MemberPlace::Declared(*alias), Rule::Y1)?;
    }
    Ok(())
}

/// The faults of the types that a package declares, where `types` has them and those of the packages that it reaches, and `imported` says what
/// other packages show and what declarations of types mean: of types and aliases that reach themselves (Y1, at the name that is declared), of
/// fields, methods of interface types and methods that repeat a name of their type or stand behind a member of it (B5), of embedded fields that
/// may not be embedded (Y2), and of receivers (B6, at the first byte of the base's name). A field of another declaration may stand behind
/// methods of several types: then it is listed several times.
///
/// # Errors
///
/// `AllocError` where memory is wanting.
pub fn type_faults<P: ImportedNames>(
    alloc: Global,
    types: &TypeTable,
    imported: &P,
    written: &WrittenTypes<'_, '_>,
) -> Result<Vec<PackageFault>, AllocError>
    ensures { IfOk result (λ faults. faults.items ≡ faults_of_types types.now (package_meanings (raw (P.shows imported.now)) written.now.path.now written.now.blocks.now) (package_meanings (P.shows imported.now) written.now.path.now written.now.blocks.now) written.now.path.now (map outline_shown written.now.outlines.now) (map entry_shown written.now.entries.now) written.now.looped.now written.now.loops.now) }
{
    let mut faults = Vec::new(alloc);
    add_loops(
        written.outlines,
        written.entries,
        written.loops,
        &mut faults,
    )?;
    add_looped(written.outlines, written.looped, &mut faults)?;
    add_entries(
        alloc,
        types,
        written.path,
        written.outlines,
        written.entries,
        &mut faults,
    )?;
    add_receivers(
        alloc,
        types,
        written.path,
        written.blocks,
        imported,
        written.outlines,
        &mut faults,
    )?;
    Ok(faults)
}
