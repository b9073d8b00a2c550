//! The faults of a workspace, in order.
ghost use Rattle.std.specs.Prelude.{◌≡◌, ◌++◌, IfOk, OnOk, map};
ghost use Rattle.go_graph_core.specs.Packages.{IsAssembled};
ghost use Rattle.go_snap_core.specs.Faults.{AreFaults};
ghost use Rattle.go_snap_core.specs.whole_workspace.Inputs.{AreParts};
ghost use Rattle.go_snap_core.specs.Snapshots.{contents_of};
ghost use Rattle.go_snap_core.specs.mirrors.Reports.{AddsUnassembled, part_faults, placed, text_faults};

use go_emit_core::package_core::Part;
use go_graph_core::{PackageSource, SourceFile, Workspace, assemble};
use go_names_core::local_core::Fault;
use go_path_core::text_core::Rule;
use std::alloc::{AllocError, Global};

/// A rule that is broken at a place of a workspace. Faults are in order of package, file, offset, and of the bytes of the rule's number.
#[derive(Clone, Copy)]
pub struct PlacedFault {
    /// The number of the package, in byte order of path, from 0.
    pub package: usize,
    /// The number of the file in its package, in byte order of name, from 0.
    pub file: usize,
    /// The offset in bytes from the file's start.
    pub offset: usize,
    pub rule: Rule,
}

/// Adds what is reported of a file, the package and the file by their numbers.
fn add_report(
    faults: &mut Vec<PlacedFault>,
    package: usize,
    file: usize,
    report: &[Fault],
) -> Result<(), AllocError>
    ensures { OnOk result (faults.new.items ≡ faults.old.items ++ map (placed «package» file) report.now) }
{
    for fault in report {
        faults.push(PlacedFault {
            package,
            file,
            offset: fault.offset,
            rule: fault.rule,
        })?;
    }
    Ok(())
}

/// Adds what is reported of the package of a number.
fn add_part(faults: &mut Vec<PlacedFault>, package: usize, part: &Part) -> Result<(), AllocError>
    ensures { OnOk result (faults.new.items ≡ faults.old.items ++ part_faults «package» 0 part.now.content.files) }
{
    let files = &part.content().files;
    for file in 0..files.len() {
        add_report(faults, package, file, &files[file].report)?;
    }
    Ok(())
}

/// Adds why files have no tree.
fn add_texts(
    faults: &mut Vec<PlacedFault>,
    package: usize,
    files: &[SourceFile],
) -> Result<(), AllocError>
    ensures { OnOk result (faults.new.items ≡ faults.old.items ++ text_faults «package» 0 files.now) }
{
    for file in 0..files.len() {
        if let Err(fault) = files[file].tree() {
            faults.push(PlacedFault {
                package,
                file,
                offset: fault.offset,
                rule: fault.rule,
            })?;
        }
    }
    Ok(())
}

/// Adds why the files of the package of a number do not assemble.
fn add_unassembled(
    faults: &mut Vec<PlacedFault>,
    package: usize,
    source: &PackageSource,
) -> Result<(), AllocError>
    requires { IsAssembled source.now.1 → ⊥ }
    ensures { OnOk result (AddsUnassembled «package» source.now.1 faults.old.items faults.new.items) }
{
    match assemble(source.share()?) {
        Ok(_) => unreachable!(),
        Err(fault) => faults.push(PlacedFault {
            package,
            file: fault.file,
            offset: fault.offset,
            rule: fault.rule,
        })?,
    }
    add_texts(faults, package, source.files())
}

/// The faults of a workspace whose packages have these parts, by their numbers: none where files are not assembled.
///
/// # Errors
///
/// `AllocError` where memory is wanting.
pub(crate) fn faults_of(
    alloc: Global,
    workspace: &Workspace,
    parts: &[Option<Part>],
) -> Result<Vec<PlacedFault>, AllocError>
    requires { AreParts workspace.now parts.now }
    ensures { IfOk result (λ faults. AreFaults workspace.now (contents_of parts.now) faults.items) }
{
    let packages = workspace.packages();
    let mut faults = Vec::new(alloc);
    for package in 0..packages.len() {
        match &parts[package] {
            Some(part) => add_part(&mut faults, package, part)?,
            None => add_unassembled(&mut faults, package, &packages[package])?,
        }
    }
    Ok(faults)
}
