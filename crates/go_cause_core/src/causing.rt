//! The causes of the faults of a snapshot.
ghost use Rattle.std.specs.Prelude.{IfOk};
ghost use Rattle.go_cause_core.specs.Causes.{AreCauses};

use crate::cause::{Cause, Causes};
use crate::direct::direct_causes;
use crate::found::{Blame, Found};
use crate::look::{Look, has_faults, text_fault};
use crate::resolving::candidates;
use crate::rooting::roots;
use crate::tops::see_file;
use go_block_core::graph_core::Workspace;
use go_denote_core::text_core::Rule;
use go_package_core::package_part::{Part, PartFile};
use go_snap_core::{PlacedFault, Snapshot};
use go_term_core::decl_core::{Places, outline};
use std::alloc::{AllocError, Global};

// A file of a part, as it is looked at.
fn look_at<'a>(
    workspace: &'a Workspace,
    faults: &'a [PlacedFault],
    package: usize,
    part: &'a Part,
    file: usize,
    made: &'a PartFile,
    places: &'a Places,
) -> Look<'a> {
    Look {
        workspace,
        faults,
        package,
        path: part.path().as_str(),
        file,
        answers: made.answers.answers.as_slice(),
        blocks: &part.content().blocks,
        places,
        is_faulty: has_faults(faults, package, file),
    }
}

// Goes through the files of the part of a package.
fn see_part(
    alloc: Global,
    workspace: &Workspace,
    faults: &[PlacedFault],
    found: &mut Found,
    package: usize,
    part: &Part,
) -> Result<(), AllocError> {
    let source = part.input().package();
    for file in 0..source.files().len() {
        let tree = source.tree(file);
        if let Some(made) = part.content().files.get(file) {
            let outlined = outline(alloc, tree)?;
            let look = look_at(
                workspace,
                faults,
                package,
                part,
                file,
                made,
                &outlined.places,
            );
            found.begin_file(alloc);
            see_file(&look, found, tree);
        }
    }
    Ok(())
}

// Goes through the files of all parts.
fn see_parts(
    alloc: Global,
    snapshot: &Snapshot,
    faults: &[PlacedFault],
    found: &mut Found,
) -> Result<(), AllocError> {
    let parts = snapshot.parts();
    for package in 0..parts.len() {
        if let Some(part) = &parts[package] {
            see_part(alloc, snapshot.sources(), faults, found, package, part)?;
        }
    }
    Ok(())
}

// A file without a tree is no file of a package by what its text breaks.
fn see_texts(faults: &[PlacedFault], found: &mut Found) {
    for number in 0..faults.len() {
        let fault = &faults[number];
        if matches!(fault.rule, Rule::K4) {
            if let Some(cause) = text_fault(faults, fault.package, fault.file) {
                found.set(Some(number), Some(Blame::Fault(cause)));
            }
        }
    }
}

// What is found in the trees.
fn found_in(
    alloc: Global,
    snapshot: &Snapshot,
    faults: &[PlacedFault],
) -> Result<Found, AllocError> {
    let mut found = Found::new(alloc, faults)?;
    if !faults.is_empty() {
        see_texts(faults, &mut found);
        see_parts(alloc, snapshot, faults, &mut found)?;
    }
    if found.is_short {
        return Err(AllocError);
    }
    Ok(found)
}

// Where faults stand that may follow from these.
fn standing(
    alloc: Global,
    faults: &[PlacedFault],
    candidates: &[Option<usize>],
) -> Result<Vec<Cause>, AllocError>
    ensures { IfOk result (λ causes. AreCauses faults.now causes.items) }
{
    let direct = direct_causes(alloc, faults, candidates)?;
    let causes = roots(alloc, &direct)?;
    Ok(causes)
}

/// Of each fault of a snapshot, in the order of `Snapshot::faults`, whether it follows from another fault of the snapshot, and from which one that follows
/// from none. The time is linear in the sources and in the faults, but for logarithms.
///
/// # Errors
///
/// `AllocError` where memory is wanting.
pub fn causes(alloc: Global, snapshot: &Snapshot) -> Result<Causes, AllocError>
    ensures { IfOk result (λ causes. AreCauses snapshot.now.faults causes) }
{
    let faults = snapshot.faults();
    let found = found_in(alloc, snapshot, faults)?;
    let packages = snapshot.sources().packages().len();
    let candidates = candidates(alloc, packages, faults, &found)?;
    let list = standing(alloc, faults, &candidates)?;
    Ok(Causes::of(list))
}
