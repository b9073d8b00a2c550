//! The faults in the packages of a module.
ghost use Rattle.std.specs.Prelude.{◌≡◌, ◌<◌, IfOk, OnOk, Some, length, slice_get};
ghost use Rattle.go_session_core.specs.queries.Built.{faults_inside, named_of};
ghost use Rattle.go_session_core.specs.queries.mirrors.Adding.{with_some};

use crate::overlay::lies_inside;
use go_board_core::submit_core::KeptSnapshot;
use go_complete_core::snap_core::PlacedFault;
use go_path_core::text_core::{Name, Rule, add};
use go_path_core::{ImportPath, Module};
use std::alloc::{AllocError, Global};

/// A rule that is broken at a place of a module.
#[derive(Drop)]
pub struct Fault {
    /// The path of the package.
    pub path: ImportPath,
    /// The name of the file.
    pub file: Name,
    /// The offset in bytes from the file's start.
    pub offset: usize,
    pub rule: Rule,
}

// The fault of a number.
fn fault_of(snapshot: &KeptSnapshot, number: usize) -> &PlacedFault
    requires { number < length snapshot.now.faults }
    ensures { slice_get snapshot.now.faults number ≡ Some result.now }
{
    match snapshot.fault(number) {
        Some(fault) => fault,
        None => unreachable!(),
    }
}

// A fault with its names, if it lies in the module.
fn named(
    alloc: Global,
    own: &Module,
    snapshot: &KeptSnapshot,
    fault: &PlacedFault,
) -> Result<Option<Fault>, AllocError>
    ensures { IfOk result (λ o. o ≡ named_of own.now (slice_get snapshot.now.sources fault.now.«package») fault.now) }
{
    let Some(package) = snapshot.package(fault.package) else {
        return Ok(None);
    };
    if !lies_inside(own, package.path()) {
        return Ok(None);
    }
    let Some(file) = package.files().get(fault.file) else {
        return Ok(None);
    };
    let path = package.path().share()?;
    let name = Name::from_text(alloc, file.name())?;
    Ok(Some(Fault {
        path,
        file: name,
        offset: fault.offset,
        rule: fault.rule,
    }))
}

// Adds a fault, if there is one.
fn keep(faults: &mut Vec<Fault>, fault: Option<Fault>) -> Result<(), AllocError>
    ensures { OnOk result (faults.new.items ≡ with_some faults.old.items fault) }
{
    match fault {
        Some(fault) => {
            add(faults, fault)?;
            Ok(())
        }
        None => Ok(()),
    }
}

/// The faults in the packages that lie inside a module, among those of a snapshot, in the same order.
///
/// # Errors
///
/// `AllocError` where memory is wanting.
pub(crate) fn faults_in(
    alloc: Global,
    own: &Module,
    snapshot: &KeptSnapshot,
) -> Result<Vec<Fault>, AllocError>
    ensures { IfOk result (λ found. found.items ≡ faults_inside own.now snapshot.now.sources snapshot.now.faults) }
{
    let mut found = Vec::new(alloc);
    for number in 0..snapshot.fault_count() {
        let one = named(alloc, own, snapshot, fault_of(snapshot, number))?;
        keep(&mut found, one)?;
    }
    Ok(found)
}
