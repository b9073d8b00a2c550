//! Lists of a snapshot, once more.
ghost use Rattle.std.specs.Prelude.{◌≡◌, IfOk, IsTrue, Some, slice_get};
ghost use Rattle.go_graph_core.specs.collections_core.PersistentListStaying.{StaysWhere};

use go_graph_core::PackageSource;
use go_graph_core::collections_core::Pieces;
use go_package_core::package_part::Part;
use go_path_core::text_core::add;
use go_snap_core::PlacedFault;
use std::alloc::{AllocError, Global};

/// Packages once more, each a handle.
///
/// # Errors
///
/// `AllocError` where memory is wanting.
pub(crate) fn shared_packages(
    alloc: Global,
    packages: &[PackageSource],
) -> Result<Vec<PackageSource>, AllocError>
    ensures { IfOk result (λ shared. shared.items ≡ packages.now) }
{
    let mut shared = Vec::with_capacity(alloc, packages.len())?;
    for package in packages {
        add(&mut shared, package.share()?)?;
    }
    Ok(shared)
}

// A part once more, where there is one.
fn shared_part(part: &Option<Part>) -> Result<Option<Part>, AllocError>
    ensures { IfOk result (λ shared. shared ≡ part.now) }
{
    match part {
        Some(part) => Ok(Some(part.share()?)),
        None => Ok(None),
    }
}

/// Parts once more, each a handle.
///
/// # Errors
///
/// `AllocError` where memory is wanting.
pub(crate) fn shared_parts(
    alloc: Global,
    parts: &[Option<Part>],
) -> Result<Vec<Option<Part>>, AllocError>
    ensures { IfOk result (λ shared. shared.items ≡ parts.now) }
{
    let mut shared = Vec::with_capacity(alloc, parts.len())?;
    for part in parts {
        add(&mut shared, shared_part(part)?)?;
    }
    Ok(shared)
}

// Whether two faults are the same.
fn is_same(fault: &PlacedFault, other: &PlacedFault) -> bool
    ensures { IsTrue result → fault.now ≡ other.now }
{
    fault.package == other.package
        && fault.file == other.file
        && fault.offset == other.offset
        && fault.rule == other.rule
}

// Whether an earlier list has this fault at a place.
fn stays(earlier: &Pieces<PlacedFault>, place: usize, fault: &PlacedFault) -> bool
    ensures { IsTrue result → slice_get earlier.now place ≡ Some fault.now }
{
    match earlier.get(place) {
        Some(other) => is_same(other, fault),
        None => false,
    }
}

/// Which faults are those of the same places in an earlier list.
///
/// # Errors
///
/// `AllocError` where memory is wanting.
pub(crate) fn staying_faults(
    alloc: Global,
    earlier: &Pieces<PlacedFault>,
    faults: &[PlacedFault],
) -> Result<Vec<bool>, AllocError>
    ensures { IfOk result (λ same. StaysWhere earlier.now faults.now same.items) }
{
    let mut same = Vec::with_capacity(alloc, faults.len())?;
    for fault in faults {
        let mark = stays(earlier, same.len(), fault);
        add(&mut same, mark)?;
    }
    Ok(same)
}
