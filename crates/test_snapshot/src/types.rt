//! The types of the packages of a snapshot.
use go_denote_core::text_core::add;
use go_snap_core::PlacedFault;
use go_table_core::{PackageTypes, TypeTable};
use std::alloc::AllocError;
use test_probe::show::Named;

/// The types of a workspace, with the names of its packages and its faults.
#[derive(Drop)]
pub struct Typed<'a> {
    pub named: &'a [Named],
    pub faults: &'a [PlacedFault],
    /// The types of all packages.
    pub table: &'a TypeTable,
    /// The types of each assembled package, in order of path.
    pub packages: &'a [&'a PackageTypes],
}

/// The types of the assembled package of a path.
pub fn find_package<'a>(typed: &Typed<'a>, path: &str) -> Option<&'a PackageTypes> {
    for package in typed.packages {
        if package.path().as_str() == path {
            return Some(package);
        }
    }
    None
}

/// Adds the types of a package.
///
/// # Errors
///
/// `AllocError` where memory is wanting.
pub fn add_types<'a>(
    table: &mut TypeTable,
    packages: &mut Vec<&'a PackageTypes>,
    types: &'a PackageTypes,
) -> Result<(), AllocError> {
    if !table.has_package(types.path()) {
        table.add(types.share()?)?;
    }
    add(packages, types)
}
