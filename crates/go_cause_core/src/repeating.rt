//! Names that are refused again and again.
ghost use Rattle.std.specs.Prelude.{◌≡◌, IfOk, IfSome};
ghost use Rattle.go_cause_core.specs.Names.{AreRepeated, IsAgain, repeats};

use crate::direct::{candidate_of, fault_of};
use crate::pairs::is_n1;
use go_block_core::graph_core::PackageSource;
use go_denote_core::text_core::{is_digit, is_letter};
use go_snap_core::{PlacedFault, Snapshot};
use std::alloc::{AllocError, Global};
use std::collections::BTreeMap;

// The identifier at an offset of a text.
fn identifier_at(text: &str, offset: usize) -> Option<&str> {
    let rest = text.get(offset..)?;
    for (at, letter) in rest.char_indices() {
        if !is_letter(letter) && !is_digit(letter) {
            return rest.get(..at);
        }
    }
    Some(rest)
}

// The identifier where a fault stands.
fn spelled_at<'a>(packages: &'a [PackageSource], fault: &PlacedFault) -> Option<&'a str> {
    let package = packages.get(fault.package)?;
    let file = package.files().get(fault.file)?;
    identifier_at(file.text(), fault.offset)
}

// The first fault of a name, where that is another; else the fault of the number is the first.
fn first_of<'a>(
    firsts: &mut BTreeMap<&'a str, usize>,
    name: &'a str,
    number: usize,
) -> Result<Option<usize>, AllocError> {
    if let Some(first) = firsts.get(&name) {
        return Ok(Some(*first));
    }
    firsts.insert(name, number)?;
    Ok(None)
}

// Of each fault of a name that is not declared the first of this name in its package.
fn firsts_of(
    alloc: Global,
    packages: &[PackageSource],
    faults: &[PlacedFault],
) -> Result<Vec<Option<usize>>, AllocError> {
    let mut list = Vec::new(alloc);
    let mut firsts = BTreeMap::new(alloc);
    let mut last = 0;
    for number in 0..faults.len() {
        let fault = &faults[number];
        if fault.package != last {
            firsts = BTreeMap::new(alloc);
            last = fault.package;
        }
        let mut first = None;
        if is_n1(fault.rule) {
            if let Some(name) = spelled_at(packages, fault) {
                first = first_of(&mut firsts, name, number)?;
            }
        }
        list.push(first)?;
    }
    Ok(list)
}

// Whether both faults are there, of names that are not declared, in one package.
fn repeats(first: Option<PlacedFault>, again: Option<PlacedFault>) -> bool
    ensures { result ≡ repeats first again }
{
    match first {
        None => false,
        Some(first) => match again {
            None => false,
            Some(again) => {
                is_n1(first.rule) && is_n1(again.rule) && first.package == again.package
            }
        },
    }
}

// The candidate, where it is an earlier fault of a name that is not declared in the same package.
fn judged(faults: &[PlacedFault], number: usize, candidate: Option<usize>) -> Option<usize>
    ensures { IfSome result (λ first. IsAgain faults.now number first) }
{
    match candidate {
        None => None,
        Some(first) => {
            if first < number && repeats(fault_of(faults, first), fault_of(faults, number)) {
                Some(first)
            } else {
                None
            }
        }
    }
}

// Of each fault its candidate, where that is an earlier one of the same kind.
fn again_of(
    alloc: Global,
    faults: &[PlacedFault],
    firsts: &[Option<usize>],
) -> Result<Vec<Option<usize>>, AllocError>
    ensures { IfOk result (λ again. AreRepeated faults.now again.items) }
{
    let mut again = Vec::new(alloc);
    for number in 0..faults.len() {
        again.push(judged(faults, number, candidate_of(firsts, number)))?;
    }
    Ok(again)
}

/// Of each fault N1 of a snapshot, in the order of `Snapshot::faults`, the number of the first N1 of the same name in its package, where that is another
/// fault; none of any other fault. All of one name in one package can be told once, with the other places. Each is a root of its own nevertheless.
/// The time is linear in the faults.
///
/// # Errors
///
/// `AllocError` where memory is wanting.
pub fn repeated_names(alloc: Global, snapshot: &Snapshot) -> Result<Vec<Option<usize>>, AllocError>
    ensures { IfOk result (λ again. AreRepeated snapshot.now.faults again.items) }
{
    let faults = snapshot.faults();
    let firsts = firsts_of(alloc, snapshot.sources().packages(), faults)?;
    let again = again_of(alloc, faults, &firsts)?;
    Ok(again)
}
