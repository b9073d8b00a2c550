//! The faults of a piece of a program as they are reported.
ghost use Rattle.std.specs.Prelude.{◌≡◌, ◌↔◌, IfOk, AllPairs, Contains, filter};
ghost use Rattle.std.specs.List.Sorted.{IsSorted, IsPermutation};
ghost use Rattle.go_report_core.specs.Faults.{fault_order, ComesBefore, IsSaid};
ghost use Rattle.go_report_core.specs.mirrors.Settling.{said_of, is_among, is_new, IsUnsaid};

use go_expr_core::Use;
use go_expr_core::denote_core::Outcome;
use go_expr_core::local_core::Fault;
use std::alloc::{AllocError, Global};
use std::cmp::Ordering;

/// The order of faults: by place, then by the bytes of the rule's number as it is printed.
pub fn fault_order(one: Fault, other: Fault) -> Ordering
    ensures { result ≡ fault_order one other }
{
    one.offset
        .cmp(&other.offset)
        .then(one.rule.number().cmp(other.rule.number()))
}

// The faults that outcomes say, in their order.
fn said_by<D, P>(alloc: Global, uses: &[Use<D, P>]) -> Result<Vec<Fault>, AllocError>
    ensures { IfOk result (λ said. said.items ≡ said_of uses.now) }
{
    let mut said = Vec::new(alloc);
    for used in uses {
        if let Outcome::Refused(rule) = &used.outcome {
            said.push(Fault {
                offset: used.offset,
                rule: *rule,
            })?;
        }
    }
    Ok(said)
}

// Puts faults into their order.
fn sort(faults: &mut Vec<Fault>)
    ensures moved { IsPermutation faults.old.items faults.new.items }
    ensures sorted { IsSorted fault_order faults.new.items }
{
    faults.sort_unstable_by(|one, other| fault_order(*one, *other));
}

// Whether a fault is among those of a list in order.
fn is_among(sorted: &[Fault], fault: Fault) -> bool
    requires { IsSorted fault_order sorted.now }
    ensures { result ≡ is_among sorted.now fault }
{
    sorted
        .binary_search_by(|other| fault_order(*other, fault))
        .is_ok()
}

// Those faults that are not among those of a list in order.
fn new_faults(alloc: Global, sorted: &[Fault], faults: &[Fault]) -> Result<Vec<Fault>, AllocError>
    requires { IsSorted fault_order sorted.now }
    ensures { IfOk result (λ kept. kept.items ≡ filter (is_new sorted.now) faults.now) }
{
    let mut kept = Vec::new(alloc);
    for fault in faults {
        if !is_among(sorted, *fault) {
            kept.push(*fault)?;
        }
    }
    Ok(kept)
}

// Those faults that no outcome says, in their order.
fn unsaid<D, P>(
    alloc: Global,
    uses: &[Use<D, P>],
    faults: &[Fault],
) -> Result<Vec<Fault>, AllocError>
    ensures { IfOk result (λ kept. (f : Fault) → Contains kept.items f ↔ IsUnsaid uses.now faults.now f) }
{
    let mut said = said_by(alloc, uses)?;
    sort(&mut said);
    new_faults(alloc, said.as_slice(), faults)
}

/// The faults of a piece of a program as they are reported: by place, then by the bytes of the rule's number; each pair of place and
/// rule once, and none that the outcome of an occurrence at that place says. Uses and faults may come in any order. Time grows with
/// the number n of both as n log n.
///
/// # Errors
///
/// [`AllocError`] where memory runs out.
pub fn settle_faults<D, P>(
    alloc: Global,
    uses: &[Use<D, P>],
    faults: &[Fault],
) -> Result<Vec<Fault>, AllocError>
    ensures ordered { IfOk result (λ settled. AllPairs ComesBefore settled.items) }
    ensures kept { IfOk result (λ settled. (f : Fault) → Contains faults.now f → ¬ IsSaid uses.now f → Contains settled.items f) }
    ensures found { IfOk result (λ settled. (f : Fault) → Contains settled.items f → Contains faults.now f) }
    ensures unsaid { IfOk result (λ settled. (f : Fault) → Contains settled.items f → ¬ IsSaid uses.now f) }
{
    let mut settled = unsaid(alloc, uses, faults)?;
    sort(&mut settled);
    settled.dedup_by(|one, other| fault_order(*one, *other).is_eq());
    Ok(settled)
}
