//! Which faults are told.
ghost use Rattle.std.specs.Prelude.{◌≡◌, ◌++◌, IfOk, OnOk};
ghost use Rattle.govisd_folders.specs.Selecting.{follows, follows_by, is_shown, joined_by, joined_cause, root_elsewhere, root_of, shown_in, told_by, told_if, told_in};

use go_cause_core::Cause;
use go_diagnostic_core::snap_core::PlacedFault;
use go_graph_core::Workspace;
use go_path_core::text_core::Rule;
use govisd_disk::{Scope, has_fault};
use std::alloc::{AllocError, Global};

/// A fault, with the one that it follows from, if it follows from one; a name that is not declared, at another place than the first of its package, with
/// the fault there.
#[derive(Clone, Copy)]
pub(crate) struct Told {
    pub(crate) fault: PlacedFault,
    pub(crate) root: Option<PlacedFault>,
}

// Whether a fault of a rule follows from another: a name that is not declared follows from nothing.
fn follows_by(rule: Rule, has_root: bool) -> bool
    ensures { result ≡ follows_by rule has_root }
{
    match rule {
        Rule::N1 => false,
        _ => has_root,
    }
}

/// Whether a fault follows from another one.
pub(crate) fn follows(told: Told) -> bool
    ensures { result ≡ follows told }
{
    follows_by(told.fault.rule, told.root.is_some())
}

// Where a fault stands, where a name that is refused again stands with the first fault of this name.
fn joined_cause(cause: Cause, again: Option<usize>) -> Cause
    ensures { result ≡ joined_cause cause again }
{
    match cause {
        Cause::Root => match again {
            Some(first) => Cause::Follows { root: first },
            None => Cause::Root,
        },
        Cause::Follows { root } => Cause::Follows { root },
    }
}

/// Of each fault where it stands, where a name that is refused again stands with the first fault of this name.
///
/// # Errors
///
/// `AllocError` for want of memory.
pub(crate) fn joined_by(
    alloc: Global,
    causes: &[Cause],
    repeated: &[Option<usize>],
) -> Result<Vec<Cause>, AllocError>
    ensures { IfOk result (λ joined. joined.items ≡ joined_by causes.now repeated.now) }
{
    let mut joined = Vec::new(alloc);
    for (cause, again) in causes.iter().zip(repeated) {
        let one = joined_cause(*cause, *again);
        joined.push(one)?;
    }
    Ok(joined)
}

// The fault that another follows from, by where that stands among the causes.
fn root_of(faults: &[PlacedFault], cause: Cause) -> Option<PlacedFault>
    ensures { result ≡ root_of faults.now cause }
{
    match cause {
        Cause::Root => None,
        Cause::Follows { root } => faults.get(root).copied(),
    }
}

/// Each of some faults with the one that it follows from, by where they stand among the causes.
///
/// # Errors
///
/// `AllocError` for want of memory.
pub(crate) fn told_by(
    alloc: Global,
    faults: &[PlacedFault],
    causes: &[Cause],
) -> Result<Vec<Told>, AllocError>
    ensures { IfOk result (λ told. told.items ≡ told_by faults.now faults.now causes.now) }
{
    let mut told = Vec::new(alloc);
    for (fault, cause) in faults.iter().zip(causes) {
        let root = root_of(faults, *cause);
        told.push(Told {
            fault: *fault,
            root,
        })?;
    }
    Ok(told)
}

// Adds a fault, if it is one of those that are looked for.
fn add_if(told: &mut Vec<Told>, is_one: bool, fault: Told) -> Result<(), AllocError>
    ensures { OnOk result (told.new.items ≡ told.old.items ++ told_if is_one fault) }
{
    if is_one {
        told.push(fault)?;
    }
    Ok(())
}

/// Those of some faults that lie in a scope.
///
/// # Errors
///
/// `AllocError` for want of memory.
pub(crate) fn told_in(
    alloc: Global,
    scope: &Scope<'_>,
    workspace: &Workspace,
    faults: &[Told],
) -> Result<Vec<Told>, AllocError>
    ensures { IfOk result (λ told. told.items ≡ told_in (scope.now.package.now, scope.now.file.now) workspace.now faults.now) }
{
    let mut told = Vec::new(alloc);
    for fault in faults {
        add_if(&mut told, has_fault(scope, workspace, fault.fault), *fault)?;
    }
    Ok(told)
}

// Whether what a fault follows from lies elsewhere, if it follows from something.
fn is_root_elsewhere(scope: &Scope<'_>, workspace: &Workspace, root: Option<PlacedFault>) -> bool
    ensures { result ≡ root_elsewhere (scope.now.package.now, scope.now.file.now) workspace.now root }
{
    match root {
        Some(root) => {
            if has_fault(scope, workspace, root) {
                return false;
            }
            true
        }
        None => true,
    }
}

// Whether a fault is shown.
fn is_shown(is_all: bool, scope: &Scope<'_>, workspace: &Workspace, told: Told) -> bool
    ensures { result ≡ is_shown is_all (scope.now.package.now, scope.now.file.now) workspace.now told }
{
    is_all || is_root_elsewhere(scope, workspace, told.root)
}

/// Those of some faults that are shown: all, or those that follow from none in the scope.
///
/// # Errors
///
/// `AllocError` for want of memory.
pub(crate) fn shown_in(
    alloc: Global,
    is_all: bool,
    scope: &Scope<'_>,
    workspace: &Workspace,
    faults: &[Told],
) -> Result<Vec<Told>, AllocError>
    ensures { IfOk result (λ told. told.items ≡ shown_in is_all (scope.now.package.now, scope.now.file.now) workspace.now faults.now) }
{
    let mut told = Vec::new(alloc);
    for fault in faults {
        add_if(
            &mut told,
            is_shown(is_all, scope, workspace, *fault),
            *fault,
        )?;
    }
    Ok(told)
}
