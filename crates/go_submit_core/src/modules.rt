//! The modules of submissions, each once.
ghost use Rattle.std.specs.Prelude.{◌≡◌, IfOk, OnOk};
ghost use Rattle.std.specs.List.{list_all};
ghost use Rattle.std.specs.Str.{bytes_eq};
ghost use Rattle.go_submit_core.specs.Modules.{is_among, with_module, with_trees};

use crate::submission::Submission;
use go_path_core::Module;
use go_path_core::text_core::add;
use std::alloc::{AllocError, Global};

/// Whether two modules are written alike.
pub fn is_same_module(one: &Module, other: &Module) -> bool
    ensures { result ≡ bytes_eq one.now other.now }
{
    one.is_same(other)
}

/// Whether a module is among these.
pub fn is_among(modules: &[Module], own: &Module) -> bool
    ensures { result ≡ is_among own.now modules.now }
{
    modules.iter().any(|module| is_same_module(module, own))
}

/// Whether the module of each submission is among these.
pub(crate) fn are_among(modules: &[Module], submissions: &[Submission]) -> bool
    ensures { result ≡ list_all (λ s. is_among s.tree.own modules.now) submissions.now }
{
    submissions
        .iter()
        .all(|submission| is_among(modules, submission.tree.own()))
}

/// Adds a module that is not there yet.
///
/// # Errors
///
/// `AllocError` where memory is wanting.
pub fn add_module(modules: &mut Vec<Module>, own: &Module) -> Result<(), AllocError>
    ensures { OnOk result (modules.new.items ≡ with_module modules.old.items own.now) }
{
    if is_among(modules, own) {
        return Ok(());
    }
    add(modules, own.share()?)
}

/// Adds the modules of submissions that are not there yet.
///
/// # Errors
///
/// `AllocError` where memory is wanting.
pub fn add_trees(modules: &mut Vec<Module>, submissions: &[Submission]) -> Result<(), AllocError>
    ensures { OnOk result (modules.new.items ≡ with_trees modules.old.items submissions.now) }
{
    for submission in submissions {
        add_module(modules, submission.tree.own())?;
    }
    Ok(())
}

// These modules once more.
pub(crate) fn shared_modules(alloc: Global, modules: &[Module]) -> Result<Vec<Module>, AllocError>
    ensures { IfOk result (λ shared. shared.items ≡ modules.now) }
{
    let mut shared = Vec::with_capacity(alloc, modules.len())?;
    for module in modules {
        add(&mut shared, module.share()?)?;
    }
    Ok(shared)
}
