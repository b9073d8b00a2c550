//! The modules of which something is published, listed.
ghost use Rattle.std.specs.Prelude.{◌≡◌, [], IfOk};
ghost use Rattle.go_submit_core.specs.Modules.{with_trees};

use crate::modules::{add_trees, are_among, shared_modules};
use crate::submission::Submissions;
use go_path_core::Module;
use std::alloc::{AllocError, Global};
use std::marker::Model;
use std::sync::Arc;

/// Modules, each once, in order. A handle over one shared pointer; contracts see the list.
#[derive(Drop)]
pub(crate) struct ModuleList {
    modules: Arc<Vec<Module>>,
}

impl Model for ModuleList {
    ghost use Rattle.std.specs.Prelude.{List, ℕ};
    ghost use Rattle.std.specs.Arc.{arc_value};

    ghost Value = { List (List ℕ) };

    ghost view = { λ m. (arc_value m.modules).items };
}

impl ModuleList {
    /// No module.
    ///
    /// # Errors
    ///
    /// `AllocError` where memory is wanting.
    pub(crate) fn new(alloc: Global) -> Result<ModuleList, AllocError>
        ensures { IfOk result (λ m. m ≡ []) }
    {
        Ok(ModuleList {
            modules: Arc::new(alloc, Vec::new(alloc))?,
        })
    }

    /// The same modules once more. It takes no memory.
    ///
    /// # Errors
    ///
    /// `AllocError` where they have too many owners.
    fn share(&self) -> Result<ModuleList, AllocError>
        ensures { IfOk result (λ m. m ≡ self.now) }
    {
        Ok(ModuleList {
            modules: Arc::try_clone(&self.modules)?,
        })
    }

    /// The modules.
    pub(crate) fn as_slice(&self) -> &[Module]
        ensures { result.now ≡ self.now }
    {
        self.modules.as_slice()
    }

    /// These modules with those of submissions. Where each of them is there already, the list is shared and takes no memory; else it takes one handle
    /// for each module.
    ///
    /// # Errors
    ///
    /// `AllocError` where memory is wanting.
    pub(crate) fn with_those_of(
        &self,
        alloc: Global,
        submissions: &Submissions,
    ) -> Result<ModuleList, AllocError>
        ensures { IfOk result (λ m. m ≡ with_trees self.now submissions.now) }
    {
        let modules = self.as_slice();
        if are_among(modules, submissions.as_slice()) {
            return self.share();
        }
        let mut longer = shared_modules(alloc, modules)?;
        add_trees(&mut longer, submissions.as_slice())?;
        Ok(ModuleList {
            modules: Arc::new(alloc, longer)?,
        })
    }
}
