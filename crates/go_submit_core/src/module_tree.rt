//! The packages of one module.
ghost use Rattle.std.specs.Prelude.{◌≡◌, ◌⊎◌, IfErr, IfOk, None, Some};
ghost use Rattle.go_submit_core.specs.Trees.{tree_rule, tree_with};

use crate::tree_rules::tree_rule;
use go_graph_core::Workspace;
use go_path_core::Module;
use go_path_core::text_core::Rule;
use std::alloc::{AllocError, Global};
use std::marker::Model;
use std::sync::Arc;

#[derive(Drop)]
struct TreeContent {
    own: Module,
    packages: Workspace,
}

/// The packages of one module, within the limits: 128 packages, 256 files of a package, 1,048,576 bytes of a text. A handle over one shared pointer.
/// Contracts see the module and the packages.
pub struct ModuleTree {
    content: Arc<TreeContent>,
}

impl Drop for ModuleTree {
    fn drop(self) {
        let ModuleTree { content: _ } = self;
    }
}

impl Model for ModuleTree {
    ghost use Rattle.std.specs.Prelude.{◌≡◌, None};
    ghost use Rattle.std.specs.Arc.{arc_value};
    ghost use Rattle.go_submit_core.specs.Trees.{TreeModel, coded_tree, tree_rule, tree_with};

    ghost Value = { TreeModel };

    ghost coded = { coded_tree };

    ghost view = { λ t. tree_with (arc_value t.content).own (arc_value t.content).packages };

    ghost invariant = { λ t. tree_rule (arc_value t.content).own (arc_value t.content).packages ≡ None };
}

impl ModuleTree {
    /// The packages of a module.
    ///
    /// # Errors
    ///
    /// The first of these rules that is broken: `Rule::E1` where a path is outside the module; `Rule::E2` where a file's name is none, which has 4 to 64
    /// bytes of `A-Z a-z 0-9 _ - .`, begins with neither `.` nor `_`, and ends in `.go` and not in `_test.go`; `Rule::E3` where a text is longer than
    /// 1,048,576 bytes; `Rule::E4` where a package has more than 256 files; `Rule::E5` where there are more than 128 packages. `Rule::M0` where none is
    /// broken and memory is wanting.
    pub fn make(alloc: Global, own: Module, packages: Workspace) -> Result<ModuleTree, Rule>
        ensures ok { IfOk result (λ t. (t ≡ tree_with own packages) × (tree_rule own packages ≡ None)) }
        ensures err { IfErr result (λ rule. ((rule ≡ Rule.M0) × (tree_rule own packages ≡ None)) ⊎ (tree_rule own packages ≡ Some rule)) }
    {
        if let Some(rule) = tree_rule(&own, packages.packages()) {
            return Err(rule);
        }
        match Arc::new(alloc, TreeContent { own, packages }) {
            Ok(content) => Ok(ModuleTree { content }),
            Err(_) => Err(Rule::M0),
        }
    }

    /// The module.
    pub fn own(&self) -> &Module
        ensures { result.now ≡ self.now.own }
    {
        &self.content.own
    }

    /// Its packages, which are within the limits.
    pub fn packages(&self) -> &Workspace
        ensures packages { result.now ≡ self.now.packages }
        ensures within { tree_rule self.now.own self.now.packages ≡ None }
    {
        &self.content.packages
    }

    /// The same tree once more. It takes no memory.
    ///
    /// # Errors
    ///
    /// `AllocError` where it has too many owners.
    pub fn share(&self) -> Result<ModuleTree, AllocError>
        ensures { IfOk result (λ t. t ≡ self.now) }
    {
        Ok(ModuleTree {
            content: Arc::try_clone(&self.content)?,
        })
    }
}
