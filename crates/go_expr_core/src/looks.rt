//! What is asked of a place of a program.
ghost use Rattle.std.specs.Prelude.{◌≡◌, ◌++◌, IfOk, OnOk};
ghost use Rattle.go_tree_nodes.specs.TypeShapes.{shape_type};
ghost use Rattle.go_expr_core.specs.Looks.{WrittenRules, everywhere};
ghost use Rattle.go_expr_core.specs.Denoting.{named_type};

use go_denote_core::composite::Literals;
use go_local_core::Fault;
use go_tree_nodes::TypeExpr;
use std::alloc::{AllocError, Global};

/// The struct types that are written out in expressions at a place of a program, beside what names stand for there, what types there
/// are, and their fields.
pub trait Exprs: Literals {
    // struct types that are written out
    ghost written: { Self → WrittenRules Self.Type };

    /// A type that is written out: none where it is no type.
    ///
    /// # Errors
    ///
    /// `AllocError` where memory is wanting.
    fn written(&self, alloc: Global, tree: &TypeExpr) -> Result<Option<Self::Type>, AllocError>
        ensures { IfOk result (λ t. t ≡ (written self.now).type_of (named_type (everywhere (Self.types self.now) (Self.names self.now) (Self.literals self.now) (written self.now))) (shape_type tree.now)) };

    /// Adds the faults of a type that is written out, beside those that its names have: faults of its fields and methods.
    ///
    /// # Errors
    ///
    /// `AllocError` where memory is wanting.
    fn add_type_faults(
        &self,
        alloc: Global,
        tree: &TypeExpr,
        faults: &mut Vec<Fault>,
    ) -> Result<(), AllocError>
        ensures { OnOk result (faults.new.items ≡ faults.old.items ++ (written self.now).faults_of (named_type (everywhere (Self.types self.now) (Self.names self.now) (Self.literals self.now) (written self.now))) (shape_type tree.now)) };
}
