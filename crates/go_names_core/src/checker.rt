//! What the pieces of a function are checked with.

ghost use Rattle.std.specs.Prelude.{◌≡◌, ℕ, [], ◌++◌, IfOk, OnOk, map};
ghost use Rattle.go_tree_nodes.specs.Shapes.{shape, shape_exprs, shape_some_exprs, shape_value_spec, shape_simple};
ghost use Rattle.go_tree_nodes.specs.TypeShapes.{shape_idents};
ghost use Rattle.go_tree_nodes.specs.Trees.{Define};
ghost use Rattle.go_local_core.specs.Steps.{Spec, Act, Condition, Given};
ghost use Rattle.go_local_core.specs.Outline.{idents};
ghost use Rattle.go_local_core.specs.Law.{Rules as TheRules};
ghost use Rattle.go_local_core.specs.Alike.{LookAtNames};
ghost use Rattle.go_names_core.specs.Scope.{open_look};
ghost use Rattle.go_names_core.specs.Body.{each_means, func_idents, func_header};

use crate::look::OpenNames;
use crate::meaning::Meant;
use go_scope_core::text_core::Span;
use go_tree_nodes::{Definition, Expr, Exprs, FuncDecl, Simple, ValueKind, ValueSpec};
use std::alloc::AllocError;

/// The rules by which the pieces of a function are checked: what is noted of a piece, and what the names mean that it declares,
/// by what names mean where it stands.
///
/// The blocks are the walk's: a checker is given the names that are open, and for a piece that declares names, which of them
/// are the first in their block. Notes are added behind those that there are. The one error is want of memory.
pub trait Checker {
    /// What a name means.
    type Meaning: Meant + Drop;

    /// What is noted of a piece.
    type Note: Drop;

    // what is noted of each piece, and what the names mean that it declares
    ghost rules: { Self → TheRules Self.Meaning Self.Note };

    /// Checks the receiver, the parameters and the results of a function, and answers what their names mean.
    fn check_header(
        &self,
        names: &OpenNames<Self::Meaning>,
        func: &FuncDecl,
        firsts: &[bool],
        notes: &mut Vec<Self::Note>,
    ) -> Result<Vec<Self::Meaning>, AllocError>
        ensures notes { OnOk result (notes.new.items ≡ notes.old.items ++ (rules self.now).notes (open_look Self.Meaning.outside names.now) firsts.now (func_header func.now)) }
        ensures means { IfOk result (λ means. means.items ≡ each_means ((rules self.now).means (open_look Self.Meaning.outside names.now) firsts.now (func_header func.now)) 0 (func_idents func.now)) };

    /// Checks a specification of constants or variables, and answers what its names mean.
    fn check_spec(
        &self,
        names: &OpenNames<Self::Meaning>,
        kind: ValueKind,
        spec: &ValueSpec,
        firsts: &[bool],
        notes: &mut Vec<Self::Note>,
    ) -> Result<Vec<Self::Meaning>, AllocError>
        ensures notes { OnOk result (notes.new.items ≡ notes.old.items ++ (rules self.now).notes (open_look Self.Meaning.outside names.now) firsts.now (Spec kind (shape_value_spec spec.now))) }
        ensures means { IfOk result (λ means. means.items ≡ each_means ((rules self.now).means (open_look Self.Meaning.outside names.now) firsts.now (Spec kind (shape_value_spec spec.now))) 0 (idents (shape_idents spec.now.names))) };

    /// Checks a short declaration, and answers what its names mean.
    fn check_short(
        &self,
        names: &OpenNames<Self::Meaning>,
        definition: &Definition,
        firsts: &[bool],
        notes: &mut Vec<Self::Note>,
    ) -> Result<Vec<Self::Meaning>, AllocError>
        ensures notes { OnOk result (notes.new.items ≡ notes.old.items ++ (rules self.now).notes (open_look Self.Meaning.outside names.now) firsts.now (Act (Define (shape_idents definition.now.names) definition.now.define (shape_exprs definition.now.values)))) }
        ensures means { IfOk result (λ means. means.items ≡ each_means ((rules self.now).means (open_look Self.Meaning.outside names.now) firsts.now (Act (Define (shape_idents definition.now.names) definition.now.define (shape_exprs definition.now.values)))) 0 (idents (shape_idents definition.now.names))) };

    /// Checks a statement that declares nothing and may stand in a header.
    fn check_simple(
        &self,
        names: &OpenNames<Self::Meaning>,
        simple: &Simple,
        notes: &mut Vec<Self::Note>,
    ) -> Result<(), AllocError>
        ensures { OnOk result (notes.new.items ≡ notes.old.items ++ (rules self.now).notes (open_look Self.Meaning.outside names.now) [] (Act (shape_simple simple.now))) };

    /// Checks a condition.
    fn check_condition(
        &self,
        names: &OpenNames<Self::Meaning>,
        condition: &Expr,
        notes: &mut Vec<Self::Note>,
    ) -> Result<(), AllocError>
        ensures { OnOk result (notes.new.items ≡ notes.old.items ++ (rules self.now).notes (open_look Self.Meaning.outside names.now) [] (Condition (shape condition.now))) };

    /// Checks what is returned.
    fn check_given(
        &self,
        names: &OpenNames<Self::Meaning>,
        place: Span,
        values: &Option<Box<Exprs>>,
        notes: &mut Vec<Self::Note>,
    ) -> Result<(), AllocError>
        ensures { OnOk result (notes.new.items ≡ notes.old.items ++ (rules self.now).notes (open_look Self.Meaning.outside names.now) [] (Given place (shape_some_exprs values.now))) };

    // the rules look at the names of a piece alone
    ghost at_names: { (a : Self) → LookAtNames Self.Meaning Self.Note (rules a) };
}
