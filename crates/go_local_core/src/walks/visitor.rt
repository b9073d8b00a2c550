//! What is done at each step of a function's body.

ghost use Rattle.std.specs.Prelude.{ℕ};
ghost use Rattle.go_tree_nodes.specs.Shapes.{shape, shape_some_exprs, shape_value_spec, shape_simple};
ghost use Rattle.go_local_core.specs.Steps.{Steps as TheSteps, Done, Check, Inner, Condition, Given};
ghost use Rattle.go_local_core.specs.Outline.{spec_steps, simple_steps};

use go_tree_nodes::text_core::Span;
use go_tree_nodes::{Expr, Exprs, Simple, ValueKind, ValueSpec};

/// What is done at each step of a function's body, in order of their places.
///
/// A visit does not fail: a visitor that can go no further notes that, and passes over the steps that are left.
pub trait Visitor {
    // these steps, before further ones, lead from the first state to the second
    ghost Leads: { Self → (TheSteps → TheSteps) → Self → Type 0 };

    // a block is opened
    ghost Enters: { Self → Self → Type 0 };

    // the innermost block is closed
    ghost Leaves: { Self → Self → Type 0 };

    /// Visits a specification of constants or variables.
    fn visit_spec(&mut self, kind: ValueKind, spec: &ValueSpec)
        ensures { Leads self.old (λ rest. spec_steps kind (shape_value_spec spec.now) rest) self.new };

    /// Visits a statement that may stand in a header.
    fn visit_simple(&mut self, simple: &Simple)
        ensures { Leads self.old (λ rest. simple_steps (shape_simple simple.now) rest) self.new };

    /// Visits a condition.
    fn visit_condition(&mut self, condition: &Expr)
        ensures { Leads self.old (λ rest. Check (Condition (shape condition.now)) rest) self.new };

    /// Visits what is returned.
    fn visit_given(&mut self, place: Span, values: &Option<Box<Exprs>>)
        ensures { Leads self.old (λ rest. Check (Given place (shape_some_exprs values.now)) rest) self.new };

    /// Opens a block.
    fn enter(&mut self)
        ensures { Enters self.old self.new };

    /// Closes the innermost block.
    fn leave(&mut self)
        ensures { Leaves self.old self.new };

    ghost leads_none: { (a : Self) → Leads a (λ rest. rest) a };

    ghost leads_more: { (a b c : Self) (f g : TheSteps → TheSteps) → Leads a f b → Leads b g c → Leads a (λ rest. f (g rest)) c };

    ghost leads_inner: { (a b c d : Self) (f : TheSteps → TheSteps) (opens closes : ℕ) → Enters a b → Leads b f c → Leaves c d → Leads a (λ rest. Inner opens closes (f Done) rest) d };
}
