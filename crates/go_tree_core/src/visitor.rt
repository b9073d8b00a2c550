//! What is done at each occurrence of a file.

ghost use Rattle.std.specs.Prelude.{List, [], ◌∷◌, ◌++◌};
ghost use Rattle.go_tree_core.specs.declared.occurrence.Occ.{Occ as TheOcc};
ghost use Rattle.go_tree_core.specs.Occurrences.{occ_at, occurrence, call_at};

use crate::occurrence::Role;
use go_tree_nodes::Ident;
use go_tree_nodes::text_core::Span;

/// What is done at each occurrence of a file, in order of their places.
///
/// A visit does not fail: a visitor that can go no further notes that, and passes over the occurrences that are left.
pub(crate) trait Visitor {
    // a visit of these occurrences leads from the first state to the second
    ghost Sees: { Self → List TheOcc → Self → Type 0 };

    /// Visits one occurrence.
    fn visit(&mut self, role: Role, spelling: &str, span: Span)
        ensures { Sees self.old (occ_at role spelling.now span ∷ []) self.new };

    ghost sees_none: { (a : Self) → Sees a [] a };

    ghost sees_more: { (a b c : Self) (xs ys : List TheOcc) → Sees a xs b → Sees b ys c → Sees a (xs ++ ys) c };
}

/// Visits the occurrence of an identifier.
pub(crate) fn visit_ident<V: Visitor>(visitor: &mut V, role: Role, ident: &Ident)
    ensures { V.Sees visitor.old (occurrence role ident.now ∷ []) visitor.new }
{
    visitor.visit(role, ident.name.as_str(), ident.span);
}

/// Visits a call, at its opening parenthesis.
pub(crate) fn visit_call<V: Visitor>(visitor: &mut V, span: Span)
    ensures { V.Sees visitor.old (call_at span ∷ []) visitor.new }
{
    visitor.visit(Role::Call, "(", span);
}
