//! Laws of short declarations, with nothing to run.
ghost use Rattle.go_scope_stack.specs.Laws.{AddsNew};

/// After a short declaration its block has the names that are new behind those that it had, in their order, and no
/// others: "a short variable declaration .. may redeclare variables .. Redeclaration does not introduce a new variable"
/// (the Go specification, "Short variable declarations").
pub fn short_adds_new<X>()
    ensures { AddsNew X }
{}
