//! Laws of what needs one another.
ghost use Rattle.go_digraph_core.specs.needs.Laws.{EndlessNeverEnds, OneTableOfValues};

/// A law, with nothing to run: where what a node needs leads back to itself, no bound holds for the paths from the node. So a table of
/// values has one for a node exactly where each path from it ends.
pub fn endless_never_ends()
    ensures { EndlessNeverEnds }
{}

/// A law, with nothing to run: there is at most one table of values.
pub fn one_table<V: Drop>()
    ensures { OneTableOfValues V }
{}
