//! Laws of the definitions.
ghost use Rattle.go_graph_core.specs.Packages.{HasAssembly, HasNoOtherAssembly};

/// A law, with nothing to run: of the four cases, a package and the rules K4, K3 and K2, exactly one holds of
/// files, with one answer.
pub fn one_assembly()
    ensures some { HasAssembly }
    ensures only { HasNoOtherAssembly }
{}
