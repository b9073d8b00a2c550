//! How high a tree is.
ghost use Rattle.go_spec_laws.specs.front.HeightLaws.{HeightsAreOfPaths, HeightsAreWorked};

/// A law, with nothing to run: the height of a tree of the Go specification, "Types", "Expressions", "Statements", "Blocks", "Declarations and scope", is
/// the largest number of nodes on one path down, and that of a file the largest on one from a declaration of the package block.
pub fn heights_are_of_paths()
    ensures { HeightsAreOfPaths }
{}

/// A law, with nothing to run: the heights of trees that are counted by hand.
pub fn heights_are_worked()
    ensures { HeightsAreWorked }
{}
