//! Which names a function declares, in which blocks, and where they are in scope.
ghost use Rattle.go_spec_laws.specs.front.Branches.{WorkedBranches};
ghost use Rattle.go_spec_laws.specs.front.LocalLaws.{BlocksAreInnermost, NamesAreWritten};

/// A law, with nothing to run: in a method with a receiver, a parameter, a result, and variables of one name in its body, in the header of an `if`, in
/// both branches of it and in a `for`, each declaration is in scope at the places that were worked out by hand, and each name denotes the declaration that was.
///
/// The Go specification, "Blocks", "Declarations and scope".
pub fn worked_branches()
    ensures { WorkedBranches }
{}

/// A law, with nothing to run: what a function declares are, in order, the names that its receiver, its parameters, its results and the declarations in its
/// body write, but for blank ones; and the block that owns each is the innermost block of the function that contains its identifier.
///
/// The Go specification, "Blocks", "Declarations and scope", "Blank identifier".
pub fn declarations_are_written<X, N>()
    ensures names { NamesAreWritten X N }
    ensures blocks { BlocksAreInnermost X N }
{}
