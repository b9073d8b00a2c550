//! Laws of what names denote.
ghost use Rattle.go_scope_core.specs.Laws.{DenotesInnermost, DenotesOne, LocalHides, PackageNeverHidden, FileInside, UniverseOutermost, BlankStaysOut};

/// A law, with nothing to run: what a name denotes is its declaration in the innermost open block that has one,
/// and there is at most one (the Go specification, "Declarations and scope").
pub fn denotes_one()
    ensures innermost { DenotesInnermost }
    ensures one { DenotesOne }
{}

/// A law, with nothing to run: a name that an open block of the function has denotes the innermost declaration of
/// it there, whatever the package's and the file's blocks have: "while the identifier of the inner declaration is
/// in scope, it denotes the entity declared by the inner declaration" (the Go specification, "Declarations and
/// scope").
pub fn local_hides()
    ensures { LocalHides }
{}

/// A law, with nothing to run: a name of the package block that no open block of the function has denotes its
/// declaration there, whatever the file's block has.
pub fn package_is_never_hidden()
    ensures { PackageNeverHidden }
{}

/// A law, with nothing to run: a name that no open block of the function has denotes what holds for it in the
/// file's block.
pub fn file_is_inside()
    ensures { FileInside }
{}

/// A law, with nothing to run: the universe block lies outside all others. A name that no block of the package, the
/// file and the function has denotes the predeclared name that is spelled so, if there is one; and a predeclared name
/// that one of these blocks has is hidden (the Go specification, "Blocks", "Predeclared identifiers").
pub fn universe_is_outermost()
    ensures { UniverseOutermost }
{}

/// A law, with nothing to run: where no open block of the function has the blank identifier, as at the beginning,
/// none has it after a block is opened or closed or names are declared. It "does not introduce a binding and thus
/// is not declared" (the Go specification, "Declarations and scope").
pub fn blank_stays_out()
    ensures { BlankStaysOut }
{}
