//! Laws of the declarations of a package as they are written, and of what packages show.
ghost use Rattle.go_declared_core.specs.AliasSample.{AliasFacesAreRight};
ghost use Rattle.go_declared_core.specs.Laws.{PositionsAreExact, WrittenAreLocal};
ghost use Rattle.go_declared_core.specs.Sample.{FaceSampleIsRight};
ghost use Rattle.go_declared_core.specs.Showing.{FacesAreFound, FacesShowTheirBlock, TablesShowTheirPackages};

/// A law, with nothing to run: each declaration of a file stands in the list at its position, what stands at a place is a declaration of a
/// file with that position, and each position is one of a declaration that stands there.
pub fn positions_are_exact()
    ensures { PositionsAreExact }
{}

/// A law, with nothing to run: what a package's declarations are as they are written depends on nothing of its blocks and of other packages
/// but on what those names mean that its signatures and the types of its variables write.
pub fn written_are_local()
    ensures { WrittenAreLocal }
{}

/// A law, with nothing to run: the declarations of a package of two files that is worked out by hand.
pub fn worked_faces()
    ensures { FaceSampleIsRight }
{}

/// A law, with nothing to run: an alias has the face of its target, also where that is an alias or another package's, and an alias of a name
/// that is refused has no type. A package of seven declarations is worked out by hand.
pub fn worked_alias_faces()
    ensures { AliasFacesAreRight }
{}

/// A law, with nothing to run: behind the name of a package and a dot each exported name of its package block is seen, with its declaration
/// and the face that it was given, each other name of the block is hidden, and no other name is there.
pub fn packages_show_their_faces()
    ensures block { FacesShowTheirBlock }
    ensures faces { FacesAreFound }
{}

/// A law, with nothing to run: a package that was added to a table is seen there, and what the others show is as it was.
pub fn tables_show_their_packages()
    ensures { TablesShowTheirPackages }
{}
