//! Laws of the definitions.
ghost use Rattle.go_block_core.specs.All.{AloneIsWhole, HasBlocks, OneBlocks};
ghost use Rattle.go_block_core.specs.Naming.{TextsAgree};
ghost use Rattle.go_block_core.specs.Laws.{PackageHolds, FileHolds, NeverHidden, FileAnswers, FaultsAreThese, DeclarationsInOrder, BindingsInOrder, OneBlocksAlone};

/// A law, with nothing to run: the package block has at a name the declaration of that name which no earlier
/// one of that name precedes, so at most one.
pub fn package_has_the_first()
    ensures { PackageHolds }
{}

/// A law, with nothing to run: what a file's imports bind a name to is the first binding of that name.
pub fn file_has_the_first()
    ensures { FileHolds }
{}

/// A law, with nothing to run: no binding of a file hides a name of the package block.
pub fn package_is_never_hidden()
    ensures { NeverHidden }
{}

/// A law, with nothing to run: a look-up in a file answers exactly what the file's block has at a name that the
/// package block has not.
pub fn file_answers_its_own()
    ensures { FileAnswers }
{}

/// A law, with nothing to run: the faults are second declarations and bindings, bindings of names of the
/// package block, and what is named `init` or `main` and may not be.
pub fn faults_are_these()
    ensures { FaultsAreThese }
{}

/// A law, with nothing to run: the declarations of a package are listed in order of file and number, and
/// of file and offset.
pub fn declarations_are_in_order()
    ensures { DeclarationsInOrder }
{}

/// A law, with nothing to run: the bindings of a file are listed in order of the places of their imports.
pub fn bindings_are_in_order()
    ensures { BindingsInOrder }
{}

/// A law, with nothing to run: the trees of a package and its imports have one package block, one block for each
/// file, and one list of faults at most.
pub fn one_blocks_alone()
    ensures { OneBlocksAlone }
{}

/// A law, with nothing to run: the blocks that a package has alone, with what its imports come to by the list of a
/// workspace's blocks, are those that this list has for it, and no others are.
pub fn alone_is_whole()
    ensures { AloneIsWhole }
{}

/// A law, with nothing to run: a workspace has one list of blocks at most.
pub fn one_blocks()
    ensures { OneBlocks }
{}

/// A law, with nothing to run: a workspace has a list of blocks.
pub fn each_workspace_has_blocks()
    ensures { HasBlocks }
{}

/// A law, with nothing to run: the imports of declarations, in order of place, have the texts by which a plan finds
/// what they come to.
pub fn import_texts_agree()
    ensures { TextsAgree }
{}
