//! Laws of paths, of the rule of internal directories, and of modules.
ghost use Rattle.go_path_core.specs.Laws.{ElementsDecide, ImportsItself, OpenToAll, LastInternalDecides, BelowAnImporter, PrefixByElements, OneModuleOfAPath, OverlapIsSymmetric, OverlapIsReflexive, OverlapIsDecided};

/// Two texts of the same elements are the same text.
pub fn elements_decide()
    ensures { ElementsDecide }
{}

/// A path may import itself, whatever elements it has.
pub fn every_path_imports_itself()
    ensures { ImportsItself }
{}

/// A path without an element `internal` may be imported by every path.
pub fn open_to_all()
    ensures { OpenToAll }
{}

/// Of several elements `internal` the last decides: a path may be imported exactly where what stands before
/// its last `internal` holds the importer.
pub fn last_internal_decides()
    ensures { LastInternalDecides }
{}

/// What a path may import, the paths below it may import.
pub fn below_an_importer()
    ensures { BelowAnImporter }
{}

/// To be below is said of elements and not of bytes: `ex.com/ab` is not below `ex.com/a`, so that it may not
/// import `ex.com/a/internal/x`, which `ex.com/a/b` may.
pub fn prefix_by_elements()
    ensures { PrefixByElements }
{}

/// Modules that do not overlap have no path in common.
pub fn one_module_of_a_path()
    ensures { OneModuleOfAPath }
{}

/// Where a module overlaps another, the other overlaps it.
pub fn overlap_is_symmetric()
    ensures { OverlapIsSymmetric }
{}

/// A module overlaps itself.
pub fn overlap_is_reflexive()
    ensures { OverlapIsReflexive }
{}

/// Whether modules overlap is what the test of their elements says.
pub fn overlap_is_decided()
    ensures { OverlapIsDecided }
{}
