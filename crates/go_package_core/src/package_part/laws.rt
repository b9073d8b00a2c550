//! Laws of parts, with nothing to run.
ghost use Rattle.go_package_core.specs.package_part.Laws.{OnePart, PartHasItsPath, PartHasOccurrences};

/// There is at most one part of an input whose files' tokens follow one another: blocks, what occurrences have, faults, locals and summary follow
/// from the package, from what its imports come to, and from what the packages tell that it reaches.
pub fn one_part()
    ensures { OnePart }
{}

/// What a part has of a file of the grammar stands where the file's occurrences stand, with their roles and in their order: each occurrence has
/// exactly one outcome, and no other place has one.
pub fn part_has_occurrences()
    ensures { PartHasOccurrences }
{}

/// What a part tells is of the package that it is made of: its summary has the path of its input.
pub fn part_has_its_path()
    ensures { PartHasItsPath }
{}
