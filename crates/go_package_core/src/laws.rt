//! Laws of checked packages, with nothing to run.
ghost use Rattle.go_package_core.specs.Laws.{OneCheck, PackageHasOccurrences};

/// There is at most one answer to a package whose files' tokens follow one another: its types, what its declarations are, what it shows, what each
/// occurrence has and which faults are reported follow from what is written of it and from what is known of the packages that it reaches.
pub fn one_check()
    ensures { OneCheck }
{}

/// What stands in a file of the grammar stands where its occurrences stand, with their roles and in their order: each occurrence has exactly one
/// outcome, and no other place has one.
pub fn package_has_occurrences()
    ensures { PackageHasOccurrences }
{}
