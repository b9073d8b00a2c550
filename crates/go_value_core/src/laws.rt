//! Laws of the constants and variables of a package.
ghost use Rattle.go_value_core.specs.Laws.{NamesAndBodiesDoNotCount, NeededNamesDecide, NeedsDecide, PackageHasOneTable, SpecificationsAreAlike, ThroughItselfHasNone};
ghost use Rattle.go_value_core.specs.Sample.{ValueSampleIsRight};

/// A law, with nothing to run: there is one answer to what the declarations of a package are.
pub fn package_has_one_table()
    ensures { PackageHasOneTable }
{}

/// A law, with nothing to run: what a declaration is depends on those declarations of the package that it needs, and on no others.
pub fn needs_decide()
    ensures { NeedsDecide }
{}

/// A law, with nothing to run: a constant that is defined through itself has no type.
pub fn through_itself_has_none()
    ensures { ThroughItselfHasNone }
{}

/// A law, with nothing to run: what a name of a specification stands for depends on what the identifiers stand for that it needs, and on no
/// others: those in the elements of literals and in the expressions of other names do not count.
pub fn needed_names_decide<T, S, D, P>()
    ensures { NeededNamesDecide T S D P }
{}

/// A law, with nothing to run: what the names of a specification outside functions stand for is what those of one inside a function do, where
/// names mean the same, but that a variable without a written type has none where what it is given is no constant.
pub fn specifications_are_alike<T, S, D, P>()
    ensures { SpecificationsAreAlike T S D P }
{}

/// A law, with nothing to run: what functions and types are made of counts neither for what declarations need nor for what they are, beside
/// what is written of them.
pub fn bodies_do_not_count()
    ensures { NamesAndBodiesDoNotCount }
{}

/// A law, with nothing to run: what a few constants and variables need and are, and which are defined through themselves.
pub fn sample_values()
    ensures { ValueSampleIsRight }
{}
