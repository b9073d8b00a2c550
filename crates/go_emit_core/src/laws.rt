//! Laws of objects, with nothing to run.
ghost use Rattle.go_emit_core.specs.Laws.{BodiesAreBetweenBraces, CallsNameTheirOwn, ImportsPass, ObjectsAreOfFaultless, ObjectsAreOfTheirParts, OneObject};
ghost use Rattle.go_emit_core.specs.Samples.{SampleIsEmitted};

use go_package_core::package_part::{one_part, part_has_occurrences};
use go_tree_core::occurrences_are_written;

/// There is an object of a package exactly where each occurrence of its files has a declaration and there is no fault beside, whatever packages tell.
pub fn objects_are_of_faultless()
    ensures { ObjectsAreOfFaultless }
{}

/// There is at most one object of an input whose files' tokens follow one another, by itself, and over the same that packages tell.
pub fn one_object()
    ensures { OneObject }
{
    one_part();
}

/// The occurrences of a function's body are those of its file that stand between its braces, in order of place.
///
/// The Go specification, "Function declarations", "Blocks".
pub fn bodies_are_between_braces()
    ensures { BodiesAreBetweenBraces }
{
    part_has_occurrences();
    occurrences_are_written();
}

/// In an object a function's references are the declarations of the occurrences of its own body, one for each, in order of place; and a call of the
/// body calls the reference of its own occurrence.
pub fn calls_name_their_own()
    ensures { CallsNameTheirOwn }
{}

/// The imports of an object are the packages that imports of its package come to.
pub fn imports_pass()
    ensures { ImportsPass }
{}

/// The objects of parts are those of the parts of which nothing is reported, one of each, in their order, with their paths.
pub fn objects_are_of_their_parts()
    ensures { ObjectsAreOfTheirParts }
{}

/// A file of two functions, the one of which calls the other, has the slots, the references and the code that were worked out by hand.
pub fn sample_is_emitted()
    ensures { SampleIsEmitted }
{}
