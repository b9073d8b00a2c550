//! Laws of code that is well formed, with nothing to run.
ghost use Rattle.go_workspace_laws.specs.CodeLaws.{CallsAreOfTheBody, FunctionsReferToTheirBodies, ObjectsAreWellFormed, SnapshotsHaveSoundObjects};

use go_code_core::{code_is_whole, jumps_stay_inside, outside_is_alone};
use go_emit_core::package_core::part_has_occurrences;
use go_emit_core::{bodies_are_between_braces, calls_name_their_own, objects_are_of_faultless};
use go_tree_core::occurrences_are_written;

/// What the code of a function calls is what a call of the function's body calls, whatever the look-ups of names: a function or a method, by the
/// reference that they have for the call's opening parenthesis, with a word for each argument and one for the receiver of a method.
///
/// The Go specification, "Calls".
pub fn calls_are_of_the_body()
    ensures { CallsAreOfTheBody }
{}

/// Each function of an object is well formed: its code looks at slots that the function has and calls references that it has, and each jump leads to
/// an instruction of the code, or to its end.
///
/// The Go specification, "Function declarations", "Method declarations".
pub fn objects_are_well_formed()
    ensures { ObjectsAreWellFormed }
{
    part_has_occurrences();
    occurrences_are_written();
    bodies_are_between_braces();
    calls_name_their_own();
    objects_are_of_faultless();
    jumps_stay_inside();
    code_is_whole();
    outside_is_alone();
}

/// The references of a function of an object are the declarations of the occurrences that stand between the braces of this function, which a file of
/// the package declares: one of each, in order of place. What its code calls is the reference of such an occurrence that is a call, with a word for each
/// argument and one for a receiver.
///
/// The Go specification, "Calls", "Declarations and scope".
pub fn functions_refer_to_their_bodies()
    ensures { FunctionsReferToTheirBodies }
{
    part_has_occurrences();
    occurrences_are_written();
    bodies_are_between_braces();
    calls_name_their_own();
    objects_are_of_faultless();
}

/// Each object of a snapshot is of one of its parts, and each function of it is well formed and refers to its body.
///
/// The Go specification, "Packages", "Function declarations", "Method declarations".
pub fn snapshots_have_sound_objects()
    ensures { SnapshotsHaveSoundObjects }
{
    objects_are_well_formed();
    functions_refer_to_their_bodies();
}
