//! Laws of the sources of objects, with nothing to run.
ghost use Rattle.go_meaning_laws.specs.object_sources.Laws.{ObjectsAreCodeOfSources, ObjectsRunAsMeant};

use crate::program_meaning::programs_run_as_meant;

/// The functions of the objects of parts are the code of the functions of the parts' files.
pub fn objects_are_code_of_sources()
    ensures { ObjectsAreCodeOfSources }
{}

/// A program of the objects of parts that can be run comes to what its functions mean, by their trees, if they mean something.
pub fn objects_run_as_meant()
    ensures { ObjectsRunAsMeant }
{
    programs_run_as_meant();
    objects_are_code_of_sources();
}
