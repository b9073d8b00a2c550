//! Laws of what the occurrences of a snapshot's files have, with nothing to run.
ghost use Rattle.go_workspace_laws.specs.AnswerLaws.{OutcomesAreOfOccurrences, PlacesAreOfOccurrences};

use go_emit_core::package_core::part_has_occurrences;

/// A snapshot has an answer for exactly the occurrences of each file.
///
/// By numbers: what the part of a package has of a file stands where the file's occurrences stand, with their roles and in their order. By names: there is
/// an answer for a path, the name of a file and a number exactly where the package of this path is assembled and its file of this name has an occurrence
/// of this number; the answer stands where this occurrence stands, with its role, and it is the only one.
///
/// The Go specification, "Declarations and scope", "Packages".
pub fn outcomes_are_of_occurrences()
    ensures places { PlacesAreOfOccurrences }
    ensures answers { OutcomesAreOfOccurrences }
{
    part_has_occurrences();
}
