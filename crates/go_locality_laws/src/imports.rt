//! Laws of what a package looks at in those that it imports and in those that it reaches, with nothing to run.
ghost use Rattle.go_locality_laws.specs.ImportLaws.{ImportsDecideChecks, ImportsDecideParts, InputsLeadInside, InputsStandOver, PartsStay};

use go_snap_core::whole_workspace::{check_is_local, imports_bind_theirs};

/// Where a package and some others lead to none beside themselves, its check gives the same, whatever is known of all else, as soon as the same is known of
/// the types of these, and of what those show that the imports of the package come to: names and declarations of packages that are reached and not
/// imported do not count.
///
/// The Go specification, "Packages", "Import declarations", "Exported identifiers".
pub fn imports_decide_checks()
    ensures { ImportsDecideChecks }
{
    check_is_local();
}

/// What a package has by an input it has by another one with the same files, whose imports come to the same: where each package that it reached tells the
/// types that it told, and those that its imports come to all that they told. All of this can be compared.
///
/// The Go specification, "Packages", "Import declarations", "Exported identifiers".
pub fn imports_decide_parts()
    ensures { ImportsDecideParts }
{
    imports_decide_checks();
    imports_bind_theirs();
}

/// The input of a package of a workspace leads to no package beside its own and those that it reaches: its imports come to these, and what these tell
/// mentions types of theirs.
///
/// The Go specification, "Packages", "Import declarations".
pub fn inputs_lead_inside()
    ensures { InputsLeadInside }
{
    check_is_local();
    imports_bind_theirs();
}

/// What a package has in a workspace whose packages all have their parts it has by any input that stands over its own.
///
/// The Go specification, "Packages", "Import declarations", "Exported identifiers".
pub fn parts_stay()
    ensures { PartsStay }
{
    imports_decide_parts();
    inputs_lead_inside();
}

/// The input of a package of the same files stands over the one that it had in another workspace: where its imports come to what they came to there, it
/// reaches what it reached, those that its imports come to tell what they told, and those that it reaches the types that they told.
///
/// The Go specification, "Packages", "Import declarations".
pub fn inputs_stand_over()
    ensures { InputsStandOver }
{}
