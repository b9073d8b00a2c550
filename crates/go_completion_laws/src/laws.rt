//! Laws of completion over whole workspaces, with nothing to run.
ghost use Rattle.go_completion_laws.specs.Agreeing.{ReachedPartsAgree};
ghost use Rattle.go_completion_laws.specs.Completing.{BlanksNeverComplete, CompletionsAreExact};

use go_answer_laws::completions::{blank_never_fits, identifiers_can_be_respelled, names_fit};
use go_import_core::head::outcomes_stay;
use go_package_core::package_part::one_part;
use go_workspace_laws::existence::workspaces_have_snapshots;

/// Where two workspaces have the same names in package clauses and the same texts of imports, and of the packages that one package reaches they have the
/// same files, these packages have the same parts, whatever else differs: the package itself and all that imports it.
///
/// The Go specification, "Packages", "Import declarations".
pub fn reached_parts_agree()
    ensures { ReachedPartsAgree }
{
    one_part();
    outcomes_stay();
}

/// The names that complete an identifier of a file are exactly those with which the workspace, with the name put in the identifier's place, has a snapshot
/// that gives a declaration for its occurrence. `_` is none of them.
///
/// The Go specification, "Declarations and scope", "Selectors", "Qualified identifiers", "Composite literals".
pub fn completions_are_exact()
    ensures exact { CompletionsAreExact }
    ensures blanks { BlanksNeverComplete }
{
    identifiers_can_be_respelled();
    names_fit();
    blank_never_fits();
    one_part();
    outcomes_stay();
    workspaces_have_snapshots();
}
