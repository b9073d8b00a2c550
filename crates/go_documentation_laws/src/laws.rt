//! Laws of documentation of types over whole workspaces, with nothing to run.
ghost use Rattle.go_documentation_laws.specs.Below.{OutcomesBelowStay, PartsBelowStay, TypesBelowAgree};
ghost use Rattle.go_documentation_laws.specs.Types.{TypesAreExact};
ghost use Rattle.go_documentation_laws.specs.Variables.{VariablesAreExact};

use go_import_core::list::added_imports_are_judged;
use go_package_core::package_part::one_part;
use go_program_laws::faultless::parts_show_their_types;
use go_snap_core::whole_workspace::{check_is_local, imports_bind_theirs};
use go_type_doc_core::members_are_local;
use go_workspace_laws::existence::workspaces_have_snapshots;

/// Where an import would come to a package, what the imports of that package and of all that it reaches come to stays as it is once a file with the import
/// is added: the package with the file is not among them.
///
/// The Go specification, "Import declarations".
pub fn outcomes_below_stay()
    ensures { OutcomesBelowStay }
{}

/// So the imported package and all that it reaches have the parts that they had, whatever else the file declares.
///
/// The Go specification, "Packages", "Import declarations".
pub fn parts_below_stay()
    ensures { PartsBelowStay }
{
    one_part();
}

/// And of all that a type reaches which the imported package declares, the package with the file sees what the imported one sees.
///
/// The Go specification, "Types", "Import declarations".
pub fn types_below_agree()
    ensures { TypesBelowAgree }
{
    one_part();
    check_is_local();
    imports_bind_theirs();
    added_imports_are_judged();
}

/// The members that are told of a type of another package are exactly those that selectors behind a variable of the type have in a file that is added to the
/// package that asks and imports that package, in the one snapshot of the workspace with the file; and of a type of the package itself those in each of its files.
/// Where the import comes to a package, nothing is told of a type exactly where its name breaks a rule in that file, and it is this rule.
///
/// The Go specification, "Selectors", "Qualified identifiers", "Import declarations".
pub fn types_are_exact()
    ensures { TypesAreExact }
{
    one_part();
    check_is_local();
    imports_bind_theirs();
    added_imports_are_judged();
    members_are_local();
    workspaces_have_snapshots();
}

/// So they are those that selectors have behind the name of a variable that the file declares with this type.
///
/// The Go specification, "Variable declarations", "Selectors", "Qualified identifiers", "Import declarations".
pub fn variables_are_exact()
    ensures { VariablesAreExact }
{
    one_part();
    check_is_local();
    imports_bind_theirs();
    added_imports_are_judged();
    members_are_local();
    workspaces_have_snapshots();
    parts_show_their_types();
}
