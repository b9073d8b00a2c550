//! The headline, with nothing to run.
ghost use Rattle.go_headline_laws.specs.Headline.{Headline};

use crate::separation::{
    own_paths, published_trees, runs_are_sound, submissions_are_own, trees_are_well,
};
use go_completion_laws::completions_are_exact;
use go_documentation_laws::types_are_exact;
use go_import_core::list::added_imports_are_judged;
use go_session_core::overlay::edits_change_one_file;
use go_submit_core::{batches_replace, last_trees, one_worker};
use go_workspace_laws::outcomes_are_of_occurrences;

/// After any list of what sessions send and workers do, in every published snapshot each import, name, selector, key and call has exactly the declaration
/// that the written rules give it, or the number of the rule it breaks. `list` shows exactly the packages that an import could name, `complete` exactly
/// the names that have a declaration once they are put there, and `doc` of another package is refused by exactly the rule that an import of it would break,
/// and of a type tells exactly what selectors behind a variable of it have.
/// An edit changes its session's module alone. Every answer is the one that one worker gives.
///
/// The Go specification, "Declarations and scope", "Import declarations", "Qualified identifiers", "Selectors", "Calls", "Composite literals".
pub fn headline()
    ensures { Headline }
{
    runs_are_sound();
    trees_are_well();
    own_paths();
    published_trees();
    submissions_are_own();
    edits_change_one_file();
    batches_replace();
    last_trees();
    one_worker();
    outcomes_are_of_occurrences();
    added_imports_are_judged();
    completions_are_exact();
    types_are_exact();
}
