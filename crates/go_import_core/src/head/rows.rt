//! Whether imports come to the same by two plans.
ghost use Rattle.std.specs.Prelude.{◌≡◌, ◌↔◌, IsTrue};
ghost use Rattle.go_import_core.specs.head.Rows.{EndsRow, EndsRows, HaveSameRow, HaveSameRows};

use go_graph_core::{ImportAt, ImportOutcome, Plan};
use go_path_core::text_core::Rule;

fn is_same_rule(one: Rule, other: Rule) -> bool
    ensures { IsTrue result ↔ (one ≡ other) }
{
    one == other
}

fn is_same_outcome(one: ImportOutcome, other: ImportOutcome) -> bool
    ensures { IsTrue result ↔ (one ≡ other) }
{
    match (one, other) {
        (ImportOutcome::Package(one), ImportOutcome::Package(other)) => one == other,
        (ImportOutcome::Refused(one), ImportOutcome::Refused(other)) => is_same_rule(one, other),
        (ImportOutcome::Package(_), ImportOutcome::Refused(_)) => false,
        (ImportOutcome::Refused(_), ImportOutcome::Package(_)) => false,
    }
}

// Whether the imports of a file come to the same by two plans.
fn same_row(one: &Plan, other: &Plan, package: usize, file: usize) -> bool
    ensures same { IsTrue result → HaveSameRow one.now other.now «package» file }
    ensures told { EndsRow one.now «package» file → HaveSameRow one.now other.now «package» file → IsTrue result }
{
    for import in 0..usize::MAX {
        let at = ImportAt {
            package,
            file,
            import,
        };
        match (one.outcome(at), other.outcome(at)) {
            (Some(one), Some(other)) => {
                if !is_same_outcome(one, other) {
                    return false;
                }
            }
            (None, None) => return true,
            (Some(_), None) => return false,
            (None, Some(_)) => return false,
        }
    }
    false
}

/// Whether the imports of a package that has so many files come to the same by two plans. The time is linear in its imports.
pub fn same_rows(one: &Plan, other: &Plan, package: usize, files: usize) -> bool
    ensures same { IsTrue result → HaveSameRows one.now other.now «package» files }
    // Where they do, it says so, if each file has fewer imports than a `usize` counts.
    ensures told { EndsRows one.now «package» files → HaveSameRows one.now other.now «package» files → IsTrue result }
{
    for file in 0..files {
        if !same_row(one, other, package, file) {
            return false;
        }
    }
    true
}
