//! Equality of what inputs hold.
ghost use Rattle.std.specs.Prelude.{◌≡◌, ◌↔◌, IsTrue, map};
ghost use Rattle.go_block_core.specs.Naming.{imported_in};

use go_block_core::Imported;
use go_path_core::text_core::Rule;
use go_report_core::summary_core::same_exports;

// Whether two rules are the same.
fn is_same_rule(one: Rule, other: Rule) -> bool
    ensures { IsTrue result ↔ (one ≡ other) }
{
    one == other
}

// Whether two imports come to the same.
fn is_same_imported(one: &Imported, other: &Imported) -> bool
    ensures { IsTrue result ↔ (one.now ≡ other.now) }
{
    match (one, other) {
        (Imported::Package(one), Imported::Package(other)) => same_exports(one, other),
        (Imported::Refused(one), Imported::Refused(other)) => is_same_rule(*one, *other),
        (Imported::Package(_), Imported::Refused(_)) => false,
        (Imported::Refused(_), Imported::Package(_)) => false,
    }
}

// Whether the imports of two files come to the same, in order.
fn same_of_file(imports: &[Imported], others: &[Imported]) -> bool
    ensures { IsTrue result ↔ (imports.now ≡ others.now) }
{
    if imports.len() != others.len() {
        return false;
    }
    for place in 0..imports.len() {
        if !is_same_imported(&imports[place], &others[place]) {
            return false;
        }
    }
    true
}

// Whether the imports of two files come to the same, in order.
fn is_same_file(imports: &Vec<Imported>, others: &Vec<Imported>) -> bool
    ensures { IsTrue result ↔ (imported_in imports.now ≡ imported_in others.now) }
{
    same_of_file(imports.as_slice(), others.as_slice())
}

/// Whether the imports of all files of two packages come to the same, in order.
pub fn same_imports(files: &[Vec<Imported>], others: &[Vec<Imported>]) -> bool
    ensures { IsTrue result ↔ (map imported_in files.now ≡ map imported_in others.now) }
{
    if files.len() != others.len() {
        return false;
    }
    for place in 0..files.len() {
        if !is_same_file(&files[place], &others[place]) {
            return false;
        }
    }
    true
}
