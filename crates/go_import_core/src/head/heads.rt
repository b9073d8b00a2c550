//! Whether files and packages have the same heads.
ghost use Rattle.std.specs.Prelude.{◌≡◌, ◌↔◌, IsTrue, map};
ghost use Rattle.go_tree_nodes.specs.Shapes.{file_of, import_of, shape_import_specs};
ghost use Rattle.go_graph_core.specs.Sources.{clause_of};
ghost use Rattle.go_import_core.specs.head.Heads.{name_in, spelled_head_of, spelled_head_of_file, spelled_imports, spelled_in, spelled_of};

use go_graph_core::{PackageSource, SourceFile};
use go_tree_nodes::{File, ImportDecl, ImportLine, ImportSpec, ImportSpecs};

// Whether two imports are spelled alike.
fn is_same_spec(one: &ImportSpec, other: &ImportSpec) -> bool
    ensures { IsTrue result ↔ (one.now.path.spelled ≡ other.now.path.spelled) }
{
    one.path.spelled.as_str() == other.path.spelled.as_str()
}

fn is_same_line(one: &ImportLine, other: &ImportLine) -> bool
    ensures { IsTrue result ↔ (one.now.spec.path.spelled ≡ other.now.spec.path.spelled) }
{
    is_same_spec(&one.spec, &other.spec)
}

// Whether the imports of two groups are spelled alike, in order.
fn same_lines(lines: &[ImportLine], others: &[ImportLine]) -> bool
    ensures { IsTrue result ↔ (map (λ l. l.spec.path.spelled) lines.now ≡ map (λ l. l.spec.path.spelled) others.now) }
{
    if lines.len() != others.len() {
        return false;
    }
    for place in 0..lines.len() {
        if !is_same_line(&lines[place], &others[place]) {
            return false;
        }
    }
    true
}

// Whether two declarations have the same imports, spelled alike and in the same form.
fn is_same_specs(one: &ImportSpecs, other: &ImportSpecs) -> bool
    ensures { IsTrue result ↔ (spelled_in (shape_import_specs one.now) ≡ spelled_in (shape_import_specs other.now)) }
{
    match (one, other) {
        (ImportSpecs::One(one), ImportSpecs::One(other)) => is_same_spec(one, other),
        (ImportSpecs::Group(_, lines, _), ImportSpecs::Group(_, others, _)) => {
            same_lines(lines.as_slice(), others.as_slice())
        }
        (ImportSpecs::One(_), ImportSpecs::Group(_, _, _)) => false,
        (ImportSpecs::Group(_, _, _), ImportSpecs::One(_)) => false,
    }
}

fn is_same_import(one: &ImportDecl, other: &ImportDecl) -> bool
    ensures { IsTrue result ↔ (spelled_in (import_of one.now).specs ≡ spelled_in (import_of other.now).specs) }
{
    is_same_specs(&one.specs, &other.specs)
}

// Whether two lists of declarations have the same imports, in order, each spelled alike and in the same form.
fn same_imports(imports: &[ImportDecl], others: &[ImportDecl]) -> bool
    ensures { IsTrue result ↔ (map (λ i. spelled_in (import_of i).specs) imports.now ≡ map (λ i. spelled_in (import_of i).specs) others.now) }
{
    if imports.len() != others.len() {
        return false;
    }
    for place in 0..imports.len() {
        if !is_same_import(&imports[place], &others[place]) {
            return false;
        }
    }
    true
}

fn same_of_trees(one: &File, other: &File) -> bool
    ensures { IsTrue result ↔ (spelled_imports (file_of one.now) ≡ spelled_imports (file_of other.now)) }
{
    same_imports(one.imports.as_slice(), other.imports.as_slice())
}

// Whether two files have trees with the same imports, in order, spelled alike, or have no tree both.
fn is_spelled_alike(one: &SourceFile, other: &SourceFile) -> bool
    ensures { IsTrue result ↔ (spelled_of one.now.content ≡ spelled_of other.now.content) }
{
    match (one.tree(), other.tree()) {
        (Ok(one), Ok(other)) => same_of_trees(one, other),
        (Err(_), Err(_)) => true,
        (Ok(_), Err(_)) => false,
        (Err(_), Ok(_)) => false,
    }
}

// Whether the clauses of two files have one name, or there is none of both.
fn is_same_clause(one: &SourceFile, other: &SourceFile) -> bool
    ensures { IsTrue result ↔ (name_in (clause_of one.now) ≡ name_in (clause_of other.now)) }
{
    match (one.clause(), other.clause()) {
        (Some(one), Some(other)) => one.name.as_str() == other.name.as_str(),
        (None, None) => true,
        (Some(_), None) => false,
        (None, Some(_)) => false,
    }
}

// Whether two files have the same head, spelled alike.
fn is_same_head(one: &SourceFile, other: &SourceFile) -> bool
    ensures { IsTrue result ↔ (spelled_head_of_file one.now ≡ spelled_head_of_file other.now) }
{
    is_same_clause(one, other) && is_spelled_alike(one, other)
}

// Whether the files of two packages have the same heads, in order.
fn same_heads(files: &[SourceFile], others: &[SourceFile]) -> bool
    ensures { IsTrue result ↔ (map spelled_head_of_file files.now ≡ map spelled_head_of_file others.now) }
{
    if files.len() != others.len() {
        return false;
    }
    for place in 0..files.len() {
        if !is_same_head(&files[place], &others[place]) {
            return false;
        }
    }
    true
}

/// Whether two packages have one path, and files with the same heads, in order, whose imports are spelled alike. It takes no memory; the time is linear
/// in the imports.
pub(crate) fn is_same_package_head(one: &PackageSource, other: &PackageSource) -> bool
    ensures { IsTrue result ↔ (spelled_head_of one.now ≡ spelled_head_of other.now) }
{
    one.path().is_same(other.path()) && same_heads(one.files(), other.files())
}
