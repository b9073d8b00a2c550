//! What imports lead to.
ghost use Rattle.std.specs.Prelude.{◌≡◌, ◌<◌, ◌↔◌, ◌∷◌, ℕ, List, [], false, IfOk, IsTrue, OnOk, length, slice_index_or};
ghost use Rattle.std.specs.List.{flat_map};
ghost use Rattle.go_tree_nodes.specs.Shapes.{shape_import_specs};
ghost use Rattle.go_tree_nodes.specs.Terminals.{value_of};
ghost use Rattle.go_graph_core.specs.Imports.{IsEdge, LiesOnCycle, edge, import_texts, texts_in};
ghost use Rattle.go_graph_core.specs.Workspaces.{IsWorkspace};
ghost use Rattle.go_import_core.specs.list.mirrors.Visits.{IsMarked, IsMet, IsTargetOf, IsVisited, Visits, line_texts};

use crate::list::judging::{number_of, target};
use go_graph_core::{ImportOutcome, PackageSource, SourceFile, Workspace};
use go_path_core::ImportPath;
use go_tree_nodes::{ImportLine, ImportSpec, ImportSpecs};
use std::alloc::{AllocError, Global};
use std::str;

// Marks a package and stacks it, unless it bears a mark.
fn visit(node: usize, marks: &mut [bool], stack: &mut Vec<usize>) -> Result<(), AllocError>
    requires { node < length marks.old }
    ensures { OnOk result (IsVisited node marks.old marks.new stack.old.items stack.new.items) }
{
    if !marks[node] {
        marks[node] = true;
        stack.push(node)?;
    }
    Ok(())
}

// Whether the package of a text, if there is one, bears a mark.
fn is_met(packages: &[PackageSource], text: &str, marks: &[bool]) -> bool
    requires well { IsWorkspace packages.now }
    requires many { length marks.now ≡ length packages.now }
    ensures { IsTrue result ↔ IsMet packages.now text.now marks.now }
{
    match number_of(packages, text) {
        Some(number) => marks[number],
        None => true,
    }
}

// Visits the package that an import of a text comes to.
fn visit_text(
    packages: &[PackageSource],
    from: &ImportPath,
    text: &str,
    marks: &mut [bool],
    stack: &mut Vec<usize>,
) -> Result<(), AllocError>
    requires well { IsWorkspace packages.now }
    requires many { length marks.old ≡ length packages.now }
    ensures { OnOk result (Visits (IsTargetOf packages.now from.now (text.now ∷ [])) marks.old marks.new stack.old.items stack.new.items) }
{
    // Most imports are of packages that were met before.
    if is_met(packages, text, marks) {
        return Ok(());
    }
    match target(packages, from, text)? {
        ImportOutcome::Package(number) => visit(number, marks, stack),
        ImportOutcome::Refused(_) => Ok(()),
    }
}

// Visits the package that an import of these bytes comes to.
fn visit_bytes(
    packages: &[PackageSource],
    from: &ImportPath,
    text: &[u8],
    marks: &mut [bool],
    stack: &mut Vec<usize>,
) -> Result<(), AllocError>
    requires well { IsWorkspace packages.now }
    requires many { length marks.old ≡ length packages.now }
    ensures { OnOk result (Visits (IsTargetOf packages.now from.now (text.now ∷ [])) marks.old marks.new stack.old.items stack.new.items) }
{
    let Ok(text) = str::from_utf8(text) else {
        return Ok(());
    };
    visit_text(packages, from, text, marks, stack)
}

// Visits the package that an import comes to.
fn visit_spec(
    alloc: Global,
    packages: &[PackageSource],
    from: &ImportPath,
    spec: &ImportSpec,
    marks: &mut [bool],
    stack: &mut Vec<usize>,
) -> Result<(), AllocError>
    requires well { IsWorkspace packages.now }
    requires many { length marks.old ≡ length packages.now }
    ensures { OnOk result (Visits (IsTargetOf packages.now from.now (value_of spec.now.path ∷ [])) marks.old marks.new stack.old.items stack.new.items) }
{
    match spec.path.plain() {
        Some(text) => visit_text(packages, from, text, marks, stack),
        None => {
            let text = spec.path.value(alloc)?;
            visit_bytes(packages, from, &text, marks, stack)
        }
    }
}

// Visits the packages that the imports in parentheses come to.
fn visit_lines(
    alloc: Global,
    packages: &[PackageSource],
    from: &ImportPath,
    lines: &[ImportLine],
    marks: &mut [bool],
    stack: &mut Vec<usize>,
) -> Result<(), AllocError>
    requires well { IsWorkspace packages.now }
    requires many { length marks.old ≡ length packages.now }
    ensures { OnOk result (Visits (IsTargetOf packages.now from.now (flat_map line_texts lines.now)) marks.old marks.new stack.old.items stack.new.items) }
{
    for line in lines {
        visit_spec(alloc, packages, from, &line.spec, marks, stack)?;
    }
    Ok(())
}

// Visits the packages that the imports of one declaration come to.
fn visit_specs(
    alloc: Global,
    packages: &[PackageSource],
    from: &ImportPath,
    specs: &ImportSpecs,
    marks: &mut [bool],
    stack: &mut Vec<usize>,
) -> Result<(), AllocError>
    requires well { IsWorkspace packages.now }
    requires many { length marks.old ≡ length packages.now }
    ensures { OnOk result (Visits (IsTargetOf packages.now from.now (texts_in (shape_import_specs specs.now))) marks.old marks.new stack.old.items stack.new.items) }
{
    match specs {
        ImportSpecs::One(spec) => visit_spec(alloc, packages, from, spec, marks, stack),
        ImportSpecs::Group(_, lines, _) => visit_lines(alloc, packages, from, lines, marks, stack),
    }
}

// Visits the packages that the imports of a file come to.
fn visit_file(
    alloc: Global,
    packages: &[PackageSource],
    from: &ImportPath,
    file: &SourceFile,
    marks: &mut [bool],
    stack: &mut Vec<usize>,
) -> Result<(), AllocError>
    requires well { IsWorkspace packages.now }
    requires many { length marks.old ≡ length packages.now }
    ensures { OnOk result (Visits (IsTargetOf packages.now from.now (import_texts file.now)) marks.old marks.new stack.old.items stack.new.items) }
{
    let Ok(tree) = file.tree() else {
        return Ok(());
    };
    for import in &tree.imports {
        visit_specs(alloc, packages, from, &import.specs, marks, stack)?;
    }
    Ok(())
}

// Visits the packages that the imports of files come to.
fn visit_files(
    alloc: Global,
    packages: &[PackageSource],
    from: &ImportPath,
    files: &[SourceFile],
    marks: &mut [bool],
    stack: &mut Vec<usize>,
) -> Result<(), AllocError>
    requires well { IsWorkspace packages.now }
    requires many { length marks.old ≡ length packages.now }
    ensures { OnOk result (Visits (IsTargetOf packages.now from.now (flat_map import_texts files.now)) marks.old marks.new stack.old.items stack.new.items) }
{
    for file in files {
        visit_file(alloc, packages, from, file, marks, stack)?;
    }
    Ok(())
}

// Visits the packages that the imports of the package of a number come to.
fn visit_package(
    alloc: Global,
    packages: &[PackageSource],
    number: usize,
    marks: &mut [bool],
    stack: &mut Vec<usize>,
) -> Result<(), AllocError>
    requires well { IsWorkspace packages.now }
    requires many { length marks.old ≡ length packages.now }
    requires number { number < length packages.now }
    ensures { OnOk result (Visits (λ to. IsEdge packages.now (edge number to)) marks.old marks.new stack.old.items stack.new.items) }
{
    let source = &packages[number];
    visit_files(alloc, packages, source.path(), source.files(), marks, stack)
}

// Marks packages that imports lead to from one, until there is no other or a certain one is met.
fn mark_until(
    alloc: Global,
    packages: &[PackageSource],
    start: usize,
    own: usize,
    marks: &mut [bool],
) -> Result<(), AllocError>
    requires well { IsWorkspace packages.now }
    requires many { length marks.old ≡ length packages.now }
    requires none { (v : ℕ) → slice_index_or marks.old v false ≡ false }
    requires start { start < length packages.now }
    requires own { own < length packages.now }
    ensures { OnOk result (IsMarked marks.new own ↔ LiesOnCycle packages.now (edge own start)) }
{
    let mut stack = Vec::new(alloc);
    visit(start, marks, &mut stack)?;
    while !marks[own] {
        let Some(number) = stack.pop() else {
            return Ok(());
        };
        visit_package(alloc, packages, number, marks, &mut stack)?;
    }
    Ok(())
}

/// Whether imports that break none of the rules before `Rule::I4` lead from the package of a number to that of another, or it is this one. The time
/// is linear in the imports of the packages that they lead to from it, each of which is looked up by its path, and a byte is written for each package.
///
/// # Errors
///
/// `AllocError` where memory is wanting.
pub(crate) fn leads_to(
    alloc: Global,
    workspace: &Workspace,
    start: usize,
    own: usize,
) -> Result<bool, AllocError>
    requires start { start < length workspace.now }
    requires own { own < length workspace.now }
    ensures { IfOk result (λ b. IsTrue b ↔ LiesOnCycle workspace.now (edge own start)) }
{
    let packages = workspace.packages();
    let mut marks = vec![in alloc; false; packages.len()]?;
    mark_until(alloc, packages, start, own, &mut marks)?;
    Ok(marks[own])
}
