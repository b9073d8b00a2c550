//! What the parts of the packages of a workspace are made from.
ghost use Rattle.std.specs.Prelude.{◌≡◌, IfOk, Some, length, map, slice_get};
ghost use Rattle.go_tree_nodes.specs.Shapes.{file_of};
ghost use Rattle.go_graph_core.specs.Packages.{trees_of};
ghost use Rattle.go_graph_core.specs.Plans.{AreReached, IsAssembledAt, IsPlan};
ghost use Rattle.go_names_core.specs.block_core.Naming.{AreInFile, AreInPackage, IsGiven, imported_in};
ghost use Rattle.go_names_core.specs.block_core.mirrors.Steps.{AreReady, AreReadyIn, HasExports, IsPlanned, IsReady, IsShownIn};
ghost use Rattle.go_snap_core.specs.whole_workspace.Inputs.{ComesTo, HasReached, IsInputAt};
ghost use Rattle.go_snap_core.specs.whole_workspace.mirrors.Steps.{AreToldBySet, exports_in};
ghost use Rattle.go_snap_core.specs.make.Telling.{told_of};
ghost use Rattle.go_snap_core.specs.make.mirrors.Telling.{AreToldFor, AreToldOf};

use crate::make::told::Told;
use go_digraph_core::reach::Reached;
use go_emit_core::package_core::{Part, PartInput};
use go_graph_core::{ImportAt, ImportOutcome, Package, PackageSource, Plan, Workspace, assemble};
use go_names_core::block_core::{Imported, import_specs};
use go_path_core::text_core::add;
use go_report_core::summary_core::{ReachedSummaries, import_view};
use go_tree_nodes::File;
use std::alloc::{AllocError, Global};

/// What an import of this outcome comes to, where these are the parts of packages by their numbers.
fn given(outcome: ImportOutcome, parts: &[Option<Part>]) -> Result<Imported, AllocError>
    requires { HasExports (exports_in parts.now) outcome }
    ensures { IfOk result (IsGiven (IsShownIn (exports_in parts.now)) outcome) }
{
    match outcome {
        ImportOutcome::Package(number) => match &parts[number] {
            Some(part) => import_view(part.summary()),
            None => unreachable!(),
        },
        ImportOutcome::Refused(rule) => Ok(Imported::Refused(rule)),
    }
}

/// What the import at a place comes to.
fn imported_at(plan: &Plan, at: ImportAt, parts: &[Option<Part>]) -> Result<Imported, AllocError>
    requires { IsReady plan.now.outcomes (exports_in parts.now) at }
    ensures { IfOk result (IsPlanned plan.now.outcomes (exports_in parts.now) at) }
{
    let Some(outcome) = plan.outcome(at) else {
        unreachable!()
    };
    given(outcome, parts)
}

/// What the imports of a file come to, the package and the file by their numbers.
fn file_imports(
    alloc: Global,
    plan: &Plan,
    package: usize,
    file: usize,
    tree: &File,
    parts: &[Option<Part>],
) -> Result<Vec<Imported>, AllocError>
    requires { AreReadyIn plan.now.outcomes (exports_in parts.now) «package» file (file_of tree.now) }
    ensures { IfOk result (λ imported. AreInFile (IsPlanned plan.now.outcomes (exports_in parts.now)) «package» file (file_of tree.now) imported.items) }
{
    let specs = import_specs(alloc, &tree.imports)?;
    let mut imported = Vec::with_capacity(alloc, specs.len())?;
    for import in 0..specs.len() {
        let at = ImportAt {
            package,
            file,
            import,
        };
        add(&mut imported, imported_at(plan, at, parts)?)?;
    }
    Ok(imported)
}

/// What the imports of each file of a package come to.
fn package_imports(
    alloc: Global,
    plan: &Plan,
    number: usize,
    package: &Package,
    parts: &[Option<Part>],
) -> Result<Vec<Vec<Imported>>, AllocError>
    requires { AreReady plan.now.outcomes (exports_in parts.now) number (trees_of «package».now.1) }
    ensures { IfOk result (λ imported. AreInPackage (IsPlanned plan.now.outcomes (exports_in parts.now)) number (trees_of «package».now.1) (map imported_in imported.items)) }
{
    let files = package.files();
    let mut imported = Vec::with_capacity(alloc, files.len())?;
    for file in 0..files.len() {
        let tree = package.tree(file);
        let of_file = file_imports(alloc, plan, number, file, tree, parts)?;
        add(&mut imported, of_file)?;
    }
    Ok(imported)
}

/// What the packages tell that the package of a number reaches, in order of number.
fn told_to(
    alloc: Global,
    reached: &Reached,
    number: usize,
    told: &Told,
) -> Result<ReachedSummaries, AllocError>
    requires { AreToldFor reached.now told.now number }
    ensures { IfOk result (AreToldOf reached.now told.now number) }
{
    let Some(set) = reached.of(number) else {
        unreachable!()
    };
    let summaries = told.by(alloc, set)?;
    Ok(summaries)
}

/// What the imports of the package of a number come to, file by file, and what the packages tell that it reaches.
fn given_to(
    alloc: Global,
    plan: &Plan,
    reached: &Reached,
    number: usize,
    package: &Package,
    parts: &[Option<Part>],
    told: &Told,
) -> Result<(Vec<Vec<Imported>>, ReachedSummaries), AllocError>
    requires imports { AreReady plan.now.outcomes (exports_in parts.now) number (trees_of «package».now.1) }
    requires told { AreToldFor reached.now told.now number }
    ensures imports { IfOk result (λ found. AreInPackage (IsPlanned plan.now.outcomes (exports_in parts.now)) number (trees_of «package».now.1) (map imported_in found.0.items)) }
    ensures told { IfOk result (λ found. AreToldOf reached.now told.now number found.1) }
{
    let imports = package_imports(alloc, plan, number, package, parts)?;
    let summaries = told_to(alloc, reached, number, told)?;
    Ok((imports, summaries))
}

/// The assembled package of a number.
fn package_at(packages: &[PackageSource], number: usize) -> Result<Package, AllocError>
    requires { IsAssembledAt packages.now number }
    ensures { IfOk result (λ p. slice_get packages.now number ≡ Some p) }
{
    match assemble(packages[number].share()?) {
        Ok(package) => Ok(package),
        Err(_) => unreachable!(),
    }
}

/// What the part of an assembled package is made from, by the number of the package, where these are the plan of its workspace, what packages reach by
/// it, the parts of packages by their numbers, at least of those that this package reaches, and what the packages with parts tell. The summaries of the
/// input are the parts' own, in order of number; they are shared.
///
/// The Go specification, "Import declarations".
///
/// # Errors
///
/// `AllocError` where memory is wanting.
pub fn input_of(
    alloc: Global,
    workspace: &Workspace,
    plan: &Plan,
    reached: &Reached,
    number: usize,
    parts: &[Option<Part>],
    told: &Told,
) -> Result<PartInput, AllocError>
    requires plan { IsPlan workspace.now plan.now }
    requires reached { AreReached plan.now reached.now }
    requires many { length reached.now ≡ length plan.now.outcomes }
    requires assembled { IsAssembledAt workspace.now number }
    requires parts { HasReached workspace.now parts.now number }
    requires told { told.now ≡ told_of parts.now }
    ensures input { IfOk result (IsInputAt workspace.now parts.now number) }
    ensures told { IfOk result (λ i. AreToldBySet reached.now parts.now number i.reached) }
{
    let packages = workspace.packages();
    let package = package_at(packages, number)?;
    let (imports, summaries) = given_to(alloc, plan, reached, number, &package, parts, told)?;
    let input = PartInput::new(alloc, package, imports, summaries)?;
    Ok(input)
}

/// The same where an earlier input has the files of the package, and what its imports come to: these are shared.
///
/// The Go specification, "Import declarations".
///
/// # Errors
///
/// `AllocError` where memory is wanting.
pub fn input_over(
    alloc: Global,
    workspace: &Workspace,
    plan: &Plan,
    reached: &Reached,
    number: usize,
    parts: &[Option<Part>],
    told: &Told,
    earlier: &PartInput,
) -> Result<PartInput, AllocError>
    requires plan { IsPlan workspace.now plan.now }
    requires reached { AreReached plan.now reached.now }
    requires many { length reached.now ≡ length plan.now.outcomes }
    requires assembled { IsAssembledAt workspace.now number }
    requires parts { HasReached workspace.now parts.now number }
    requires told { told.now ≡ told_of parts.now }
    requires numbered { slice_get workspace.now number ≡ Some earlier.now.source }
    requires imports { AreInPackage (ComesTo workspace.now parts.now) number (trees_of earlier.now.source.1) earlier.now.imports }
    ensures { IfOk result (IsInputAt workspace.now parts.now number) }
{
    // Its packages stand in order of path, and these are their plan and their parts.
    let _packages = workspace.packages();
    let (_, _) = (plan, parts);
    let summaries = told_to(alloc, reached, number, told)?;
    let input = earlier.with_reached(alloc, summaries)?;
    Ok(input)
}
