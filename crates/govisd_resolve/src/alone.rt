//! A file as the one file of the one package of a workspace.
ghost use Rattle.std.specs.Prelude.{◌≡◌, [], ◌∷◌, IfOk, map, string_bytes};
ghost use Rattle.go_tree_nodes.specs.Shapes.{file_of};
ghost use Rattle.go_block_core.specs.graph_core.Packages.{trees_of};
ghost use Rattle.go_block_core.specs.graph_core.Workspaces.{PackageModel, given_files};
ghost use Rattle.go_block_core.specs.Naming.{AreInFile, HaveOneEach, import_at, imported_in};
ghost use Rattle.go_package_core.specs.package_part.Inputs.{input_with};
ghost use Rattle.govisd_resolve.specs.Alone.{the_name};
ghost use Rattle.govisd_resolve.specs.mirrors.Making.{AreRefusedAlone, AreRefusedIn, HasText, IsGivenIn, IsInputIn, IsOwn, IsRefusedIn};

use go_block_core::graph_core::{ImportAt, ImportOutcome, Package, Plan, Workspace, plan_imports};
use go_block_core::{Imported, import_specs};
use go_package_core::package_part::{Part, PartInput, compile_part};
use go_package_core::summary_core::ReachedSummaries;
use go_path_core::ImportPath;
use go_path_core::text_core::add;
use go_tree_nodes::File;
use std::alloc::{AllocError, Global};

// The one file, by its name and its text.
fn one_file(alloc: Global, text: String) -> Result<Vec<(String, String)>, AllocError>
    ensures { IfOk result (λ files. given_files files.items ≡ (the_name, string_bytes text) ∷ []) }
{
    let name = String::from_str(alloc, "in.go")?;
    let mut files = Vec::new(alloc);
    add(&mut files, (name, text))?;
    Ok(files)
}

/// The workspace whose one package has a text as its one file: the file `in.go` of the package of the path `local`.
///
/// # Errors
///
/// `AllocError` where memory is wanting.
pub(crate) fn workspace_of(alloc: Global, text: String) -> Result<Workspace, AllocError>
    ensures { IfOk result (HasText (string_bytes text)) }
{
    // The path is well formed: the one error is want of memory.
    let Ok(path) = ImportPath::read(alloc, "local") else {
        return Err(AllocError);
    };
    let files = one_file(alloc, text)?;
    let mut workspace = Workspace::empty(alloc);
    match workspace.put(alloc, &path, files) {
        Ok(()) => Ok(workspace),
        Err(_) => Err(AllocError),
    }
}

// What the import of a number comes to.
fn imported_at(plan: &Plan, import: usize) -> Imported
    requires { IsRefusedIn plan.now.outcomes (import_at 0 0 import) }
    ensures { IsGivenIn plan.now.outcomes (import_at 0 0 import) result }
{
    let at = ImportAt {
        package: 0,
        file: 0,
        import,
    };
    match plan.outcome(at) {
        Some(ImportOutcome::Refused(rule)) => Imported::Refused(rule),
        // There is no package but the import's own, and that lies on a cycle.
        Some(ImportOutcome::Package(_)) => unreachable!(),
        None => unreachable!(),
    }
}

// What the imports of the one file come to, in order of place.
fn file_imports(alloc: Global, plan: &Plan, tree: &File) -> Result<Vec<Imported>, AllocError>
    requires { AreRefusedIn plan.now.outcomes (file_of tree.now) }
    ensures { IfOk result (λ imports. AreInFile (IsGivenIn plan.now.outcomes) 0 0 (file_of tree.now) imports.items) }
{
    let specs = import_specs(alloc, &tree.imports)?;
    let mut imports = Vec::with_capacity(alloc, specs.len())?;
    for import in 0..specs.len() {
        add(&mut imports, imported_at(plan, import))?;
    }
    Ok(imports)
}

// What the imports of the one file of a workspace come to, which has this tree, as those of the files of its package.
fn imports_alone(
    alloc: Global,
    workspace: &Workspace,
    tree: &File,
) -> Result<Vec<Vec<Imported>>, AllocError>
    requires { (p : PackageModel) × IsOwn workspace.now p (file_of tree.now) }
    ensures { IfOk result (λ imports. AreRefusedAlone workspace.now (file_of tree.now) (map imported_in imports.items)) }
{
    let plan = plan_imports(alloc, workspace)?;
    let of_file = file_imports(alloc, &plan, tree)?;
    let mut imports = Vec::new(alloc);
    add(&mut imports, of_file)?;
    Ok(imports)
}

// The part of a package that reaches no other, by what its imports come to.
fn compile_alone(
    alloc: Global,
    package: Package,
    imports: Vec<Vec<Imported>>,
) -> Result<Part, AllocError>
    requires { HaveOneEach (trees_of «package».1) (map imported_in imports.items) }
    ensures { IfOk result (λ p. p.input ≡ input_with «package» (map imported_in imports.items) []) }
{
    let reached = ReachedSummaries::none(alloc);
    let input = PartInput::new(alloc, package, imports, reached)?;
    compile_part(alloc, &input)
}

/// The part of the one package of a workspace, whose one file has this tree.
///
/// # Errors
///
/// `AllocError` where memory is wanting.
pub(crate) fn part_of(
    alloc: Global,
    workspace: &Workspace,
    tree: &File,
    package: Package,
) -> Result<Part, AllocError>
    requires { IsOwn workspace.now «package» (file_of tree.now) }
    ensures { IfOk result (λ p. IsInputIn workspace.now «package» (file_of tree.now) p.input) }
{
    let imports = imports_alone(alloc, workspace, tree)?;
    compile_alone(alloc, package, imports)
}
