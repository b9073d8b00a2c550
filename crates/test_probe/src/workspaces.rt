//! What is answered of workspaces.
use crate::blocks::{add_blocks, add_imports, add_order, place_of};
use crate::keys::add_keys;
use crate::plans::add_plan;
use crate::scopes::add_scope;
use crate::show::{Lines, Named, add_counts, add_files, add_package, name_packages, put_archive};
use go_decl_core::path_core::Module;
use go_graph_core::{ImportAt, Plan, Workspace, plan_imports};
use go_scope_core::text_core::Rule;
use go_snap_core::compile;
use std::alloc::Global;

/// Adds the packages of a workspace, their imports and their order.
fn add_packages(
    out: &mut Lines,
    alloc: Global,
    workspace: &Workspace,
    packages: &[Named],
    plan: &Plan,
) {
    for source in workspace.packages() {
        add_package(out, source);
    }
    let mut package = 0usize;
    for source in workspace.packages() {
        let mut file = 0usize;
        for read in source.files() {
            let at = ImportAt {
                package,
                file,
                import: 0,
            };
            if let Ok(tree) = read.tree() {
                add_imports(out, alloc, packages, plan, at, tree);
            }
            file = file.saturating_add(1);
        }
        package = package.saturating_add(1);
    }
    add_order(out, packages, plan.order());
}

/// Adds what is asked of a workspace whose imports are planned: of the names in its files, and else of the blocks of its packages, or what their
/// files declare. The blocks are those of its snapshot, and the text is that of its archive.
fn add_planned(
    out: &mut Lines,
    alloc: Global,
    kind: &str,
    workspace: &Workspace,
    packages: &[Named],
    plan: &Plan,
    text: &str,
) {
    let Ok(snapshot) = compile(alloc, workspace) else {
        return out.cut();
    };
    let parts = snapshot.parts();
    if kind == "scope" {
        add_scope(out, alloc, packages, parts, text);
    } else {
        if kind == "packages" {
            add_packages(out, alloc, workspace, packages, plan);
        }
        let mut number = 0usize;
        for source in workspace.packages() {
            if let Some(place) = place_of(packages, parts, number) {
                match kind {
                    "keys" => add_keys(out, place.package, source),
                    _ => add_blocks(out, alloc, place),
                }
            }
            number = number.saturating_add(1);
        }
    }
    drop(snapshot);
}

/// Adds what is asked of the imports of a workspace, or of what stands on them.
fn add_of_plan(out: &mut Lines, alloc: Global, kind: &str, workspace: &Workspace, text: &str) {
    let Ok(plan) = plan_imports(alloc, workspace) else {
        return out.cut();
    };
    if kind == "plan" {
        return add_plan(out, workspace, &plan);
    }
    match name_packages(alloc, workspace) {
        Ok(packages) => add_planned(
            out,
            alloc,
            kind,
            workspace,
            packages.as_slice(),
            &plan,
            text,
        ),
        Err(_) => out.cut(),
    }
}

/// Puts the packages of an archive into a workspace, and then, in the place of those inside a module, the packages of another
/// archive. The module stands on the text's first line, and `==` on the line between the archives.
fn put_replaced(workspace: &mut Workspace, alloc: Global, text: &str) -> Result<(), Rule> {
    let (module, archives) = text.split_once('\n').unwrap_or((text, ""));
    let (old, new) = archives.split_once("==\n").unwrap_or((archives, ""));
    put_archive(workspace, alloc, old)?;
    let module = Module::read(alloc, module)?;
    let mut from = Workspace::empty(alloc);
    put_archive(&mut from, alloc, new)?;
    workspace.replace(&module, &from)
}

/// Puts the files into a workspace that an archive writes, of the kind `keys` with a file in front.
fn put_archive_of(
    workspace: &mut Workspace,
    alloc: Global,
    kind: &str,
    text: &str,
) -> Result<(), Rule> {
    match kind {
        "replaced" => put_replaced(workspace, alloc, text),
        "keys" => {
            let mut archive = Lines::new(alloc);
            archive.pieces(&["-- local/in.go --\n", text]);
            match archive.finish() {
                Ok(archive) => put_archive(workspace, alloc, archive.as_str()),
                Err(_) => Err(Rule::M0),
            }
        }
        _ => put_archive(workspace, alloc, text),
    }
}

/// Adds what is asked of the workspace of an archive.
pub fn add_answer(out: &mut Lines, alloc: Global, kind: &str, text: &str) {
    let mut workspace = Workspace::empty(alloc);
    match put_archive_of(&mut workspace, alloc, kind, text) {
        Ok(()) => match kind {
            "sources" => add_counts(out, &workspace),
            "replaced" => add_files(out, &workspace),
            "copied" => match workspace.copy(alloc) {
                Ok(copied) => add_files(out, &copied),
                Err(_) => out.cut(),
            },
            _ => add_of_plan(out, alloc, kind, &workspace, text),
        },
        Err(rule) => out.refuse(rule),
    }
}
