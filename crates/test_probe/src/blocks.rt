//! What the imports, the blocks and the faults of the packages of a workspace are.
use crate::show::{Lines, Named};
use go_graph_core::{ImportAt, ImportOutcome, Plan};
use go_package_core::package_part::Part;
use go_scope_core::block_core::{Blocks, DeclKind, DeclRef, Target};
use go_tree_core::{Role, occurrences};
use go_tree_nodes::File;
use std::alloc::Global;

/// A package with its blocks, among all packages.
#[derive(Clone, Copy)]
pub struct PackageBlocks<'a> {
    pub packages: &'a [Named],
    pub package: &'a Named,
    pub blocks: &'a Blocks,
}

/// The package of a number, where it has blocks.
pub fn place_of<'a>(
    packages: &'a [Named],
    parts: &'a [Option<Part>],
    number: usize,
) -> Option<PackageBlocks<'a>> {
    match (packages.get(number), parts.get(number)) {
        (Some(package), Some(Some(part))) => Some(PackageBlocks {
            packages,
            package,
            blocks: &part.content().blocks,
        }),
        _ => None,
    }
}

/// The path of the package of a number, and nothing where there is none.
fn path_of(packages: &[Named], number: usize) -> &str {
    match packages.get(number) {
        Some(package) => package.path.as_str(),
        None => "",
    }
}

/// Adds the imports of the file of a number: the place of each, and what it comes to: the path of a package, or the rule that refuses it.
pub fn add_imports(
    out: &mut Lines,
    alloc: Global,
    packages: &[Named],
    plan: &Plan,
    mut at: ImportAt,
    tree: &File,
) {
    let Ok(occs) = occurrences(alloc, tree) else {
        return out.cut();
    };
    for occ in &occs {
        if occ.role == Role::Import {
            out.add("import ");
            if let Some(package) = packages.get(at.package) {
                package.add_place(out, at.file, occ.span.start as usize);
            }
            out.add(" ");
            match plan.outcome(at) {
                Some(ImportOutcome::Package(number)) => out.line(path_of(packages, number)),
                Some(ImportOutcome::Refused(rule)) => out.refuse(rule),
                None => out.line("nothing"),
            }
            at.import = at.import.saturating_add(1);
        }
    }
}

/// Adds the paths of packages in an order.
pub fn add_order(out: &mut Lines, packages: &[Named], order: &[usize]) {
    out.add("order");
    for number in order {
        out.pieces(&[" ", path_of(packages, *number)]);
    }
    out.line("");
}

/// The word for what is declared.
pub fn kind_word(kind: DeclKind) -> &'static str {
    match kind {
        DeclKind::Const => "const",
        DeclKind::Var => "var",
        DeclKind::Type => "type",
        DeclKind::Func => "func",
        DeclKind::Method => "method",
        DeclKind::Field => "field",
        DeclKind::Param => "param",
    }
}

/// Adds a declaration: its kind and its place.
pub fn add_decl(out: &mut Lines, package: &Named, decl: DeclRef) {
    out.pieces(&[kind_word(decl.kind), " "]);
    package.add_decl(out, decl);
    out.line("");
}

/// Adds what a name of a file block denotes.
pub fn add_target(out: &mut Lines, packages: &[Named], target: &Target) {
    match target {
        Target::Package(path) => out.line(path.as_str()),
        Target::Refused(rule) => out.refuse(*rule),
        Target::Exported(key) => {
            for package in packages {
                if package.path.as_str() == key.path.as_str() {
                    return add_decl(out, package, key.decl);
                }
            }
        }
    }
}

/// Adds the blocks of a package, and the faults in them: the names of the package block, each with its kind and its place; the names that hold in the
/// blocks of the files, of each the place of its import, and what it denotes; and the faults.
pub fn add_blocks(out: &mut Lines, alloc: Global, place: PackageBlocks<'_>) {
    match place.blocks.names(alloc) {
        Ok(names) => {
            for named in &names {
                out.pieces(&["name ", named.name.as_str(), " "]);
                add_decl(out, place.package, named.decl);
            }
        }
        Err(_) => out.cut(),
    }
    for file in 0..place.package.files.len() {
        match place.blocks.file_names(alloc, file) {
            Ok(names) => {
                for name in &names {
                    if let Some(binding) = place.blocks.file(file, name) {
                        out.pieces(&["bound ", name, " "]);
                        place.package.add_place(out, file, binding.at);
                        out.add(" ");
                        add_target(out, place.packages, &binding.target);
                    }
                }
            }
            Err(_) => out.cut(),
        }
    }
    for fault in place.blocks.faults() {
        out.add("fault ");
        place.package.add_place(out, fault.file, fault.offset);
        out.add(" ");
        out.refuse(fault.rule.rule());
    }
}
