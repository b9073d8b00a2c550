//! Packages whose clauses have other names than their folders.

use crate::common::last_element;
use go_diagnostic_core::{Here, package_at};
use go_graph_core::PackageSource;
use go_tree_nodes::{ImportName, ImportSpec, ImportSpecs};

/// The name in the clause of the first file of a package; nothing where that has no tree.
pub(crate) fn clause_name(source: &PackageSource) -> &str {
    match source.files().first() {
        Some(file) => match file.clause() {
            Some(clause) => clause.name.as_str(),
            None => "",
        },
        None => "",
    }
}

/// Whether the clause of a package has another name than its folder.
pub(crate) fn has_other_name(source: &PackageSource) -> bool {
    let name = clause_name(source);
    !name.is_empty() && name != last_element(source.path().as_str())
}

/// The package that the file of a place imports by a path with this last element, where its clause has another name and the import gives it none.
pub(crate) fn imported_from<'s>(here: &Here<'s>, folder: &str) -> Option<&'s PackageSource> {
    let Ok(tree) = here.file.tree() else {
        return None;
    };
    for decl in &tree.imports {
        let found = imported_in(here, &decl.specs, folder);
        if found.is_some() {
            return found;
        }
    }
    None
}

// The package that an import declaration imports so.
fn imported_in<'s>(
    here: &Here<'s>,
    specs: &ImportSpecs,
    folder: &str,
) -> Option<&'s PackageSource> {
    match specs {
        ImportSpecs::One(spec) => imported_by(here, spec, folder),
        ImportSpecs::Group(_, lines, _) => {
            for line in lines {
                let found = imported_by(here, &line.spec, folder);
                if found.is_some() {
                    return found;
                }
            }
            None
        }
    }
}

// The package that an import imports so.
fn imported_by<'s>(here: &Here<'s>, spec: &ImportSpec, folder: &str) -> Option<&'s PackageSource> {
    if !matches!(&spec.name, ImportName::Own) {
        return None;
    }
    let source = package_at(here, spec.path.plain()?)?;
    if last_element(source.path().as_str()) == folder && has_other_name(source) {
        return Some(source);
    }
    None
}
