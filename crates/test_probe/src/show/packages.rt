//! The packages of a workspace as answers name them, and what each is.
use crate::show::lines::Lines;
use go_decl_core::{DeclRef, Place, outline};
use go_graph_core::{PackageSource, SourceFile, Workspace, assemble};
use go_scope_core::text_core::add;
use std::alloc::{AllocError, Global};

/// A file: its name, and the places of what it declares, which are none where it has no tree.
pub struct NamedFile {
    pub name: String,
    places: Vec<Place>,
    /// The offsets of what it declares outside functions, in order.
    declared: Vec<usize>,
}

impl Drop for NamedFile {
    fn drop(self) {
        let NamedFile {
            name: _,
            places: _,
            declared: _,
        } = self;
    }
}

/// The path of a package, and its files.
pub struct Named {
    pub path: String,
    pub files: Vec<NamedFile>,
}

impl Drop for Named {
    fn drop(self) {
        let Named { path: _, files: _ } = self;
    }
}

impl Named {
    /// The identifiers that the file of a number declares outside bodies, and none where it has no tree.
    pub fn places(&self, number: usize) -> &[Place] {
        match self.files.get(number) {
            Some(file) => file.places.as_slice(),
            None => &[],
        }
    }

    /// The offsets of the identifiers that declarations of the file of a number declare outside functions, in order; none where it has no tree.
    pub fn declared(&self, number: usize) -> &[usize] {
        match self.files.get(number) {
            Some(file) => file.declared.as_slice(),
            None => &[],
        }
    }

    /// Adds a place: the path of the package, the name of the file of a number, nothing where there is none, and an offset in bytes.
    pub fn add_place(&self, out: &mut Lines, file: usize, offset: usize) {
        let name = match self.files.get(file) {
            Some(file) => file.name.as_str(),
            None => "",
        };
        out.pieces(&[self.path.as_str(), "/", name]);
        out.count(":", offset, "");
    }

    /// Adds the place of a declaration, with the offset 0 where there is none of its number.
    pub fn add_decl(&self, out: &mut Lines, decl: DeclRef) {
        let offset = match self.places(decl.file).get(decl.number) {
            Some(place) => place.at,
            None => 0,
        };
        self.add_place(out, decl.file, offset);
    }
}

/// The name of a file and the places of what it declares.
fn name_file(alloc: Global, file: &SourceFile) -> Result<NamedFile, AllocError> {
    let name = String::from_str(alloc, file.name())?;
    let mut places = Vec::new(alloc);
    let mut declared = Vec::new(alloc);
    if let Ok(tree) = file.tree() {
        let outline = outline(alloc, tree)?;
        for place in outline.places.places() {
            add(&mut places, *place)?;
        }
        for decl in &outline.decls {
            add(&mut declared, decl.ident.span.start as usize)?;
        }
    }
    Ok(NamedFile {
        name,
        places,
        declared,
    })
}

/// The names of a package.
fn name_package(alloc: Global, source: &PackageSource) -> Result<Named, AllocError> {
    let mut files = Vec::new(alloc);
    for file in source.files() {
        add(&mut files, name_file(alloc, file)?)?;
    }
    let path = String::from_str(alloc, source.path().as_str())?;
    Ok(Named { path, files })
}

/// The names of the packages of a workspace, in order.
///
/// # Errors
///
/// `AllocError` for want of memory.
pub fn name_packages(alloc: Global, workspace: &Workspace) -> Result<Vec<Named>, AllocError> {
    let mut packages = Vec::new(alloc);
    for source in workspace.packages() {
        add(&mut packages, name_package(alloc, source)?)?;
    }
    Ok(packages)
}

/// Adds a package: its path and its name, or why its files are no package.
pub fn add_package(out: &mut Lines, source: &PackageSource) {
    out.pieces(&["package ", source.path().as_str(), " "]);
    let Ok(shared) = source.share() else {
        return out.cut();
    };
    match assemble(shared) {
        Ok(package) => out.line(package.name()),
        Err(fault) => {
            out.pieces(&[fault.rule.number(), " "]);
            if let Some(file) = source.files().get(fault.file) {
                out.add(file.name());
            }
            out.count(":", fault.offset, "\n");
        }
    }
}

/// Adds how many packages, files and trees a workspace has.
pub fn add_counts(out: &mut Lines, workspace: &Workspace) {
    let (mut files, mut trees) = (0usize, 0usize);
    for source in workspace.packages() {
        for file in source.files() {
            files = files.saturating_add(1);
            trees = trees.saturating_add(usize::from(file.tree().is_ok()));
        }
    }
    out.count("packages ", workspace.packages().len(), " files ");
    out.count("", files, " trees ");
    out.count("", trees, "\n");
}

/// Adds the files of a workspace: of each its path and name, whether it has a tree or which rule it breaks, and its text.
pub fn add_files(out: &mut Lines, workspace: &Workspace) {
    for source in workspace.packages() {
        for file in source.files() {
            let word = match file.tree() {
                Ok(_) => "tree",
                Err(fault) => fault.rule.number(),
            };
            out.pieces(&[source.path().as_str(), "/", file.name(), " "]);
            out.add(word);
            out.add(" ");
            out.quote(file.text().as_bytes());
        }
    }
}
