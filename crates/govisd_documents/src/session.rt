//! What is known of a module and of an editor's texts.

use crate::documents::Document;
use crate::modules::{Module, folder_of, module_of_package, package_in};
use crate::paths::{folder_and_name, path_below, path_of_uri, uri_of_path};
use go_edit_core::recompile_edit;
use go_folder_core::below;
use go_graph_core::{PackageSource, SourceFile, Workspace};
use go_lsp_core::positions::Encoding;
use go_path_core::ImportPath;
use go_path_core::text_core::Rule;
use go_snap_core::{PlacedFault, Recompiled, Snapshot, compile};
use std::alloc::{AllocError, Global};
use std::collections::BTreeMap;

/// How far a session is.
#[derive(Clone, Copy, PartialEq, Eq)]
pub enum Phase {
    /// Before `initialize`.
    Begun,
    /// After it.
    Open,
    /// After `shutdown`.
    Shut,
}

/// What is known of a module and of an editor's texts.
#[derive(Drop)]
pub struct Session {
    pub alloc: Global,
    pub phase: Phase,
    /// What the editor counts characters in.
    pub encoding: Encoding,
    /// Whether the editor can be asked to say where files of the folder change.
    pub can_watch: bool,
    /// The path of the folder of the workspace; empty as long as there is none.
    pub root: String,
    /// The modules in it.
    pub modules: Vec<Module>,
    /// The packages, with what stands in for texts that do not parse.
    pub workspace: Workspace,
    /// The snapshot of the packages, as they were when it was made.
    pub snapshot: Snapshot,
    /// Of each package of the snapshot, by its number, whether its part is that of the snapshot before; empty where that had other packages.
    pub kept: Vec<bool>,
    /// Whether the packages were changed since then.
    pub is_stale: bool,
    /// Whether the editor opened or closed a file since something was told last.
    pub is_untold: bool,
    /// The files that the editor has open, by their paths.
    pub documents: BTreeMap<String, Document>,
    /// What was told of files, by their paths below the folder of the workspace.
    pub told: BTreeMap<String, String>,
    /// The faults of the snapshot before that were told, in order; empty where of each file it is to be asked anew whether the same is told.
    pub told_faults: Vec<PlacedFault>,
}

/// A file of the module, as queries name it.
#[derive(Drop)]
pub struct FileName {
    /// The path of its package.
    pub package: ImportPath,
    /// Its name there.
    pub name: String,
}

impl Session {
    /// A session that has begun.
    ///
    /// # Errors
    ///
    /// `AllocError` where memory is wanting.
    pub fn new(alloc: Global) -> Result<Session, AllocError> {
        let workspace = Workspace::empty(alloc);
        let snapshot = compile(alloc, &workspace)?;
        Ok(Session {
            alloc,
            phase: Phase::Begun,
            encoding: Encoding::Utf16,
            can_watch: false,
            root: String::new(alloc),
            modules: Vec::new(alloc),
            workspace,
            snapshot,
            kept: Vec::new(alloc),
            is_stale: false,
            is_untold: false,
            documents: BTreeMap::new(alloc),
            told: BTreeMap::new(alloc),
            told_faults: Vec::new(alloc),
        })
    }

    /// Makes the snapshot of the packages, where it is of earlier ones. Answers whether something may be to be told: it was, or the editor opened or closed a
    /// file.
    ///
    /// # Errors
    ///
    /// `AllocError` where memory is wanting.
    pub fn settle(&mut self) -> Result<bool, AllocError> {
        let is_untold = self.is_untold;
        self.is_untold = false;
        if !self.is_stale {
            return Ok(is_untold);
        }
        let Recompiled { snapshot, kept } = recompile_edit(
            self.alloc,
            &self.workspace,
            &self.snapshot,
        )?;
        self.kept = if have_same_paths(self.snapshot.sources(), snapshot.sources()) {
            kept
        } else {
            Vec::new(self.alloc)
        };
        self.snapshot = snapshot;
        self.is_stale = false;
        Ok(true)
    }

    /// Of each file it is to be asked anew whether the same is told as before: the editor opened or closed one, or the modules are others.
    pub(crate) fn forget_told(&mut self) {
        self.told_faults = Vec::new(self.alloc);
        self.is_untold = true;
    }

    /// The path below the folder of the workspace of the file that a name names, if it lies there.
    ///
    /// # Errors
    ///
    /// `AllocError` where memory is wanting.
    pub fn path_of(&self, uri: &str) -> Result<Option<String>, AllocError> {
        match path_of_uri(self.alloc, uri)? {
            Some(path) => self.path_inside(path.as_str()),
            None => Ok(None),
        }
    }

    // What a path is below the folder of the workspace.
    fn path_inside(&self, path: &str) -> Result<Option<String>, AllocError> {
        match path_below(self.root.as_str(), path) {
            Some(own) => Ok(Some(String::from_str(self.alloc, own)?)),
            None => Ok(None),
        }
    }

    /// The name by which the editor names a file, by its path below the folder of the workspace.
    ///
    /// # Errors
    ///
    /// `AllocError` where memory is wanting.
    pub fn uri_of(&self, path: &str) -> Result<String, AllocError> {
        match self.documents.get(path) {
            Some(document) => String::from_str(self.alloc, document.uri.as_str()),
            None => {
                let whole = below(self.alloc, self.root.as_str(), path)?;
                uri_of_path(self.alloc, whole.as_str())
            }
        }
    }

    /// The path below the folder of the workspace of a file of a package.
    ///
    /// # Errors
    ///
    /// `AllocError` where memory is wanting.
    pub fn file_path(&self, package: &str, name: &str) -> Result<String, AllocError> {
        let folder = folder_of(self.alloc, self.modules.as_slice(), package)?;
        below(self.alloc, folder.as_str(), name)
    }

    /// The file at a path below the folder of the workspace, as queries name it; none where the path of its package is none.
    ///
    /// # Errors
    ///
    /// `AllocError` where memory is wanting.
    pub fn name_of(&self, path: &str) -> Result<Option<FileName>, AllocError> {
        let (folder, name) = folder_and_name(path);
        let text = package_in(self.alloc, self.modules.as_slice(), folder)?;
        let name = String::from_str(self.alloc, name)?;
        match path_of(self.alloc, text.as_str())? {
            Some(package) => Ok(Some(FileName { package, name })),
            None => Ok(None),
        }
    }

    /// The path of the module that the package of a path lies in; empty where it lies in none.
    pub fn module_path(&self, package: &str) -> &str {
        match module_of_package(self.modules.as_slice(), package) {
            Some(module) => module.path.as_str(),
            None => "",
        }
    }

    /// The text of a file as the editor shows it, by its path below the folder of the workspace: that of the open file, or the one that is compiled.
    pub fn shown_text<'s>(&'s self, path: &str, compiled: &'s str) -> &'s str {
        match self.documents.get(path) {
            Some(document) => document.text.as_str(),
            None => compiled,
        }
    }
}

// Whether two workspaces have packages of the same paths.
fn have_same_paths(one: &Workspace, other: &Workspace) -> bool {
    let (packages, others) = (one.packages(), other.packages());
    if packages.len() != others.len() {
        return false;
    }
    for (number, package) in packages.iter().enumerate() {
        let Some(beside) = others.get(number) else {
            return false;
        };
        if !package.path().is_same(beside.path()) {
            return false;
        }
    }
    true
}

/// The path that a text writes, if it writes one.
///
/// # Errors
///
/// `AllocError` where memory is wanting.
pub fn path_of(alloc: Global, text: &str) -> Result<Option<ImportPath>, AllocError> {
    match ImportPath::read(alloc, text) {
        Ok(path) => Ok(Some(path)),
        Err(Rule::M0) => Err(AllocError),
        Err(_) => Ok(None),
    }
}

/// The files of the package of a path.
pub(crate) fn files_in<'p>(packages: &'p [PackageSource], path: &ImportPath) -> &'p [SourceFile] {
    for package in packages {
        if package.path().is_same(path) {
            return package.files();
        }
    }
    &[]
}
