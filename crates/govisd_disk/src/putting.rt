//! From the files of folders to a workspace.
ghost use Rattle.std.specs.Prelude.{◌≡◌, All, IfOk, OnOk, [], map, string_bytes};
ghost use Rattle.go_graph_core.specs.Sources.{IsRead};
ghost use Rattle.go_graph_core.specs.Workspaces.{HaveDistinctNames, texts_of_files};
ghost use Rattle.govisd_disk.specs.Puts.{ArePut, IsGroup, IsPathOf, IsPut, folder_of, group_of};

use crate::groups::{Group, next_files};
use crate::notes::note_rule;
use crate::parsing::Parser;
use crate::progress::Progress;
use crate::reading::FolderFiles;
use go_folder_core::package_path;
use go_graph_core::{SourceFile, Workspace};
use go_path_core::ImportPath;
use go_path_core::text_core::Rule;
use std::alloc::{AllocError, Global};

/// The path that a text writes, if it writes one.
///
/// # Errors
///
/// `AllocError` for want of memory.
pub fn path_of(alloc: Global, text: &str) -> Result<Option<ImportPath>, AllocError>
    ensures { IfOk result (λ path. IsPathOf text.now path) }
{
    match ImportPath::read(alloc, text) {
        Ok(path) => Ok(Some(path)),
        Err(Rule::I1) => Ok(None),
        Err(_) => Err(AllocError),
    }
}

// Puts the files of a folder as those of a package, where its path is one, and says so where it is none.
fn put_folder(
    alloc: Global,
    workspace: &mut Workspace,
    notes: &mut String,
    module_path: &str,
    folder: &str,
    files: Vec<SourceFile>,
) -> Result<(), AllocError>
    requires names { HaveDistinctNames (texts_of_files files.items) }
    requires read { All IsRead files.items }
    ensures { OnOk result (IsPut module_path.now (folder.now, texts_of_files files.items) (workspace.old, string_bytes notes.old) (workspace.new, string_bytes notes.new)) }
{
    let text = package_path(alloc, module_path, folder)?;
    let found = path_of(alloc, text.as_str())?;
    match found {
        Some(path) => match workspace.put_read(alloc, &path, files) {
            Ok(()) => Ok(()),
            Err(_) => Err(AllocError),
        },
        None => note_rule(notes, folder, Rule::E1),
    }
}

// Parses the files of the folders of a group, and puts those of each.
fn put_group(
    parser: &impl Parser,
    alloc: Global,
    workspace: &mut Workspace,
    notes: &mut String,
    module_path: &str,
    group: Group,
) -> Result<(), AllocError>
    requires { IsGroup group }
    ensures { OnOk result (ArePut module_path.now (group_of group) (workspace.old, string_bytes notes.old) (workspace.new, string_bytes notes.new)) }
{
    let Group { folders, files, .. } = group;
    let mut read = parser.parse(files)?.into_iter();
    for (folder, count) in folders {
        let files = next_files(alloc, &mut read, count)?;
        put_folder(alloc, workspace, notes, module_path, folder.as_str(), files)?;
    }
    Ok(())
}

/// Puts the files of folders into a workspace, each as the package of its folder's path below a module. Files of a folder whose path is none are
/// left out, and that is said. The files of many folders, of some megabytes, are parsed together.
///
/// # Errors
///
/// `AllocError` for want of memory.
pub fn put_all(
    parser: &impl Parser,
    alloc: Global,
    workspace: &mut Workspace,
    notes: &mut String,
    progress: &mut Progress<'_>,
    module_path: &str,
    found: Vec<FolderFiles>,
) -> Result<(), AllocError>
    ensures { OnOk result (ArePut module_path.now (map folder_of found.items) (workspace.old, string_bytes notes.old) (workspace.new, string_bytes notes.new)) }
{
    let mut group = Group::empty(alloc);
    for folder in found {
        group.add(alloc, folder)?;
        if group.is_full() {
            put_group(parser, alloc, workspace, notes, module_path, group)?;
            group = Group::empty(alloc);
            progress.parsed(workspace.packages().len());
        }
    }
    put_group(parser, alloc, workspace, notes, module_path, group)
}
