//! From a folder to its packages.
ghost use Rattle.std.specs.Prelude.{◌≡◌, ◌++◌, IfOk, codes, map, option_map, string_bytes};
ghost use Rattle.std.specs.IoError.{error_kind};
ghost use Rattle.go_path_core.specs.Path.{IsPath};
ghost use Rattle.go_path_core.specs.text_core.declared.rule.Rule.TheVariants.{E2};
ghost use Rattle.govisd_disk.specs.Finds.{IsIn, IsOfFolders, IsReadAs, IsReadFor, IsReadNamed, IsReadOf, IsReadRoot, IsUnread, Found as IsFound, Refused as IsRefused, folder_name, module_hint, no_module_text, read_on, read_shown, refused_line};
ghost use Rattle.govisd_disk.specs.Notes.{refusal_line};
ghost use Rattle.govisd_disk.specs.Puts.{folder_of};

use crate::notes::{name_or_quotes, note, note_rule, passed_text, push, why_unread};
use crate::parsing::{AtOnce, InTurn, Parser};
use crate::progress::Progress;
use crate::putting::put_all;
use crate::reading::{FolderFiles, FoundFolders, found_below};
use crate::roots::{Above, Root, module_above};
use crate::scopes::{Scope, has_any};
use go_folder_core::{FileKind, file_kind, named_folder};
use go_graph_core::Workspace;
use go_path_core::ImportPath;
use go_path_core::text_core::Rule;
use std::alloc::{AllocError, Global};
use std::path::{Path, PathBuf};
use std::thread::Threads;
use std::{fs, io};

/// The packages of a folder, and what is to be said of the reading.
#[derive(Drop)]
pub struct FoundPackages {
    /// The path of the module.
    pub module_path: String,
    /// The packages, of which one at least is one that was asked for.
    pub workspace: Workspace,
    /// The path of the package in the folder that was asked for, whether there is one or not.
    pub told: String,
    /// The name of the file that was asked for; empty where all files in the folder and below it were.
    pub file: String,
    /// Lines that name what was left out.
    pub notes: String,
    /// A line that says how many Go files and folders were passed over by their names, where there are any.
    pub passed: String,
}

/// What came of the reading of a folder.
#[derive(Drop)]
pub enum ReadFolder {
    /// There is no package, for what is to be said.
    Refused(String),
    /// There are packages.
    Found(FoundPackages),
}

// There is no package, for a reason of what has a name. That stands after what is said already.
fn refused(said: String, name: &str, why: &str) -> Result<ReadFolder, AllocError>
    ensures { IfOk result (λ r. read_shown r ≡ IsRefused (string_bytes said ++ refused_line name.now why.now)) }
{
    let mut said = said;
    note(&mut said, name_or_quotes(name), why)?;
    Ok(ReadFolder::Refused(said))
}

// There are packages.
fn found(
    alloc: Global,
    module_path: &str,
    workspace: Workspace,
    scope: &Scope<'_>,
    notes: String,
    passed: String,
) -> Result<ReadFolder, AllocError>
    ensures { IfOk result (λ r. read_shown r ≡ IsFound module_path.now workspace (scope.now.package.now, scope.now.file.now) (string_bytes notes) (string_bytes passed)) }
{
    let module_path = String::from_str(alloc, module_path)?;
    let told = String::from_str(alloc, scope.package)?;
    let file = String::from_str(alloc, scope.file)?;
    Ok(ReadFolder::Found(FoundPackages {
        module_path,
        workspace,
        told,
        file,
        notes,
        passed,
    }))
}

// There is no file that is told of. That stands after what was left out and passed over.
fn refuse_empty(folder: &str, notes: String, passed: &str) -> Result<ReadFolder, AllocError>
    ensures { IfOk result (λ r. read_shown r ≡ IsRefused ((string_bytes notes ++ passed.now) ++ refused_line folder.now (codes "no Go files to check"))) }
{
    let mut said = notes;
    push(&mut said, passed)?;
    refused(said, folder, "no Go files to check")
}

// What comes of the packages of a workspace.
fn read_on(
    alloc: Global,
    folder: &str,
    module_path: &str,
    workspace: Workspace,
    scope: &Scope<'_>,
    notes: String,
    passed: String,
) -> Result<ReadFolder, AllocError>
    ensures { IfOk result (λ r. read_shown r ≡ read_on folder.now module_path.now workspace (scope.now.package.now, scope.now.file.now) (string_bytes notes) (string_bytes passed)) }
{
    if has_any(scope, workspace.packages()) {
        return found(alloc, module_path, workspace, scope, notes, passed);
    }
    refuse_empty(folder, notes, passed.as_str())
}

// What comes of folders that were found.
fn read_found(
    parser: &impl Parser,
    alloc: Global,
    folder: &str,
    module_path: &str,
    scope: &Scope<'_>,
    found: Vec<FolderFiles>,
    left_out: String,
    passed: String,
    progress: &mut Progress<'_>,
) -> Result<ReadFolder, AllocError>
    ensures { IfOk result (λ r. IsReadFor folder.now module_path.now (scope.now.package.now, scope.now.file.now) (map folder_of found.items) (string_bytes left_out) (string_bytes passed) (read_shown r)) }
{
    let mut notes = left_out;
    let mut workspace = Workspace::empty(alloc);
    put_all(
        parser,
        alloc,
        &mut workspace,
        &mut notes,
        progress,
        module_path,
        found,
    )?;
    progress.check(workspace.packages().len());
    read_on(alloc, folder, module_path, workspace, scope, notes, passed)
}

// Reads the folder at a path, below a module.
fn read_module(
    rt: &HostRuntime,
    parser: &impl Parser,
    folder: &str,
    root: &str,
    module_path: &str,
    scope: &Scope<'_>,
    progress: &mut Progress<'_>,
) -> Result<ReadFolder, AllocError>
    requires { IsPath module_path.now }
    ensures { IfOk result (λ r. IsOfFolders folder.now module_path.now (scope.now.package.now, scope.now.file.now) (read_shown r)) }
{
    let alloc = rt.alloc();
    let FoundFolders {
        folders,
        left_out,
        passed_files,
        passed_folders,
        ..
    } = found_below(rt, folder, root, progress)?;
    let passed = passed_text(alloc, passed_files, passed_folders)?;
    read_found(
        parser,
        alloc,
        folder,
        module_path,
        scope,
        folders,
        left_out,
        passed,
        progress,
    )
}

// The name of the folder at a path: its last component. The root has none.
fn folder_name(folder: &str) -> &str
    ensures { result.now ≡ folder_name folder.now }
{
    Path::new(folder).file_name().unwrap_or("")
}

// There is no package, since the folder cannot be read.
fn refuse_folder(alloc: Global, folder: &str, error: &io::Error) -> Result<ReadFolder, AllocError>
    ensures { IfOk result (λ r. IsUnread folder.now (error_kind error.now) (read_shown r)) }
{
    let why = why_unread(alloc, error)?;
    let read = refused(String::new(alloc), folder, why.as_str())?;
    Ok(read)
}

// There is no package, since there is no path of a module. That stands after what is said already.
fn refuse_hinted(said: String) -> Result<ReadFolder, AllocError>
    ensures { IfOk result (λ r. read_shown r ≡ IsRefused (string_bytes said ++ module_hint)) }
{
    refused(
        said,
        "--module",
        "gives the path of the module, as in --module example.com/mine",
    )
}

// There is no package, since the path of the module is none.
fn refuse_module(alloc: Global, module_path: &str) -> Result<ReadFolder, AllocError>
    ensures { IfOk result (λ r. read_shown r ≡ IsRefused (no_module_text module_path.now)) }
{
    let mut said = String::new(alloc);
    note_rule(&mut said, name_or_quotes(module_path), Rule::O2)?;
    refuse_hinted(said)
}

// Reads the folder at a path as that of a module.
fn read_as(
    rt: &HostRuntime,
    parser: &impl Parser,
    given: &str,
    folder: &str,
    module_path: &str,
    scope: &Scope<'_>,
    progress: &mut Progress<'_>,
) -> Result<ReadFolder, AllocError>
    ensures { IfOk result (λ r. IsReadAs given.now module_path.now (scope.now.package.now, scope.now.file.now) (read_shown r)) }
{
    let alloc = rt.alloc();
    match ImportPath::read(alloc, module_path) {
        Ok(_) => read_module(rt, parser, given, folder, module_path, scope, progress),
        Err(Rule::M0) => Err(AllocError),
        Err(_) => refuse_module(alloc, module_path),
    }
}

// Reads the folder at a path as that of the module that has its name.
fn read_named(
    rt: &HostRuntime,
    parser: &impl Parser,
    given: &str,
    folder: &str,
    file: &str,
    progress: &mut Progress<'_>,
) -> Result<ReadFolder, AllocError>
    ensures { IfOk result (λ r. IsReadAs given.now (folder_name folder.now) (folder_name folder.now, file.now) (read_shown r)) }
{
    let name = folder_name(folder);
    let scope = Scope {
        package: name,
        file,
    };
    read_as(rt, parser, given, folder, name, &scope, progress)
}

// Reads the folder of a module.
fn read_above(
    rt: &HostRuntime,
    parser: &impl Parser,
    given: &str,
    root: &Root,
    file: &str,
    progress: &mut Progress<'_>,
) -> Result<ReadFolder, AllocError>
    ensures { IfOk result (λ r. IsReadAs given.now (string_bytes root.now.own) (string_bytes root.now.told, file.now) (read_shown r)) }
{
    let scope = Scope {
        package: root.told.as_str(),
        file,
    };
    read_as(
        rt,
        parser,
        given,
        root.folder.as_str(),
        root.own.as_str(),
        &scope,
        progress,
    )
}

// Reads the folder at a path, or the folder of the module that it lies in.
fn read_in(
    rt: &HostRuntime,
    parser: &impl Parser,
    given: &str,
    folder: &str,
    file: &str,
    progress: &mut Progress<'_>,
) -> Result<ReadFolder, AllocError>
    ensures { IfOk result (λ r. IsIn given.now folder.now file.now (read_shown r)) }
{
    let above = module_above(rt, given, folder)?;
    match above {
        Above::Nowhere => read_named(rt, parser, given, folder, file, progress),
        Above::Refused(said) => refuse_hinted(said),
        Above::Found(root) => read_above(rt, parser, given, &root, file, progress),
    }
}

// Reads the folder at a path as that of a module whose path is given.
fn read_given(
    rt: &HostRuntime,
    parser: &impl Parser,
    given: &str,
    folder: &str,
    file: &str,
    module_path: &str,
    progress: &mut Progress<'_>,
) -> Result<ReadFolder, AllocError>
    ensures { IfOk result (λ r. IsReadAs given.now module_path.now (module_path.now, file.now) (read_shown r)) }
{
    let scope = Scope {
        package: module_path,
        file,
    };
    read_as(rt, parser, given, folder, module_path, &scope, progress)
}

// Reads the folder at a path, where the path of the module may be given. Of a file in it, that is what was asked for.
fn read_root(
    rt: &HostRuntime,
    parser: &impl Parser,
    given: &str,
    folder: &str,
    file: &str,
    module_path: Option<&str>,
    progress: &mut Progress<'_>,
) -> Result<ReadFolder, AllocError>
    ensures { IfOk result (λ r. IsReadRoot given.now folder.now file.now (option_map (λ m. m.now) module_path.entry) (read_shown r)) }
{
    match module_path {
        Some(module_path) => read_given(rt, parser, given, folder, file, module_path, progress),
        None => read_in(rt, parser, given, folder, file, progress),
    }
}

// There is no package, since what was named is neither a folder nor a file that is checked.
fn refuse_other(alloc: Global, given: &str) -> Result<ReadFolder, AllocError>
    ensures { IfOk result (λ r. read_shown r ≡ IsRefused (refused_line given.now (codes "this is no folder, and no Go file that is checked"))) }
{
    refused(
        String::new(alloc),
        given,
        "this is no folder, and no Go file that is checked",
    )
}

// There is no package, since the name of the file that was named is none of a source file.
fn refuse_name(alloc: Global, given: &str) -> Result<ReadFolder, AllocError>
    ensures { IfOk result (λ r. read_shown r ≡ IsRefused (refusal_line given.now E2)) }
{
    let mut said = String::new(alloc);
    note_rule(&mut said, given, Rule::E2)?;
    Ok(ReadFolder::Refused(said))
}

// Reads the folder that a file lies in.
fn read_file(
    rt: &HostRuntime,
    parser: &impl Parser,
    given: &str,
    folder: &str,
    file: &str,
    module_path: Option<&str>,
    progress: &mut Progress<'_>,
) -> Result<ReadFolder, AllocError>
    ensures { IfOk result (λ r. IsReadNamed given.now (option_map (λ m. m.now) module_path.entry) (read_shown r)) }
{
    match file_kind(file) {
        FileKind::Source => read_root(rt, parser, given, folder, file, module_path, progress),
        FileKind::BadName => refuse_name(rt.alloc(), given),
        FileKind::Other => refuse_other(rt.alloc(), given),
    }
}

// Reads the folder at a path, or the folder that the file at a path lies in.
fn read_path(
    rt: &HostRuntime,
    parser: &impl Parser,
    given: &str,
    path: &PathBuf,
    module_path: Option<&str>,
    progress: &mut Progress<'_>,
) -> Result<ReadFolder, AllocError>
    ensures { IfOk result (λ r. IsReadNamed given.now (option_map (λ m. m.now) module_path.entry) (read_shown r)) }
{
    if path.is_dir(rt) {
        return read_root(rt, parser, given, path.as_str(), "", module_path, progress);
    }
    let name = path.file_name().unwrap_or("");
    match path.parent() {
        Some(folder) => read_file(
            rt,
            parser,
            given,
            folder.as_str(),
            name,
            module_path,
            progress,
        ),
        None => refuse_other(rt.alloc(), given),
    }
}

// Reads the Go packages of a folder, whose files a parser parses.
fn read_by(
    rt: &HostRuntime,
    parser: &impl Parser,
    folder: &str,
    module_path: Option<&str>,
    progress: &mut Progress<'_>,
) -> Result<ReadFolder, AllocError>
    ensures { IfOk result (λ r. IsReadOf folder.now (option_map (λ m. m.now) module_path.entry) (read_shown r)) }
{
    let alloc = rt.alloc();
    let given = named_folder(folder);
    match fs::canonicalize(rt, given) {
        Ok(path) => read_path(rt, parser, given, &path, module_path, progress),
        Err(error) => refuse_folder(alloc, given, &error),
    }
}

/// Reads the Go packages of a folder: each `.go` file in it, and in the folders below it, that is a source file of a package by its name. Where the
/// path of the module is not given it is the one that the first `go.mod` in the folder or above it names, and then all packages of that module are read;
/// without such a file it is the name of the folder, which is the last component of its path from the root, without links. In place of a folder a file
/// may be named, and then its folder is read. The progress says how far it is.
///
/// # Errors
///
/// `AllocError` for want of memory.
pub fn read_folder(
    rt: &HostRuntime,
    folder: &str,
    module_path: Option<&str>,
    progress: &mut Progress<'_>,
) -> Result<ReadFolder, AllocError>
    ensures { IfOk result (λ r. IsReadOf folder.now (option_map (λ m. m.now) module_path.entry) (read_shown r)) }
{
    let parser = InTurn { alloc: rt.alloc() };
    read_by(rt, &parser, folder, module_path, progress)
}

/// Reads the Go packages of a folder as [`read_folder`] does. Where there are 65,536 bytes of source and more, so many workers at most parse the files at once,
/// some megabytes of source at a time.
///
/// # Errors
///
/// `AllocError` for want of memory.
pub fn read_folder_at_once(
    rt: &HostRuntime,
    threads: &impl Threads,
    folder: &str,
    module_path: Option<&str>,
    workers: usize,
    progress: &mut Progress<'_>,
) -> Result<ReadFolder, AllocError>
    ensures { IfOk result (λ r. IsReadOf folder.now (option_map (λ m. m.now) module_path.entry) (read_shown r)) }
{
    let parser = AtOnce {
        threads,
        alloc: rt.alloc(),
        workers,
    };
    read_by(rt, &parser, folder, module_path, progress)
}
