//! The source files below a folder.
ghost use Rattle.std.specs.Prelude.{◌≡◌, ◌≤◌, OnOk, IfOk, length, string_bytes};
ghost use Rattle.std.specs.IoError.{error_kind};
ghost use Rattle.go_folder_core.specs.Names.{kind_of_file, passed_over};
ghost use Rattle.govisd_disk.specs.Reads.{AddsEntry, AddsLooked, EntersFolder, IsTextRead, KeepsUnread, LinksFolder, MissesFile, PassesFile, PassesFolder, RefusesFile, TakesFile, TakesOther, TakesSource, begins_with_dot, one_more};

use crate::notes::{is_memory, note, note_rule, note_unread};
use crate::progress::Progress;
use go_folder_core::{FileKind, MAX_FILES, below, file_kind, is_passed_over};
use go_path_core::text_core::Rule;
use std::alloc::{AllocError, Global};
use std::collections::BTreeMap;
use std::fs::{DirEntry, Metadata};
use std::{fs, io};

/// The greatest number of folders that lie one in another, the one that is checked among them: a package's path has at most 16 elements.
const MAX_DEPTH: usize = 16;

/// The greatest number of bytes of a text.
const MAX_BYTES: usize = 1_048_576;

/// What stands for the text of a file that could not be read: no Go text has this byte.
pub const STAND_IN: &str = "\u{0}";

/// The source files of a folder: its path from the one that is checked, and the texts by their names.
#[derive(Drop)]
pub struct FolderFiles {
    pub folder: String,
    pub files: BTreeMap<String, String>,
}

/// What was found in a folder and below it.
#[derive(Drop)]
pub struct FoundFolders {
    /// The folders with source files.
    pub folders: Vec<FolderFiles>,
    /// Lines that name what was left out.
    pub left_out: String,
    /// The number of Go files that were passed over by their names.
    pub passed_files: usize,
    /// The number of folders that were passed over by their names, but for those that begin with a dot.
    pub passed_folders: usize,
    /// The number of bytes of the texts.
    bytes: usize,
}

/// What a name in a folder stands for.
#[derive(Clone, Copy)]
enum EntryKind {
    Folder,
    FolderLink,
    File,
    Other,
}

/// The folder that is read: the system that it is read by, its path, and its name as it is said.
#[derive(Clone, Copy)]
struct CheckedFolder<'a> {
    rt: &'a HostRuntime,
    root: &'a str,
    name: &'a str,
}

fn kind_of(metadata: &Metadata) -> EntryKind {
    if metadata.is_dir() {
        return EntryKind::Folder;
    }
    if metadata.is_file() {
        return EntryKind::File;
    }
    EntryKind::Other
}

/// What the link at a path leads to.
fn look_through(rt: &HostRuntime, path: &str) -> io::Result<EntryKind> {
    match fs::metadata(rt, path) {
        Ok(found) => {
            if found.is_dir() {
                return Ok(EntryKind::FolderLink);
            }
            Ok(kind_of(&found))
        }
        Err(error) => {
            if is_memory(error.kind()) {
                return Err(error);
            }
            Ok(EntryKind::Other)
        }
    }
}

/// What lies at a path: a link to a file is as the file, and one to nothing is no file.
fn look(rt: &HostRuntime, path: &str) -> io::Result<EntryKind> {
    let own = fs::symlink_metadata(rt, path)?;
    if !own.is_symlink() {
        return Ok(kind_of(&own));
    }
    look_through(rt, path)
}

/// Adds the name of an entry, or says why there is none.
fn add_name(
    alloc: Global,
    notes: &mut String,
    names: &mut Vec<String>,
    folder: &str,
    entry: io::Result<DirEntry<HostRuntime>>,
) -> Result<(), AllocError> {
    match entry {
        Ok(entry) => {
            names.push(String::from_str(alloc, entry.file_name())?)?;
            Ok(())
        }
        Err(error) => note_unread(alloc, notes, folder, &error),
    }
}

/// The names in the folder at a path, in order, as far as they can be read.
fn names_in(
    rt: &HostRuntime,
    notes: &mut String,
    folder: &str,
    path: &str,
) -> Result<Vec<String>, AllocError> {
    let alloc = rt.alloc();
    let mut names = Vec::new(alloc);
    match fs::read_dir(rt, path) {
        Ok(entries) => {
            for entry in entries {
                add_name(alloc, notes, &mut names, folder, entry)?;
            }
        }
        Err(error) => note_unread(alloc, notes, folder, &error)?,
    }
    names.sort()?;
    Ok(names)
}

/// The text of the file at a path, or the rule that refuses it.
pub(crate) fn text_at(rt: &HostRuntime, path: &str) -> io::Result<Result<String, Rule>>
    ensures { IfOk result IsTextRead }
{
    let most = u64::try_from(MAX_BYTES).unwrap_or(u64::MAX);
    if fs::metadata(rt, path)?.len() > most {
        return Ok(Err(Rule::E3));
    }
    let bytes = fs::read(rt, path)?;
    if bytes.len() > MAX_BYTES {
        return Ok(Err(Rule::E3));
    }
    match String::from_utf8(bytes) {
        Ok(text) => Ok(Ok(text)),
        Err(_) => Ok(Err(Rule::L1)),
    }
}

/// Keeps a source file whose text could not be read, with what stands for that.
fn keep_unread(
    alloc: Global,
    files: &mut BTreeMap<String, String>,
    name: String,
) -> Result<(), AllocError>
    ensures { OnOk result (KeepsUnread name files.old.entries files.new.entries) }
{
    let text = String::from_str(alloc, STAND_IN)?;
    match files.insert(name, text) {
        Ok(_) => Ok(()),
        Err(_) => Err(AllocError),
    }
}

/// Says which rule refuses the text of a source file.
fn refuse_file(
    alloc: Global,
    files: &mut BTreeMap<String, String>,
    left_out: &mut String,
    name: String,
    own: &str,
    rule: Rule,
) -> Result<(), AllocError>
    ensures { OnOk result (RefusesFile rule own.now name files.old.entries files.new.entries (string_bytes left_out.old) (string_bytes left_out.new)) }
{
    note_rule(left_out, own, rule)?;
    keep_unread(alloc, files, name)
}

/// Says why a source file cannot be read.
fn miss_file(
    alloc: Global,
    files: &mut BTreeMap<String, String>,
    left_out: &mut String,
    name: String,
    own: &str,
    error: &io::Error,
) -> Result<(), AllocError>
    ensures { OnOk result (MissesFile (error_kind error.now) own.now name files.old.entries files.new.entries (string_bytes left_out.old) (string_bytes left_out.new)) }
{
    note_unread(alloc, left_out, own, error)?;
    keep_unread(alloc, files, name)
}

/// Adds the text of a source file, or says why it has none. A file that could not be read stays in its package, which is not checked then.
fn add_file(
    rt: &HostRuntime,
    files: &mut BTreeMap<String, String>,
    left_out: &mut String,
    bytes: &mut usize,
    name: String,
    own: &str,
    path: &str,
) -> Result<(), AllocError>
    ensures { OnOk result (TakesFile own.now name files.old.entries files.new.entries (string_bytes left_out.old) (string_bytes left_out.new)) }
{
    if files.len() >= MAX_FILES {
        return note_rule(left_out, own, Rule::E4);
    }
    match text_at(rt, path) {
        Ok(Ok(text)) => {
            *bytes = bytes.saturating_add(text.len());
            match files.insert(name, text) {
                Ok(_) => Ok(()),
                Err(_) => Err(AllocError),
            }
        }
        Ok(Err(rule)) => refuse_file(rt.alloc(), files, left_out, name, own, rule),
        Err(error) => miss_file(rt.alloc(), files, left_out, name, own, &error),
    }
}

/// Adds what is a source file by its name: its text, or why it is left out.
fn add_source(
    rt: &HostRuntime,
    found: &mut FoundFolders,
    files: &mut BTreeMap<String, String>,
    kind: EntryKind,
    name: String,
    own: &str,
    path: &str,
) -> Result<(), AllocError>
    ensures { OnOk result (TakesSource kind own.now name files.old.entries files.new.entries found.old found.new) }
{
    match kind {
        EntryKind::File => add_file(
            rt,
            files,
            &mut found.left_out,
            &mut found.bytes,
            name,
            own,
            path,
        ),
        _ => note(&mut found.left_out, own, "no regular file"),
    }
}

/// One more than a number; the greatest stays.
fn one_more(count: usize) -> usize
    ensures { result ≡ one_more count }
{
    if count == usize::MAX {
        return count;
    }
    count + 1
}

/// Counts a file that is none of a package by its name, where its name ends in `.go`.
fn pass_file(found: &mut FoundFolders, name: &str)
    ensures { PassesFile name.now found.old found.new }
{
    if name.as_bytes().ends_with(b".go".as_slice()) {
        found.passed_files = one_more(found.passed_files);
    }
}

/// Adds what is no folder: the text of a source file, or why it is left out.
fn add_other(
    rt: &HostRuntime,
    found: &mut FoundFolders,
    files: &mut BTreeMap<String, String>,
    kind: EntryKind,
    name: String,
    own: &str,
    path: &str,
) -> Result<(), AllocError>
    ensures { OnOk result (TakesOther (kind_of_file (string_bytes name)) kind own.now name files.old.entries files.new.entries found.old found.new) }
{
    match file_kind(name.as_str()) {
        FileKind::Other => {
            pass_file(found, name.as_str());
            Ok(())
        }
        FileKind::BadName => note_rule(&mut found.left_out, own, Rule::E2),
        FileKind::Source => add_source(rt, found, files, kind, name, own, path),
    }
}

/// Whether a name begins with a dot.
fn has_dot(name: &str) -> bool
    ensures { result ≡ begins_with_dot name.now }
{
    match name.as_bytes().first() {
        Some(byte) => *byte == b'.',
        None => false,
    }
}

/// Counts a folder that is passed over by its name, unless the name begins with a dot.
fn pass_over(found: &mut FoundFolders, name: &str)
    ensures { PassesFolder name.now found.old found.new }
{
    if !has_dot(name) {
        found.passed_folders = one_more(found.passed_folders);
    }
}

/// Adds a folder to those that are read next, or passes it over.
fn add_below(
    found: &mut FoundFolders,
    next: &mut Vec<String>,
    name: &str,
    own: String,
) -> Result<(), AllocError>
    ensures { OnOk result (EntersFolder (passed_over name.now) own name.now next.old.items next.new.items found.old found.new) }
{
    if is_passed_over(name) {
        pass_over(found, name);
        return Ok(());
    }
    next.push(own)?;
    Ok(())
}

/// Says that a link to a folder is left out, or passes it over.
fn add_link(found: &mut FoundFolders, name: &str, own: &str) -> Result<(), AllocError>
    ensures { OnOk result (LinksFolder (passed_over name.now) own.now name.now found.old found.new) }
{
    if is_passed_over(name) {
        pass_over(found, name);
        return Ok(());
    }
    note(
        &mut found.left_out,
        own,
        "a link to a folder, which is not followed",
    )
}

/// Adds what lies in a folder by a name, by its kind.
fn add_looked(
    rt: &HostRuntime,
    found: &mut FoundFolders,
    files: &mut BTreeMap<String, String>,
    next: &mut Vec<String>,
    kind: EntryKind,
    name: String,
    own: String,
    path: &str,
) -> Result<(), AllocError>
    ensures { OnOk result (AddsLooked kind own name files.old.entries files.new.entries next.old.items next.new.items found.old found.new) }
{
    match kind {
        EntryKind::Folder => add_below(found, next, name.as_str(), own),
        EntryKind::FolderLink => add_link(found, name.as_str(), own.as_str()),
        EntryKind::File => add_other(rt, found, files, EntryKind::File, name, own.as_str(), path),
        EntryKind::Other => add_other(rt, found, files, EntryKind::Other, name, own.as_str(), path),
    }
}

/// Adds what lies in a folder by a name: a source file to the files, a folder to those that are read next.
fn add_entry(
    checked: CheckedFolder<'_>,
    found: &mut FoundFolders,
    files: &mut BTreeMap<String, String>,
    next: &mut Vec<String>,
    folder: &str,
    name: String,
) -> Result<(), AllocError>
    ensures { OnOk result (AddsEntry folder.now name files.old.entries files.new.entries next.old.items next.new.items found.old found.new) }
{
    let alloc = checked.rt.alloc();
    let own = below(alloc, folder, name.as_str())?;
    let path = below(alloc, checked.root, own.as_str())?;
    match look(checked.rt, path.as_str()) {
        Ok(kind) => add_looked(
            checked.rt,
            found,
            files,
            next,
            kind,
            name,
            own,
            path.as_str(),
        ),
        Err(error) => note_unread(alloc, &mut found.left_out, own.as_str(), &error),
    }
}

/// Adds the source files of a folder, and the folders in it to those that are read next.
fn add_folder(
    checked: CheckedFolder<'_>,
    found: &mut FoundFolders,
    next: &mut Vec<String>,
    folder: String,
) -> Result<(), AllocError> {
    let alloc = checked.rt.alloc();
    let path = below(alloc, checked.root, folder.as_str())?;
    let said = if folder.as_str().is_empty() {
        checked.name
    } else {
        folder.as_str()
    };
    let names = names_in(checked.rt, &mut found.left_out, said, path.as_str())?;
    let mut files = BTreeMap::new(alloc);
    for name in names {
        add_entry(checked, found, &mut files, next, folder.as_str(), name)?;
    }
    if files.len() > 0 {
        found.folders.push(FolderFiles { folder, files })?;
    }
    Ok(())
}

/// Adds the source files of folders that lie equally deep, and answers the folders in them, which are read next.
fn add_level(
    checked: CheckedFolder<'_>,
    found: &mut FoundFolders,
    progress: &mut Progress<'_>,
    folders: Vec<String>,
) -> Result<Vec<String>, AllocError> {
    let mut next = Vec::new(checked.rt.alloc());
    for folder in folders {
        add_folder(checked, found, &mut next, folder)?;
        progress.read(found.folders.len());
    }
    Ok(next)
}

/// Adds the source files of the folder that is checked and of all folders in it but those that are passed over. Folders that lie too deep for
/// the path of a package are left out, and that is said.
fn add_all(
    checked: CheckedFolder<'_>,
    found: &mut FoundFolders,
    progress: &mut Progress<'_>,
) -> Result<(), AllocError> {
    let alloc = checked.rt.alloc();
    let mut folders = Vec::new(alloc);
    folders.push(String::new(alloc))?;
    for _depth in 0..MAX_DEPTH {
        folders = add_level(checked, found, progress, folders)?;
    }
    for folder in folders {
        note_rule(&mut found.left_out, folder.as_str(), Rule::E1)?;
    }
    Ok(())
}

/// The source files of the folder at a path, which has a name as it is said, and of all folders in it but those that are passed over.
///
/// # Errors
///
/// `AllocError` for want of memory.
pub fn found_below(
    rt: &HostRuntime,
    name: &str,
    root: &str,
    progress: &mut Progress<'_>,
) -> Result<FoundFolders, AllocError> {
    let alloc = rt.alloc();
    let mut found = FoundFolders {
        folders: Vec::new(alloc),
        left_out: String::new(alloc),
        passed_files: 0,
        passed_folders: 0,
        bytes: 0,
    };
    add_all(CheckedFolder { rt, root, name }, &mut found, progress)?;
    progress.read_all(found.folders.len(), found.bytes);
    Ok(found)
}
