//! From a folder to its faults.
ghost use Rattle.std.specs.Prelude.{◌≡◌, List, ℕ, IfOk, option_map, string_bytes};
ghost use Rattle.go_diagnostic_core.specs.snap_core.Snapshots.{IsSnapshot};
ghost use Rattle.govisd_folders.specs.Checks.{IsAnswerOfCheck, IsAnswerOn, SnapshotIsTold, WorkspaceIsChecked, notes_status, status_of};
ghost use Rattle.govisd_disk.specs.Finds.{read_shown};

use crate::looks::{Look, look_of};
use crate::telling::{Page, Report, told};
use crate::workers::{Workers, workers_of};
use go_diagnostic_core::snap_core::Snapshot;
use go_folder_core::{Order, named_folder};
use go_graph_core::Workspace;
use go_parallel_core::compile_at_once;
use govisd_disk::{FoundPackages, Progress, ReadFolder, Scope, push, read_folder_at_once};
use std::alloc::{AllocError, Global};
use std::thread::Threads;

/// What came of the check of a folder, or of a run of its program.
#[derive(Drop)]
pub struct CheckAnswer {
    /// The exit status: of a check 0 where nothing is amiss, 1 where there is a fault or something was left out, and 2 where nothing was checked.
    pub status: u8,
    /// What is to be written.
    pub text: String,
    /// What is to be said beside.
    pub said: String,
}

// The status where there is no fault, with notes on what was left out.
fn notes_status(notes: &str) -> u8
    ensures { result ≡ notes_status notes.now }
{
    if notes.is_empty() {
        return 0;
    }
    1
}

// The status of a check that found so many faults, with notes on what was left out.
fn check_status(faults: usize, notes: &str) -> u8
    ensures { result ≡ status_of faults notes.now }
{
    if faults == 0 {
        return notes_status(notes);
    }
    1
}

// The answer on a snapshot.
fn answer_from(
    alloc: Global,
    page: &Page<'_>,
    snapshot: &Snapshot,
    notes: &str,
    passed: &str,
) -> Result<CheckAnswer, AllocError>
    requires { IsSnapshot snapshot.now.sources snapshot.now.parts snapshot.now.faults }
    ensures { IfOk result (λ a. SnapshotIsTold page.now.look (page.now.scope.package.now, page.now.scope.file.now) page.now.given.now snapshot.now.sources snapshot.now.faults notes.now passed.now a) }
{
    let Report { text, faults } = told(alloc, page, snapshot)?;
    let mut said = String::from_str(alloc, notes)?;
    push(&mut said, passed)?;
    Ok(CheckAnswer {
        status: check_status(faults, notes),
        text,
        said,
    })
}

// Checks the packages of a workspace.
fn check_workspace<T: Threads>(
    workers: &Workers<'_, T>,
    alloc: Global,
    page: &Page<'_>,
    workspace: &Workspace,
    notes: &str,
    passed: &str,
) -> Result<CheckAnswer, AllocError>
    ensures { IfOk result (λ a. WorkspaceIsChecked page.now.look (page.now.scope.package.now, page.now.scope.file.now) page.now.given.now workspace.now notes.now passed.now a) }
{
    let snapshot = compile_at_once(workers.threads, alloc, workspace, workers.count)?;
    answer_from(alloc, page, &snapshot, notes, passed)
}

// The folder that a word names, as it stands before the paths of its files: nothing for the one that the program runs in; of a file, its folder.
fn given_folder<'a>(given: &'a str, file: &str) -> &'a str {
    let given = given.strip_prefix("./").unwrap_or(given);
    if file.is_empty() {
        if given == "." {
            return "";
        }
        return given.strip_suffix('/').unwrap_or(given);
    }
    match given.rsplit_once('/') {
        Some((folder, _)) => folder,
        None => "",
    }
}

// Whether a byte may stand in the path of a file as it is, in each form.
fn is_plain_byte(byte: u8) -> bool {
    byte.is_ascii_alphanumeric() || byte == b'/' || byte == b'.' || byte == b'_' || byte == b'-'
}

// A path that may stand in each form as it is, or nothing in its place.
fn plain_path(path: &str) -> &str {
    if path.as_bytes().iter().all(|byte| is_plain_byte(*byte)) {
        return path;
    }
    ""
}

// The answer on the packages of a folder.
fn answer_of<T: Threads>(
    workers: &Workers<'_, T>,
    alloc: Global,
    look: Look,
    given: &str,
    found: &FoundPackages,
) -> Result<CheckAnswer, AllocError>
    ensures { IfOk result (λ a. (given : List ℕ) × WorkspaceIsChecked look (string_bytes found.now.told, string_bytes found.now.file) given found.now.workspace (string_bytes found.now.notes) (string_bytes found.now.passed) a) }
{
    let page = Page {
        look,
        scope: Scope {
            package: found.told.as_str(),
            file: found.file.as_str(),
        },
        given: plain_path(given_folder(given, found.file.as_str())),
    };
    check_workspace(
        workers,
        alloc,
        &page,
        &found.workspace,
        found.notes.as_str(),
        found.passed.as_str(),
    )
}

// The answer on what came of the reading of a folder.
fn answer_on<T: Threads>(
    workers: &Workers<'_, T>,
    alloc: Global,
    look: Look,
    given: &str,
    read: ReadFolder,
) -> Result<CheckAnswer, AllocError>
    ensures { IfOk result (λ a. IsAnswerOn look (read_shown read) a) }
{
    match read {
        ReadFolder::Refused(said) => Ok(CheckAnswer {
            status: 2,
            text: String::new(alloc),
            said,
        }),
        ReadFolder::Found(found) => answer_of(workers, alloc, look, given, &found),
    }
}

// Reads a folder, and checks its packages.
fn check_read(
    rt: &HostRuntime,
    threads: &impl Threads,
    order: &Order<'_>,
    progress: &mut Progress<'_>,
) -> Result<CheckAnswer, AllocError>
    ensures { IfOk result (IsAnswerOfCheck order.now.folder.now order.now.style (option_map (λ m. m.now) order.now.module_path)) }
{
    let count = workers_of(rt, threads, order.workers);
    let read = read_folder_at_once(
        rt,
        threads,
        order.folder,
        order.module_path,
        count,
        progress,
    )?;
    let look = look_of(rt, order.style);
    let workers = Workers { threads, count };
    answer_on(&workers, rt.alloc(), look, named_folder(order.folder), read)
}

/// Checks the Go packages of a folder: each `.go` file in it that is a source file of a package by its name is read, each package is
/// compiled among all others of its module, and the answer tells each fault that follows from no other with its place, or all of them. Nothing is
/// written into the folder. Where standard error is a
/// terminal, a line there says how far it is: from the moment a second has passed while files are read or parsed, and from the end of the reading
/// where more than 4,000,000 bytes of source were read. Several threads parse the files where there are 65,536 bytes of source and more, and compile the
/// packages, each after those that it imports. The answer is the same for every number of them.
///
/// # Errors
///
/// `AllocError` for want of memory.
pub fn check_folder(
    rt: &HostRuntime,
    threads: &impl Threads,
    order: &Order<'_>,
) -> Result<CheckAnswer, AllocError>
    ensures { IfOk result (IsAnswerOfCheck order.now.folder.now order.now.style (option_map (λ m. m.now) order.now.module_path)) }
{
    let mut progress = Progress::begin(rt);
    let answer = check_read(rt, threads, order, &mut progress);
    progress.end();
    answer
}
