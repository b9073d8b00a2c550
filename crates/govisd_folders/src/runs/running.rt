//! From a folder to what its program comes to.
ghost use Rattle.std.specs.Prelude.{◌≡◌, ◌++◌, IfOk, option_map, string_bytes};
ghost use Rattle.go_diagnostic_core.specs.snap_core.Snapshots.{IsSnapshot};
ghost use Rattle.govisd_disk.specs.Finds.{read_shown};
ghost use Rattle.govisd_folders.specs.runs.Answers.{AnswersSnapshot, IsAnswerOfRun, IsRunOn, TellsFaults, WorkspaceIsRun, is_clean};

use crate::runs::answers::nothing_ran;
use crate::runs::packages::run_main;
use crate::workers::{Workers, workers_of};
use crate::{
    CheckAnswer, FoundPackages, PLAIN, Page, Progress, ReadFolder, Scope, push,
    read_folder_at_once, told,
};
use go_diagnostic_core::snap_core::{PlacedFault, Snapshot};
use go_folder_core::RunOrder;
use go_graph_core::Workspace;
use go_parallel_core::compile_at_once;
use std::alloc::{AllocError, Global};
use std::thread::Threads;

// Whether there is no fault, and nothing was left out.
fn is_clean(faults: &[PlacedFault], notes: &str) -> bool
    ensures { result ≡ is_clean faults.now notes.now }
{
    if !faults.is_empty() {
        return false;
    }
    if !notes.is_empty() {
        return false;
    }
    true
}

// Nothing ran, since there are faults, or something was left out.
fn tell_faults(
    alloc: Global,
    module_path: &str,
    snapshot: &Snapshot,
    notes: &str,
    passed: &str,
) -> Result<CheckAnswer, AllocError>
    requires { IsSnapshot snapshot.now.sources snapshot.now.parts snapshot.now.faults }
    ensures { IfOk result (TellsFaults module_path.now snapshot.now.sources snapshot.now.faults notes.now passed.now) }
{
    let page = Page {
        look: PLAIN,
        scope: Scope {
            package: module_path,
            file: "",
        },
        given: "",
    };
    let report = told(alloc, &page, snapshot)?;
    let mut said = String::from_str(alloc, notes)?;
    push(&mut said, passed)?;
    push(&mut said, report.text.as_str())?;
    Ok(nothing_ran(alloc, said))
}

// Runs the program of a snapshot, unless something is amiss.
fn run_snapshot(
    alloc: Global,
    order: &RunOrder<'_>,
    module_path: &str,
    scope: &Scope<'_>,
    snapshot: &Snapshot,
    notes: &str,
    passed: &str,
) -> Result<CheckAnswer, AllocError>
    requires { IsSnapshot snapshot.now.sources snapshot.now.parts snapshot.now.faults }
    ensures { IfOk result (AnswersSnapshot (is_clean snapshot.now.faults notes.now) order.now.folder.now (scope.now.package.now, scope.now.file.now) (option_map (λ m. m.now) order.now.main_path) order.now.steps module_path.now snapshot.now.sources snapshot.now.parts snapshot.now.faults notes.now passed.now) }
{
    let clean = is_clean(snapshot.faults(), notes);
    if clean {
        let objects = snapshot.objects(alloc)?;
        return run_main(
            alloc,
            snapshot.sources(),
            &objects,
            passed,
            order.folder,
            scope,
            order.main_path,
            order.steps,
        );
    }
    tell_faults(alloc, module_path, snapshot, notes, passed)
}

// Runs the program of a workspace, unless something is amiss.
fn run_workspace<T: Threads>(
    workers: &Workers<'_, T>,
    alloc: Global,
    order: &RunOrder<'_>,
    module_path: &str,
    scope: &Scope<'_>,
    workspace: &Workspace,
    notes: &str,
    passed: &str,
) -> Result<CheckAnswer, AllocError>
    ensures { IfOk result (WorkspaceIsRun order.now.folder.now (scope.now.package.now, scope.now.file.now) (option_map (λ m. m.now) order.now.main_path) order.now.steps module_path.now workspace.now notes.now passed.now) }
{
    let snapshot = compile_at_once(workers.threads, alloc, workspace, workers.count)?;
    run_snapshot(alloc, order, module_path, scope, &snapshot, notes, passed)
}

// Runs the program of the packages of a folder, unless something is amiss.
fn run_found<T: Threads>(
    workers: &Workers<'_, T>,
    alloc: Global,
    order: &RunOrder<'_>,
    found: &FoundPackages,
) -> Result<CheckAnswer, AllocError>
    ensures { IfOk result (WorkspaceIsRun order.now.folder.now (string_bytes found.now.told, string_bytes found.now.file) (option_map (λ m. m.now) order.now.main_path) order.now.steps (string_bytes found.now.module_path) found.now.workspace (string_bytes found.now.notes) (string_bytes found.now.passed)) }
{
    let scope = Scope {
        package: found.told.as_str(),
        file: found.file.as_str(),
    };
    run_workspace(
        workers,
        alloc,
        order,
        found.module_path.as_str(),
        &scope,
        &found.workspace,
        found.notes.as_str(),
        found.passed.as_str(),
    )
}

// The answer on what came of the reading of a folder.
fn answer_on<T: Threads>(
    workers: &Workers<'_, T>,
    alloc: Global,
    order: &RunOrder<'_>,
    read: ReadFolder,
) -> Result<CheckAnswer, AllocError>
    ensures { IfOk result (IsRunOn order.now.folder.now (option_map (λ m. m.now) order.now.main_path) order.now.steps (read_shown read)) }
{
    match read {
        ReadFolder::Refused(said) => Ok(nothing_ran(alloc, said)),
        ReadFolder::Found(found) => run_found(workers, alloc, order, &found),
    }
}

// Reads a folder, and runs its program.
fn run_read(
    rt: &HostRuntime,
    threads: &impl Threads,
    order: &RunOrder<'_>,
    progress: &mut Progress<'_>,
) -> Result<CheckAnswer, AllocError>
    ensures { IfOk result (IsAnswerOfRun order.now.folder.now (option_map (λ m. m.now) order.now.module_path) (option_map (λ m. m.now) order.now.main_path) order.now.steps) }
{
    let count = workers_of(rt, threads, order.workers);
    let read = read_folder_at_once(
        rt,
        threads,
        order.folder,
        order.module_path,
        count,
        progress,
    )?;
    let workers = Workers { threads, count };
    answer_on(&workers, rt.alloc(), order, read)
}

/// Runs the program of a folder: its Go packages are read and compiled as [`check_folder`](crate::check_folder) does it, and where there is no
/// fault and nothing was left out, the package that is to be run runs from the code of all, in at most so many steps. Nothing is written into the
/// folder. The answer has what the program printed, and as its status 0 where it ended, 2 where it panicked, and 3 where all steps are done and it goes
/// on. Where nothing ran the status is 1, and it is said why: the faults; that no package, or that several, are called `main`; that the package has no
/// function `main`; or the place of the first function of which no code is made and that the program may reach.
///
/// # Errors
///
/// `AllocError` for want of memory.
pub fn run_folder(
    rt: &HostRuntime,
    threads: &impl Threads,
    order: &RunOrder<'_>,
) -> Result<CheckAnswer, AllocError>
    ensures { IfOk result (IsAnswerOfRun order.now.folder.now (option_map (λ m. m.now) order.now.module_path) (option_map (λ m. m.now) order.now.main_path) order.now.steps) }
{
    let mut progress = Progress::begin(rt);
    let answer = run_read(rt, threads, order, &mut progress);
    progress.end();
    answer
}
