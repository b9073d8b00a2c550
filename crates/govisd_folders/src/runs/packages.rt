//! Runs of packages.
ghost use Rattle.std.specs.Prelude.{IfOk, map, option_map};
ghost use Rattle.go_object_core.specs.Objects.{object_shown};
ghost use Rattle.govisd_folders.specs.runs.Runs.{AnswersMain, AnswersMains, AnswersNamed, AnswersPackage};

use crate::runs::answers::{answer_of, refuse, refuse_for};
use crate::runs::blame::refuse_beyond;
use crate::runs::choosing::{mains_in, refuse_several};
use crate::{CheckAnswer, Scope, name_or_quotes, path_of};
use go_graph_core::Workspace;
use go_object_core::Object;
use go_path_core::ImportPath;
use go_path_core::text_core::Rule;
use go_report_core::answer::Site;
use go_session_core::launches::run_printing;
use std::alloc::{AllocError, Global};

// Runs the package of a path in at most so many steps.
fn run_package(
    alloc: Global,
    workspace: &Workspace,
    objects: &[Object<Site>],
    before: &str,
    main: &ImportPath,
    steps: u64,
) -> Result<CheckAnswer, AllocError>
    ensures { IfOk result (AnswersPackage workspace.now (map object_shown objects.now) before.now main.now steps) }
{
    match run_printing(alloc, objects, main, steps, usize::MAX) {
        Ok(run) => answer_of(alloc, run),
        Err(rule) => match rule {
            Rule::J1 => refuse(alloc, before, main.as_str(), Rule::J1),
            Rule::J2 => refuse_beyond(alloc, workspace, objects, before, main),
            Rule::Z1 => refuse_for(alloc, before, main.as_str(), "its code cannot be run"),
            _ => Err(AllocError),
        },
    }
}

// Runs the package that a text names.
fn run_named(
    alloc: Global,
    workspace: &Workspace,
    objects: &[Object<Site>],
    before: &str,
    text: &str,
    steps: u64,
) -> Result<CheckAnswer, AllocError>
    ensures { IfOk result (AnswersNamed workspace.now (map object_shown objects.now) before.now text.now steps) }
{
    let found = path_of(alloc, text)?;
    match found {
        Some(path) => run_package(alloc, workspace, objects, before, &path, steps),
        None => refuse(alloc, before, name_or_quotes(text), Rule::I1),
    }
}

// Runs the one of these packages, which are called `main`.
fn run_one(
    alloc: Global,
    workspace: &Workspace,
    objects: &[Object<Site>],
    before: &str,
    folder: &str,
    mains: &[&ImportPath],
    steps: u64,
) -> Result<CheckAnswer, AllocError>
    ensures { IfOk result (AnswersMains folder.now workspace.now (map object_shown objects.now) before.now (map (λ m. m.now) mains.now) steps) }
{
    match mains {
        [] => refuse_for(alloc, before, folder, "no package is called main"),
        [main] => run_package(alloc, workspace, objects, before, *main, steps),
        _ => refuse_several(alloc, before, folder, mains),
    }
}

/// Runs the package that is named, or else the one that is called `main`, from the objects of a workspace, in at most so many steps. What is to be said
/// of the reading stands in front of why a run is refused.
///
/// # Errors
///
/// `AllocError` for want of memory.
pub(crate) fn run_main(
    alloc: Global,
    workspace: &Workspace,
    objects: &[Object<Site>],
    before: &str,
    folder: &str,
    scope: &Scope<'_>,
    main_path: Option<&str>,
    steps: u64,
) -> Result<CheckAnswer, AllocError>
    ensures { IfOk result (AnswersMain folder.now (scope.now.package.now, scope.now.file.now) workspace.now (map object_shown objects.now) before.now (option_map (λ m. m.now) main_path.entry) steps) }
{
    match main_path {
        Some(text) => run_named(alloc, workspace, objects, before, text, steps),
        None => {
            let mains = mains_in(alloc, scope, objects)?;
            run_one(alloc, workspace, objects, before, folder, &mains, steps)
        }
    }
}
