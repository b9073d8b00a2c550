//! What keeps a program from being run.
ghost use Rattle.std.specs.Prelude.{◌≡◌, ◌++◌, IfOk, map, string_bytes};
ghost use Rattle.go_object_core.specs.Objects.{function_shown, object_shown};
ghost use Rattle.go_session_core.specs.launches.Located.{place_declared};
ghost use Rattle.go_machine_core.specs.link.Linked.{IsBeyond, program_of};
ghost use Rattle.govisd_folders.specs.runs.Runs.{IsBlamed, IsToBlame, function_text};

use crate::runs::answers::refuse;
use crate::{CheckAnswer, push};
use go_graph_core::Workspace;
use go_machine_core::link::outside;
use go_machine_core::runs::answers_are_one;
use go_object_core::{FunctionCode, Object};
use go_path_core::ImportPath;
use go_path_core::text_core::Rule;
use go_report_core::answer::Site;
use go_session_core::launches::SitePlaces;
use go_site_core::site_text_of;
use std::alloc::{AllocError, Global};

// Where a function is declared, and its name.
fn function_text(
    alloc: Global,
    workspace: &Workspace,
    function: &FunctionCode<Site>,
) -> Result<String, AllocError>
    ensures { IfOk result (λ text. string_bytes text ≡ function_text workspace.now (function_shown function.now)) }
{
    let mut text = site_text_of(alloc, workspace, &function.declaration)?;
    push(&mut text, " ")?;
    push(&mut text, function.name.as_str())?;
    Ok(text)
}

// What is to blame where the package of a path cannot be run: the first function that is reached and of which no code is made, or the path itself where
// a package that it reaches has no object.
fn blamed(
    alloc: Global,
    workspace: &Workspace,
    objects: &[Object<Site>],
    main: &ImportPath,
) -> Result<String, AllocError>
    requires { IsBeyond (program_of place_declared (map object_shown objects.now) main.now) }
    ensures { IfOk result (λ text. IsToBlame workspace.now (map object_shown objects.now) main.now (string_bytes text)) }
{
    answers_are_one();
    let found = outside(alloc, &SitePlaces, objects, main)?;
    match found {
        Some(function) => function_text(alloc, workspace, function),
        None => String::from_str(alloc, main.as_str()),
    }
}

/// Nothing ran, since the package of a path reaches what cannot be run, and what is to blame is named. That stands behind what is said already.
///
/// # Errors
///
/// `AllocError` for want of memory.
pub(crate) fn refuse_beyond(
    alloc: Global,
    workspace: &Workspace,
    objects: &[Object<Site>],
    before: &str,
    main: &ImportPath,
) -> Result<CheckAnswer, AllocError>
    requires { IsBeyond (program_of place_declared (map object_shown objects.now) main.now) }
    ensures { IfOk result (IsBlamed workspace.now (map object_shown objects.now) before.now main.now) }
{
    let name = blamed(alloc, workspace, objects, main)?;
    refuse(alloc, before, name.as_str(), Rule::J2)
}
