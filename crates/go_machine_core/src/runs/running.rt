//! Runs of programs.
ghost use Rattle.std.specs.Prelude.{◌≡◌, ◌⊎◌, IfOk, IfErr, MatchOption, map};
ghost use Rattle.go_object_core.specs.Objects.{object_shown};
ghost use Rattle.go_machine_core.specs.Ends.{ran_shown};
ghost use Rattle.go_machine_core.specs.link.Linked.{HasNoMain, IsBeyond, program_of, runnable_shown};
ghost use Rattle.go_machine_core.specs.runs.Runs.{GetsStuck, Gives, IsStuck, comes_to, run_shown};

use crate::link::{Places, Runnable, link};
use crate::runs::outcome::Run;
use crate::{End, Ran, execute};
use go_collections_core::text_core::Rule;
use go_object_core::Object;
use go_path_core::ImportPath;
use std::alloc::{AllocError, Global};

// What a run came to, if no instruction lacked anything.
fn told(ran: Ran) -> Option<Run>
    ensures { MatchOption result (IsStuck (ran_shown ran)) (λ run. run_shown run ≡ ran_shown ran) }
{
    match ran.end {
        End::Ended => Some(Run::Ended(ran.output)),
        End::Panicked(value) => Some(Run::Panicked(value, ran.output)),
        End::Spent => Some(Run::Spent(ran.output)),
        End::Stuck => None,
    }
}

// What a program that can be run comes to.
fn run_linked(
    alloc: Global,
    runnable: &Runnable<'_>,
    steps: u64,
    most_printed: usize,
) -> Result<Option<Run>, AllocError>
    ensures { IfOk result (λ run. MatchOption run (IsStuck (comes_to (runnable_shown runnable.now) steps)) (λ run. run_shown run ≡ comes_to (runnable_shown runnable.now) steps)) }
{
    let ran = execute(
        alloc,
        &runnable.functions,
        &runnable.starts,
        steps,
        most_printed,
    )?;
    let run = told(ran);
    Ok(run)
}

/// The most bytes that [`run`] lets a program print.
const MOST_PRINTED: usize = 16_777_216;

/// Runs the package of a path in at most so many steps, one for each instruction, from the objects of it and of all that it reaches. Before its
/// function `main` the `init` functions of the packages that it reaches by imports run, and its own: the packages one after another, each time the
/// first in order of path whose imports are done, the functions of a package in their order. `Run::Spent` comes only where all steps were done.
///
/// What memory it takes is bounded by the objects, by the words that are alive, at most 16,777,216 with one for each call that waits, and by what is
/// printed, at most `most_printed` bytes. As many slots as 64 for each of the steps, and 16,777,216 more, may be laid in front of those that are used.
///
/// # Errors
///
/// `Rule::J1` exactly where there is no object of the path, or its package is not called `main`, or has no function `main`; `Rule::J2` exactly where
/// there is one, and a package that it reaches by imports has no object, or references lead, from `main` or from an `init` that runs, to a function of
/// which no code is made; `Rule::M0` where memory is wanting, or the run goes beyond these bounds; `Rule::Z1` where an instruction lacks what it asks for,
/// as in objects that were not made of one workspace.
pub fn run_printing<D, P: Places<D>>(
    alloc: Global,
    places: &P,
    objects: &[Object<D>],
    main: &ImportPath,
    steps: u64,
    most_printed: usize,
) -> Result<Run, Rule>
    ensures ok { IfOk result (λ run. Gives (program_of (P.place_of places.now) (map object_shown objects.now) main.now) steps (run_shown run)) }
    ensures err { IfErr result (λ rule. (rule ≡ Rule.M0) ⊎ ((rule ≡ Rule.J1) × HasNoMain (program_of (P.place_of places.now) (map object_shown objects.now) main.now)) ⊎ ((rule ≡ Rule.J2) × IsBeyond (program_of (P.place_of places.now) (map object_shown objects.now) main.now)) ⊎ ((rule ≡ Rule.Z1) × GetsStuck (program_of (P.place_of places.now) (map object_shown objects.now) main.now) steps)) }
{
    let runnable = match link(alloc, places, objects, main) {
        Ok(runnable) => runnable,
        Err(rule) => return Err(rule),
    };
    let Ok(ran) = run_linked(alloc, &runnable, steps, most_printed) else {
        return Err(Rule::M0);
    };
    match ran {
        Some(run) => Ok(run),
        None => Err(Rule::Z1),
    }
}

/// Runs the package of a path as [`run_printing`] does it, where at most 16,777,216 bytes may be printed.
///
/// # Errors
///
/// Those of [`run_printing`].
pub fn run<D, P: Places<D>>(
    alloc: Global,
    places: &P,
    objects: &[Object<D>],
    main: &ImportPath,
    steps: u64,
) -> Result<Run, Rule>
    ensures ok { IfOk result (λ run. Gives (program_of (P.place_of places.now) (map object_shown objects.now) main.now) steps (run_shown run)) }
    ensures err { IfErr result (λ rule. (rule ≡ Rule.M0) ⊎ ((rule ≡ Rule.J1) × HasNoMain (program_of (P.place_of places.now) (map object_shown objects.now) main.now)) ⊎ ((rule ≡ Rule.J2) × IsBeyond (program_of (P.place_of places.now) (map object_shown objects.now) main.now)) ⊎ ((rule ≡ Rule.Z1) × GetsStuck (program_of (P.place_of places.now) (map object_shown objects.now) main.now) steps)) }
{
    run_printing(alloc, places, objects, main, steps, MOST_PRINTED)
}
