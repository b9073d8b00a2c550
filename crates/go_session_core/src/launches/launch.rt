//! Runs of the packages of a workspace.
ghost use Rattle.std.specs.Prelude.{◌≡◌, ◌⊎◌, IfOk, IfErr, map, option_map};
ghost use Rattle.go_object_core.specs.Objects.{object_shown};
ghost use Rattle.go_machine_core.specs.link.Functions.{place_shown};
ghost use Rattle.go_machine_core.specs.link.Linked.{HasNoMain, IsBeyond, program_of};
ghost use Rattle.go_machine_core.specs.runs.Runs.{GetsStuck, Gives, run_shown};
ghost use Rattle.go_session_core.specs.launches.Located.{place_declared, place_in};

use go_handle_core::DeclSite;
use go_machine_core::link::{Place, Places};
use go_object_core::Object;
use go_path_core::ImportPath;
use go_path_core::text_core::Rule;
use go_report_core::answer::Site;
use go_term_core::MemberPlace;
use std::alloc::Global;

/// Where the declarations of a workspace are.
#[derive(Clone, Copy)]
pub struct SitePlaces;

// The place of an identifier of the package of a path, if it is declared outside functions.
fn place_in<'a>(path: &'a ImportPath, place: MemberPlace) -> Option<Place<'a>>
    ensures { option_map place_shown result ≡ place_in path.now place }
{
    match place {
        MemberPlace::Declared(decl) => Some(Place {
            path: path.as_str(),
            file: decl.file,
            number: decl.number,
        }),
        MemberPlace::Local(_) => None,
    }
}

impl Places<Site> for SitePlaces {
    ghost use Rattle.go_session_core.specs.launches.Located.{place_declared};

    ghost place_of = { λ s d. place_declared d };

    fn place<'d>(&self, decl: &'d Site) -> Option<Place<'d>> {
        match decl.decl().site() {
            DeclSite::InFile(path, place) => place_in(path, place),
            DeclSite::Universe(_) => None,
            DeclSite::ErrorMethod => None,
            DeclSite::Package(_) => None,
        }
    }
}

/// Runs the package of a path in at most so many steps, one for each instruction, from the objects of it and of all that it reaches. Before its
/// function `main` the `init` functions of the packages that it reaches by imports run, and its own: the packages one after another, each time the
/// first in order of path whose imports are done, the functions of a package in their order. `Run::Spent` comes only where all steps were done.
///
/// What memory it takes is bounded by the objects, by the words that are alive, at most 16,777,216 with one for each call that waits, and by what is
/// printed, at most `most_printed` bytes. As many slots as 64 for each of the steps, and 16,777,216 more, may be laid in front of those that are used.
///
/// # Errors
///
/// `Rule::J1` exactly where there is no object of the path, or its package is not called `main`, or has no function `main`; `Rule::J2` exactly where
/// there is one, and a package that it reaches by imports has no object, or references lead, from `main` or from an `init` that runs, to a function of
/// which no code is made; `Rule::M0` where memory is wanting, or the run goes beyond these bounds; `Rule::Z1` where an instruction lacks what it asks for,
/// as in objects that were not made of one workspace.
pub fn run_printing(
    alloc: Global,
    objects: &[Object<Site>],
    main: &ImportPath,
    steps: u64,
    most_printed: usize,
) -> Result<go_machine_core::runs::Run, Rule>
    ensures ok { IfOk result (λ run. Gives (program_of place_declared (map object_shown objects.now) main.now) steps (run_shown run)) }
    ensures err { IfErr result (λ rule. (rule ≡ Rule.M0) ⊎ ((rule ≡ Rule.J1) × HasNoMain (program_of place_declared (map object_shown objects.now) main.now)) ⊎ ((rule ≡ Rule.J2) × IsBeyond (program_of place_declared (map object_shown objects.now) main.now)) ⊎ ((rule ≡ Rule.Z1) × GetsStuck (program_of place_declared (map object_shown objects.now) main.now) steps)) }
{
    go_machine_core::runs::run_printing(alloc, &SitePlaces, objects, main, steps, most_printed)
}

/// Runs the package of a path as [`run_printing`] does it, where at most 16,777,216 bytes may be printed.
///
/// # Errors
///
/// Those of [`run_printing`].
pub fn run(
    alloc: Global,
    objects: &[Object<Site>],
    main: &ImportPath,
    steps: u64,
) -> Result<go_machine_core::runs::Run, Rule>
    ensures ok { IfOk result (λ run. Gives (program_of place_declared (map object_shown objects.now) main.now) steps (run_shown run)) }
    ensures err { IfErr result (λ rule. (rule ≡ Rule.M0) ⊎ ((rule ≡ Rule.J1) × HasNoMain (program_of place_declared (map object_shown objects.now) main.now)) ⊎ ((rule ≡ Rule.J2) × IsBeyond (program_of place_declared (map object_shown objects.now) main.now)) ⊎ ((rule ≡ Rule.Z1) × GetsStuck (program_of place_declared (map object_shown objects.now) main.now) steps)) }
{
    go_machine_core::runs::run(alloc, &SitePlaces, objects, main, steps)
}
