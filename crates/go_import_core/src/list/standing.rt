//! What a package is to those that import it.
ghost use Rattle.std.specs.Prelude.{◌≡◌, ◌↔◌, IfOk, IsTrue};
ghost use Rattle.go_graph_core.specs.Imports.{main};
ghost use Rattle.go_import_core.specs.list.mirrors.Standings.{IsStanding, is_library, outcome_by};

use go_graph_core::{ImportOutcome, Package, PackageSource, assemble};
use go_path_core::text_core::Rule;
use std::alloc::AllocError;

/// What a package is to those that import it.
#[derive(Clone, Copy)]
pub(crate) enum Standing {
    /// Assembled, and of another name than `main`.
    Library,
    /// Assembled, and of the name `main`.
    Main,
    /// Not assembled.
    Faulty,
}

impl Standing {
    /// Whether an import of a package of this standing comes to it.
    pub(crate) fn is_library(self) -> bool
        ensures { result ≡ is_library self }
    {
        match self {
            Standing::Library => true,
            Standing::Main => false,
            Standing::Faulty => false,
        }
    }

    /// What an import of the package of a number comes to, by its standing.
    pub(crate) fn outcome(self, number: usize) -> ImportOutcome
        ensures { result ≡ outcome_by self number }
    {
        match self {
            Standing::Library => ImportOutcome::Package(number),
            Standing::Main => ImportOutcome::Refused(Rule::I5),
            Standing::Faulty => ImportOutcome::Refused(Rule::I6),
        }
    }
}

// Whether a name is that of a program.
fn is_main(name: &str) -> bool
    ensures { IsTrue result ↔ (name.now ≡ main) }
{
    name == "main"
}

// What an assembled package is to those that import it.
fn standing_of_assembled(package: &Package) -> Standing
    ensures { IsStanding «package».now result }
{
    // Its files are assembled.
    let _files = package.files();
    if is_main(package.name()) {
        Standing::Main
    } else {
        Standing::Library
    }
}

/// What a package is to those that import it.
///
/// # Errors
///
/// `AllocError` where the package has too many owners.
pub(crate) fn standing_of(source: &PackageSource) -> Result<Standing, AllocError>
    ensures { IfOk result (IsStanding source.now) }
{
    let shared = source.share()?;
    match assemble(shared) {
        Ok(package) => Ok(standing_of_assembled(&package)),
        Err(_) => Ok(Standing::Faulty),
    }
}
