//! Where things are declared, held.
ghost use Rattle.std.specs.Prelude.{◌≡◌, IfOk};
ghost use Rattle.go_summary_core.specs.handle_core.Declarations.{site_shown};
ghost use Rattle.go_report_core.specs.answer.Sites.{held_shown};

use go_path_core::ImportPath;
use go_summary_core::handle_core::{Decl, DeclSite};
use go_term_core::MemberPlace;
use go_universe_core::Predeclared;
use std::alloc::AllocError;
use std::marker::Model;

// Where something is declared.
#[derive(Drop)]
enum Held {
    // A predeclared name.
    Universe(Predeclared),
    // The method `Error` of the predeclared type `error`.
    ErrorMethod,
    // The package of a path.
    Package(ImportPath),
    // An identifier of a file of the package of a path.
    InFile(ImportPath, MemberPlace),
}

/// A declaration, held: it lends nothing of the package that it was found in, and shares the path. Contracts see where it is, as of
/// `go_handle_core`'s `Decl`.
pub struct Site {
    held: Held,
}

impl Drop for Site {
    fn drop(self) {
        let Site { held: _ } = self;
    }
}

impl Model for Site {
    ghost use Rattle.go_summary_core.specs.handle_core.Declarations.{Declaration};
    ghost use Rattle.go_report_core.specs.answer.Sites.{held_shown};

    ghost Value = { Declaration };

    ghost view = { λ s. held_shown s.held };
}

// Where something is declared, held.
fn hold(site: DeclSite<'_>) -> Result<Held, AllocError>
    ensures { IfOk result (λ h. held_shown h ≡ site_shown site.entry) }
{
    match site {
        DeclSite::Universe(name) => Ok(Held::Universe(name)),
        DeclSite::ErrorMethod => Ok(Held::ErrorMethod),
        DeclSite::Package(path) => Ok(Held::Package(path.share()?)),
        DeclSite::InFile(path, place) => Ok(Held::InFile(path.share()?, place)),
    }
}

impl Site {
    /// The same declaration, held. It takes no memory.
    ///
    /// # Errors
    ///
    /// `AllocError` where the path of the package has too many owners.
    pub fn of(decl: &Decl<'_>) -> Result<Site, AllocError>
        ensures { IfOk result (λ s. s ≡ decl.now) }
    {
        Ok(Site {
            held: hold(decl.site())?,
        })
    }

    /// The same declaration, lent.
    pub fn decl(&self) -> Decl<'_>
        ensures { result ≡ self.now }
    {
        Decl::at(match &self.held {
            Held::Universe(name) => DeclSite::Universe(*name),
            Held::ErrorMethod => DeclSite::ErrorMethod,
            Held::Package(path) => DeclSite::Package(path),
            Held::InFile(path, place) => DeclSite::InFile(path, *place),
        })
    }
}
