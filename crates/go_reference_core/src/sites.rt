//! Whether two declarations are the same.
ghost use Rattle.std.specs.Prelude.{◌≡◌, ◌↔◌, IsTrue, MatchOption};
ghost use Rattle.go_denote_core.specs.declared.things.Outcome.TheVariants as outcomes;
ghost use Rattle.go_handle_core.specs.Declarations.{InFile, OfError, Package, Universe, site_shown};
ghost use Rattle.go_query_core.specs.Defining.{Declares};
ghost use Rattle.go_reference_core.specs.References.{HasDeclaration, IsRefused};

use go_denote_core::Outcome;
use go_handle_core::DeclSite;
use go_path_core::ImportPath;
use go_query_core::report_core::{Answer, Site};
use go_term_core::MemberPlace;
use go_universe_core::Predeclared;

// Whether two predeclared names are the same.
fn is_same_name(one: Predeclared, other: Predeclared) -> bool
    ensures { IsTrue result ↔ (one ≡ other) }
{
    one == other
}

// Whether it is a predeclared name.
fn is_universe(site: DeclSite<'_>, name: Predeclared) -> bool
    ensures { IsTrue result ↔ (site_shown site.entry ≡ Universe name) }
{
    match site {
        DeclSite::Universe(own) => is_same_name(own, name),
        DeclSite::ErrorMethod => false,
        DeclSite::Package(_) => false,
        DeclSite::InFile(_, _) => false,
    }
}

// Whether it is the method of the predeclared type `error`.
fn is_error_method(site: DeclSite<'_>) -> bool
    ensures { IsTrue result ↔ (site_shown site.entry ≡ OfError) }
{
    match site {
        DeclSite::Universe(_) => false,
        DeclSite::ErrorMethod => true,
        DeclSite::Package(_) => false,
        DeclSite::InFile(_, _) => false,
    }
}

// Whether it is the package of a path.
fn is_package(site: DeclSite<'_>, path: &ImportPath) -> bool
    ensures { IsTrue result ↔ (site_shown site.entry ≡ Package path.now) }
{
    match site {
        DeclSite::Universe(_) => false,
        DeclSite::ErrorMethod => false,
        DeclSite::Package(own) => own.is_same(path),
        DeclSite::InFile(_, _) => false,
    }
}

// Whether it is an identifier of a file of the package of a path.
fn is_in_file(site: DeclSite<'_>, path: &ImportPath, place: MemberPlace) -> bool
    ensures { IsTrue result ↔ (site_shown site.entry ≡ InFile path.now place) }
{
    match site {
        DeclSite::Universe(_) => false,
        DeclSite::ErrorMethod => false,
        DeclSite::Package(_) => false,
        DeclSite::InFile(own, there) => there == place && own.is_same(path),
    }
}

/// Whether two declarations are the same.
pub fn is_same_declaration(one: DeclSite<'_>, other: DeclSite<'_>) -> bool
    ensures { IsTrue result ↔ (site_shown one.entry ≡ site_shown other.entry) }
{
    match other {
        DeclSite::Universe(name) => is_universe(one, name),
        DeclSite::ErrorMethod => is_error_method(one),
        DeclSite::Package(path) => is_package(one, path),
        DeclSite::InFile(path, place) => is_in_file(one, path, place),
    }
}

// The declaration of an outcome; none where it is refused.
fn declared(answer: &Answer) -> Option<&Site>
    ensures { MatchOption result (IsRefused answer.now.outcome) (λ site. Declares answer.now.outcome site.now) }
{
    match &answer.outcome {
        Outcome::Declared(site) => Some(site),
        Outcome::Selected(site, _) => Some(site),
        Outcome::Refused(_) => None,
    }
}

/// Whether what stands at an occurrence is an identifier that has a declaration.
pub fn has_declaration(answer: &Answer, site: DeclSite<'_>) -> bool
    ensures { IsTrue result ↔ HasDeclaration (site_shown site.entry) answer.now }
{
    if !answer.role.is_identifier() {
        return false;
    }
    match declared(answer) {
        Some(own) => is_same_declaration(own.decl().site(), site),
        None => false,
    }
}
