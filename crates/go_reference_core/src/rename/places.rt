//! Whether a declaration is where another one comes to lie.
ghost use Rattle.std.specs.Prelude.{◌≡◌, ◌↔◌, IsTrue};
ghost use Rattle.go_term_core.specs.declared.term.MemberPlace.TheVariants as member;
ghost use Rattle.go_graph_core.specs.Workspaces.{IsWorkspace};
ghost use Rattle.go_handle_core.specs.Declarations.{site_shown};
ghost use Rattle.go_reference_core.specs.rename.Moving.{IsMovedDeclaration, IsMovedInFile, IsMovedLocal, IsMovedPlace, IsMovedPlaceOfLocal, moves_of};

use crate::is_same_declaration;
use crate::rename::names::{Names, lies};
use go_graph_core::PackageSource;
use go_handle_core::DeclSite;
use go_path_core::ImportPath;
use go_query_core::snap_core::package_of;
use go_term_core::decl_core::DeclRef;
use go_term_core::{LocalPlace, MemberPlace};

// Whether a local of the package of a path is where another one comes to lie.
fn is_moved_local(
    packages: &[PackageSource],
    names: &Names,
    path: &ImportPath,
    old: LocalPlace,
    new: LocalPlace,
) -> bool
    requires { IsWorkspace packages.now }
    ensures { IsTrue result ↔ IsMovedLocal (moves_of names.now) packages.now path.now old new }
{
    if new.file != old.file {
        return false;
    }
    match package_of(packages, path.as_str()) {
        Some(package) => lies(names, package, old.file, old.offset, new.offset),
        None => false,
    }
}

// Whether a place is where a local comes to lie.
fn is_place_of_local(
    packages: &[PackageSource],
    names: &Names,
    path: &ImportPath,
    old: LocalPlace,
    new: MemberPlace,
) -> bool
    requires { IsWorkspace packages.now }
    ensures { IsTrue result ↔ IsMovedPlaceOfLocal (moves_of names.now) packages.now path.now old new }
{
    match new {
        MemberPlace::Declared(_) => false,
        MemberPlace::Local(its) => is_moved_local(packages, names, path, old, its),
    }
}

// Whether two declarations outside function bodies are the same.
fn is_same_decl(one: DeclRef, other: DeclRef) -> bool
    ensures { IsTrue result ↔ (one ≡ other) }
{
    one == other
}

// Whether a place is that of a declaration outside function bodies.
fn is_declared(place: MemberPlace, decl: DeclRef) -> bool
    ensures { IsTrue result ↔ (place ≡ member.Declared decl) }
{
    match place {
        MemberPlace::Declared(own) => is_same_decl(own, decl),
        MemberPlace::Local(_) => false,
    }
}

// Whether a place of the package of a path is where another one comes to lie.
fn is_moved_place(
    packages: &[PackageSource],
    names: &Names,
    path: &ImportPath,
    old: MemberPlace,
    new: MemberPlace,
) -> bool
    requires { IsWorkspace packages.now }
    ensures { IsTrue result ↔ IsMovedPlace (moves_of names.now) packages.now path.now old new }
{
    match old {
        MemberPlace::Declared(decl) => is_declared(new, decl),
        MemberPlace::Local(own) => is_place_of_local(packages, names, path, own, new),
    }
}

// Whether a declaration is where an identifier of a file of the package of a path comes to lie.
fn is_moved_in_file(
    packages: &[PackageSource],
    names: &Names,
    path: &ImportPath,
    place: MemberPlace,
    new: DeclSite<'_>,
) -> bool
    requires { IsWorkspace packages.now }
    ensures { IsTrue result ↔ IsMovedInFile (moves_of names.now) packages.now path.now place (site_shown new.entry) }
{
    match new {
        DeclSite::Universe(_) => false,
        DeclSite::ErrorMethod => false,
        DeclSite::Package(_) => false,
        DeclSite::InFile(its, there) => {
            if !its.is_same(path) {
                return false;
            }
            is_moved_place(packages, names, path, place, there)
        }
    }
}

/// Whether a declaration is where another one comes to lie.
pub(crate) fn is_moved_declaration(
    packages: &[PackageSource],
    names: &Names,
    old: DeclSite<'_>,
    new: DeclSite<'_>,
) -> bool
    requires { IsWorkspace packages.now }
    ensures { IsTrue result ↔ IsMovedDeclaration (moves_of names.now) packages.now (site_shown old.entry) (site_shown new.entry) }
{
    match old {
        DeclSite::Universe(_) => is_same_declaration(new, old),
        DeclSite::ErrorMethod => is_same_declaration(new, old),
        DeclSite::Package(_) => is_same_declaration(new, old),
        DeclSite::InFile(path, place) => is_moved_in_file(packages, names, path, place, new),
    }
}
