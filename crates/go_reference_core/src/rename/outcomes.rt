//! Whether an occurrence has what it had.
ghost use Rattle.std.specs.Prelude.{◌≡◌, ◌↔◌, IsTrue};
ghost use Rattle.go_denote_core.specs.declared.things.Outcome.TheVariants as outcomes;
ghost use Rattle.go_graph_core.specs.Workspaces.{IsWorkspace};
ghost use Rattle.go_handle_core.specs.Declarations.{site_shown};
ghost use Rattle.go_reference_core.specs.rename.Moving.{IsMovedDeclaration, IsMovedOutcome, IsMovedUse, KeepsDeclared, KeepsSelected, moves_of};

use crate::rename::names::{Names, lies};
use crate::rename::places::is_moved_declaration;
use go_denote_core::Outcome;
use go_graph_core::PackageSource;
use go_handle_core::DeclSite;
use go_path_core::text_core::Rule;
use go_query_core::report_core::{Answer, Site};
use go_tree_core::Role;

// Whether two rules are the same.
pub(crate) fn is_same_rule(one: Rule, other: Rule) -> bool
    ensures { IsTrue result ↔ (one ≡ other) }
{
    one == other
}

// Whether two occurrences are of one kind.
fn is_same_role(one: Role, other: Role) -> bool
    ensures { IsTrue result ↔ (one ≡ other) }
{
    one == other
}

// Where something is declared.
fn site_of(site: &Site) -> DeclSite<'_>
    ensures { site_shown result ≡ site.now }
{
    site.decl().site()
}

// Whether an occurrence is refused by a rule.
fn keeps_refused(rule: Rule, new: &Answer) -> bool
    ensures { IsTrue result ↔ (new.now.outcome ≡ outcomes.Refused rule) }
{
    match &new.outcome {
        Outcome::Declared(_) => false,
        Outcome::Selected(_, _) => false,
        Outcome::Refused(its) => is_same_rule(*its, rule),
    }
}

// Whether a declaration is where another one comes to lie.
fn is_moved_site(packages: &[PackageSource], names: &Names, old: &Site, new: &Site) -> bool
    requires { IsWorkspace packages.now }
    ensures { IsTrue result ↔ IsMovedDeclaration (moves_of names.now) packages.now old.now new.now }
{
    let had = site_of(old);
    let has = site_of(new);
    is_moved_declaration(packages, names, had, has)
}

// Whether an occurrence has a declaration where this one comes to lie.
fn keeps_declared(packages: &[PackageSource], names: &Names, own: &Site, new: &Answer) -> bool
    requires { IsWorkspace packages.now }
    ensures { IsTrue result ↔ KeepsDeclared (moves_of names.now) packages.now own.now new.now.outcome }
{
    match &new.outcome {
        Outcome::Declared(its) => is_moved_site(packages, names, own, its),
        Outcome::Selected(_, _) => false,
        Outcome::Refused(_) => false,
    }
}

// Whether an occurrence selects a member that is declared where this one comes to lie.
fn keeps_selected(packages: &[PackageSource], names: &Names, own: &Site, new: &Answer) -> bool
    requires { IsWorkspace packages.now }
    ensures { IsTrue result ↔ KeepsSelected (moves_of names.now) packages.now own.now new.now.outcome }
{
    match &new.outcome {
        Outcome::Declared(_) => false,
        Outcome::Selected(its, _) => is_moved_site(packages, names, own, its),
        Outcome::Refused(_) => false,
    }
}

// Whether an occurrence has what another one had.
fn keeps_outcome(packages: &[PackageSource], names: &Names, old: &Answer, new: &Answer) -> bool
    requires { IsWorkspace packages.now }
    ensures { IsTrue result ↔ IsMovedOutcome (moves_of names.now) packages.now old.now.outcome new.now.outcome }
{
    match &old.outcome {
        Outcome::Declared(own) => keeps_declared(packages, names, own, new),
        Outcome::Selected(own, _) => keeps_selected(packages, names, own, new),
        Outcome::Refused(rule) => keeps_refused(*rule, new),
    }
}

/// Whether an occurrence stands where one of the file of two numbers comes to lie, and has what that had.
pub(crate) fn is_moved_use(
    packages: &[PackageSource],
    names: &Names,
    package: usize,
    file: usize,
    old: &Answer,
    new: &Answer,
) -> bool
    requires { IsWorkspace packages.now }
    ensures { IsTrue result ↔ IsMovedUse (moves_of names.now) packages.now «package» file old.now new.now }
{
    if !lies(names, package, file, old.offset, new.offset) {
        return false;
    }
    if !is_same_role(new.role, old.role) {
        return false;
    }
    keeps_outcome(packages, names, old, new)
}
