//! Declarations.
ghost use Rattle.std.specs.Prelude.{◌≡◌};
ghost use Rattle.go_handle_core.specs.Declarations.{site_shown, declaration_found};
ghost use Rattle.go_mset_core.specs.embed_core.OwnersShown.{found_shown};

use crate::inside::member_site;
use go_mset_core::select_core::Member;
use go_table_core::path_core::ImportPath;
use go_term_core::MemberPlace;
use go_universe_core::Predeclared;
use std::marker::Model;

/// Where something is declared.
#[derive(Clone, Copy)]
pub enum DeclSite<'a> {
    /// A predeclared name.
    Universe(Predeclared),
    /// The method `Error` of the predeclared type `error`.
    ErrorMethod,
    /// The package that an import declares, by its path.
    Package(&'a ImportPath),
    /// An identifier of a file of the package of a path: a declaration of the package, a member of a type, or a local of a body.
    InFile(&'a ImportPath, MemberPlace),
}

/// A declaration. Contracts see where it is.
pub struct Decl<'a> {
    site: DeclSite<'a>,
}

impl Drop for Decl<'_> {
    fn drop(self) {
        let Decl { site: _ } = self;
    }
}

impl<'a> Model for Decl<'a> {
    ghost use Rattle.go_handle_core.specs.Declarations.{Declaration, site_shown};

    ghost Value = { Declaration };

    ghost view = { λ d. site_shown d.site };
}

impl<'a> Decl<'a> {
    /// What is declared at a site.
    pub fn at(site: DeclSite<'a>) -> Decl<'a>
        ensures { result ≡ site_shown site.entry }
    {
        Decl { site }
    }

    /// Where it is declared.
    pub fn site(&self) -> DeclSite<'a>
        ensures { site_shown result ≡ self.now }
    {
        self.site
    }

    /// The same declaration once more. It takes no memory.
    pub fn again(&self) -> Decl<'a>
        ensures { result ≡ self.now }
    {
        Decl { site: self.site }
    }
}

/// The declaration of a member.
pub(crate) fn member_decl<'a>(member: Member<'a>) -> Decl<'a>
    ensures { result ≡ declaration_found (found_shown member.entry) }
{
    Decl::at(member_site(member))
}
