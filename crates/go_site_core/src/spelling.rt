//! How declarations of a workspace are written.
ghost use Rattle.std.specs.Prelude.{◌≡◌, ◌++◌, Some, map, option_map, string_bytes, IfOk, OnOk};
ghost use Rattle.go_site_core.specs.Sites.{file_number, held_items, place_of_site, located_in, offset_among, offsets_in, located_text, site_place, site_text, text_at, with_offset};
ghost use Rattle.go_handle_core.specs.Declarations.{site_shown};

use crate::offsets::all_offsets;
use crate::search::number_of;
use go_graph_core::{SourceFile, Workspace};
use go_handle_core::DeclSite;
use go_object_core::Spelling;
use go_report_core::answer::Site;
use go_term_core::MemberPlace;
use std::alloc::{AllocError, Global};
use std::marker::Model;

/// How the declarations of a workspace are written. What the files declare is counted once, when it is made. Contracts see the workspace.
pub struct SiteSpelling<'w> {
    workspace: &'w Workspace,
    // By the numbers of packages, of files, and of the identifiers that a file declares outside function bodies.
    offsets: Vec<Vec<Vec<usize>>>,
}

impl Drop for SiteSpelling<'_> {
    fn drop(self) {
        let SiteSpelling {
            workspace: _,
            offsets: _,
        } = self;
    }
}

impl<'w> Model for SiteSpelling<'w> {
    ghost use Rattle.std.specs.Prelude.{◌≡◌, List, map};
    ghost use Rattle.std.specs.Coded.{coded_list};
    ghost use Rattle.go_graph_core.specs.Workspaces.{PackageModel, coded_package};
    ghost use Rattle.go_site_core.specs.Sites.{held_items, offsets_in};

    ghost Value = { List PackageModel };

    ghost coded = { coded_list coded_package };

    ghost view = { λ s. s.workspace.now };

    ghost invariant = { λ s. map (λ p. map held_items p.items) s.offsets.items ≡ map (λ p. map (λ f. offsets_in f.content) p.1) s.workspace.now };
}

// The number of the file of an identifier.
pub(crate) fn file_number(place: MemberPlace) -> usize
    ensures { result ≡ file_number place }
{
    match place {
        MemberPlace::Declared(decl) => decl.file,
        MemberPlace::Local(local) => local.file,
    }
}

// The offset of an identifier of a file that declares identifiers at these offsets outside function bodies.
pub(crate) fn offset_among(offsets: &[usize], place: MemberPlace) -> Option<usize>
    ensures { result ≡ offset_among offsets.now place }
{
    match place {
        MemberPlace::Declared(decl) => offsets.get(decl.number).copied(),
        MemberPlace::Local(local) => Some(local.offset),
    }
}

// The name of a file, and an offset in it, if there is one.
pub(crate) fn at_offset(file: &SourceFile, offset: Option<usize>) -> Option<(&str, usize)>
    ensures { option_map (λ at. (at.0.now, at.1)) result ≡ with_offset file.now.name offset }
{
    match offset {
        Some(offset) => Some((file.name(), offset)),
        None => None,
    }
}

// The name of the file of an identifier of a package with these files, and its offset there.
fn locate<'a>(
    files: &'a [SourceFile],
    offsets: &[Vec<usize>],
    place: MemberPlace,
) -> Option<(&'a str, usize)>
    requires { map held_items offsets.now ≡ map (λ s. offsets_in s.content) files.now }
    ensures { option_map (λ at. (at.0.now, at.1)) result ≡ located_in place (Some files.now) }
{
    let number = file_number(place);
    let file = files.get(number)?;
    let declared = offsets.get(number)?;
    at_offset(file, offset_among(declared.as_slice(), place))
}

// Adds where an identifier of the package of a path stands.
fn add_offset(text: &mut String, path: &str, name: &str, offset: usize) -> Result<(), AllocError>
    ensures { OnOk result (string_bytes text.new ≡ string_bytes text.old ++ located_text path.now (Some (name.now, offset))) }
{
    text.push_str(path)?;
    text.push_str("/")?;
    text.push_str(name)?;
    text.push_str(":")?;
    write!(text, "{offset}")
}

// Adds a declaration, which stands here where it is one of a file.
pub(crate) fn add_text(
    text: &mut String,
    site: DeclSite<'_>,
    at: Option<(&str, usize)>,
) -> Result<(), AllocError>
    ensures { OnOk result (string_bytes text.new ≡ string_bytes text.old ++ text_at (site_shown site.entry) (option_map (λ at. (at.0.now, at.1)) at.entry)) }
{
    match site {
        DeclSite::Universe(predeclared) => {
            text.push_str("universe.")?;
            text.push_str(predeclared.spelling())
        }
        DeclSite::ErrorMethod => text.push_str("universe.error.Error"),
        DeclSite::Package(path) => {
            text.push_str("package ")?;
            text.push_str(path.as_str())
        }
        DeclSite::InFile(path, _) => match at {
            Some((name, offset)) => add_offset(text, path.as_str(), name, offset),
            None => Ok(()),
        },
    }
}

impl<'w> SiteSpelling<'w> {
    /// How the declarations of a workspace are written. The time is linear in what its files declare.
    ///
    /// # Errors
    ///
    /// `AllocError` where memory is wanting.
    pub fn new(alloc: Global, workspace: &'w Workspace) -> Result<SiteSpelling<'w>, AllocError>
        ensures { IfOk result (λ s. s ≡ workspace.now) }
    {
        let offsets = all_offsets(alloc, workspace.packages())?;
        Ok(SiteSpelling { workspace, offsets })
    }

    // The name of the file of an identifier of the package of a path, and its offset there. The time is logarithmic in the packages.
    fn find(&self, path: &str, place: MemberPlace) -> Option<(&str, usize)>
        ensures { option_map (λ at. (at.0.now, at.1)) result ≡ place_of_site self.now path.now place }
    {
        let packages = self.workspace.packages();
        let number = number_of(packages, path)?;
        let source = packages.get(number)?;
        let offsets = self.offsets.get(number)?;
        locate(source.files(), offsets.as_slice(), place)
    }

    // The name of the file of a declaration, and its offset there, where it is one of a file.
    fn find_site(&self, site: DeclSite<'_>) -> Option<(&str, usize)>
        ensures { option_map (λ at. (at.0.now, at.1)) result ≡ site_place self.now (site_shown site.entry) }
    {
        match site {
            DeclSite::Universe(_) | DeclSite::ErrorMethod | DeclSite::Package(_) => None,
            DeclSite::InFile(path, place) => self.find(path.as_str(), place),
        }
    }

    /// Adds a declaration: `universe.NAME`, `package PATH`, or `PATH/FILE:OFFSET` with the offset in bytes of the identifier that it declares. Of a
    /// package, a file or a declaration that the workspace has not nothing is added.
    ///
    /// # Errors
    ///
    /// `AllocError` where memory is wanting.
    pub fn add_site(&self, text: &mut String, site: &Site) -> Result<(), AllocError>
        ensures { OnOk result (string_bytes text.new ≡ string_bytes text.old ++ site_text self.now site.now) }
    {
        let site = site.decl().site();
        let at = self.find_site(site);
        add_text(text, site, at)
    }
}

impl Spelling<Site> for SiteSpelling<'_> {
    ghost use Rattle.go_site_core.specs.Sites.{site_text};

    ghost text_of = { λ s d. site_text s d };

    fn add_decl(&self, text: &mut String, decl: &Site) -> Result<(), AllocError> {
        self.add_site(text, decl)
    }
}
