//! How one declaration is written: of the workspace no more is read than its file.
ghost use Rattle.std.specs.Prelude.{◌≡◌, option_map, slice_get, string_bytes, IfOk};
ghost use Rattle.go_graph_core.specs.Workspaces.{files_at};
ghost use Rattle.go_site_core.specs.Sites.{file_in, file_number, offset_among, offsets_in, place_of_site, site_place, site_text};

use crate::offsets::file_offsets;
use crate::search::number_of;
use crate::spelling::{add_text, at_offset, file_number, offset_among};
use go_graph_core::{SourceFile, Workspace};
use go_handle_core::DeclSite;
use go_report_core::answer::Site;
use go_term_core::MemberPlace;
use std::alloc::{AllocError, Global};

// The file of an identifier of a package with these files.
fn file_at(files: &[SourceFile], place: MemberPlace) -> Option<&SourceFile>
    ensures { option_map (λ file. file.now) result ≡ slice_get files.now (file_number place) }
{
    files.get(file_number(place))
}

// The file of an identifier of the package of a path. The time is logarithmic in the packages.
fn file_of<'w>(workspace: &'w Workspace, path: &str, place: MemberPlace) -> Option<&'w SourceFile>
    ensures { option_map (λ file. file.now) result ≡ file_in place (files_at workspace.now path.now) }
{
    let packages = workspace.packages();
    let number = number_of(packages, path)?;
    let source = packages.get(number)?;
    file_at(source.files(), place)
}

// The offset of an identifier of a file. Where it is declared outside function bodies, the time is linear in the file.
fn offset_in(
    alloc: Global,
    file: &SourceFile,
    place: MemberPlace,
) -> Result<Option<usize>, AllocError>
    ensures { IfOk result (λ offset. offset ≡ offset_among (offsets_in file.now.content) place) }
{
    match place {
        MemberPlace::Declared(_) => {
            let offsets = file_offsets(alloc, file)?;
            Ok(offset_among(offsets.as_slice(), place))
        }
        MemberPlace::Local(local) => Ok(Some(local.offset)),
    }
}

// The name of the file of an identifier of the package of a path, and its offset there.
#[tactic(auto, using(crate::proofs::Locating::located_by))]
fn place_of<'w>(
    alloc: Global,
    workspace: &'w Workspace,
    path: &str,
    place: MemberPlace,
) -> Result<Option<(&'w str, usize)>, AllocError>
    ensures { IfOk result (λ found. option_map (λ at. (at.0.now, at.1)) found ≡ place_of_site workspace.now path.now place) }
{
    match file_of(workspace, path, place) {
        Some(file) => match offset_in(alloc, file, place) {
            Ok(offset) => Ok(at_offset(file, offset)),
            Err(error) => Err(error),
        },
        None => Ok(None),
    }
}

/// Where a declaration stands: the name of its file, which is one of the package of its path, and there the offset in bytes of the identifier that it
/// declares. `None` for a predeclared name and for a package, and where the workspace has not its package, its file or a declaration of its number.
///
/// Of the workspace no more than the one file is read: the time is linear in what it declares, and logarithmic in the packages.
///
/// # Errors
///
/// `AllocError` where memory is wanting.
pub fn site_place<'w>(
    alloc: Global,
    workspace: &'w Workspace,
    site: &Site,
) -> Result<Option<(&'w str, usize)>, AllocError>
    ensures { IfOk result (λ found. option_map (λ at. (at.0.now, at.1)) found ≡ site_place workspace.now site.now) }
{
    match site.decl().site() {
        DeclSite::Universe(_) | DeclSite::ErrorMethod | DeclSite::Package(_) => Ok(None),
        DeclSite::InFile(path, place) => place_of(alloc, workspace, path.as_str(), place),
    }
}

/// How a declaration of a workspace is written: `universe.NAME`, `package PATH`, or `PATH/FILE:OFFSET` with the offset in bytes of the identifier
/// that it declares; of a package, a file or a declaration that the workspace has not, nothing. It is what [`SiteSpelling`](crate::SiteSpelling)
/// adds, which counts what all files declare once, for many declarations; here the time is linear in what the one file declares.
///
/// # Errors
///
/// `AllocError` where memory is wanting.
pub fn site_text_of(alloc: Global, workspace: &Workspace, site: &Site) -> Result<String, AllocError>
    ensures { IfOk result (λ text. string_bytes text ≡ site_text workspace.now site.now) }
{
    match site_place(alloc, workspace, site) {
        Ok(at) => {
            let mut text = String::new(alloc);
            add_text(&mut text, site.decl().site(), at)?;
            Ok(text)
        }
        Err(error) => Err(error),
    }
}
