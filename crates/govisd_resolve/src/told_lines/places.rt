//! How declarations are written.
ghost use Rattle.std.specs.Prelude.{◌≡◌, ◌++◌, OnOk};
ghost use Rattle.go_handle_core.specs.Declarations.{site_shown};
ghost use Rattle.govisd_resolve.specs.told_lines.Lines.{declaration_text, offset_in, place_text};

use crate::told_lines::bytes::{push, push_number};
use go_handle_core::DeclSite;
use go_term_core::MemberPlace;
use go_term_core::decl_core::Places;
use std::alloc::AllocError;

// The offset of an identifier of a file, in bytes from the file's start.
fn offset_in(places: &Places, place: MemberPlace) -> usize
    ensures { result ≡ offset_in places.now place }
{
    match place {
        MemberPlace::Declared(decl) => match places.place(decl.number) {
            Some(found) => found.at,
            None => 0,
        },
        MemberPlace::Local(local) => local.offset,
    }
}

// Adds where an identifier of a file of the package of a path stands.
fn push_place(out: &mut Vec<u8>, path: &str, name: &str, offset: usize) -> Result<(), AllocError>
    ensures { OnOk result (out.new.items ≡ out.old.items ++ place_text path.now name.now offset) }
{
    push(out, path.as_bytes())?;
    push(out, b"/")?;
    push(out, name.as_bytes())?;
    push(out, b":")?;
    push_number(out, offset)
}

/// Adds a declaration, where the file has this name and declares these identifiers outside functions.
///
/// # Errors
///
/// `AllocError` where memory is wanting.
pub(crate) fn push_declaration(
    out: &mut Vec<u8>,
    name: &str,
    places: &Places,
    site: DeclSite<'_>,
) -> Result<(), AllocError>
    ensures { OnOk result (out.new.items ≡ out.old.items ++ declaration_text name.now places.now (site_shown site.entry)) }
{
    match site {
        DeclSite::Universe(predeclared) => {
            push(out, b"universe.")?;
            push(out, predeclared.spelling().as_bytes())
        }
        DeclSite::ErrorMethod => push(out, b"universe.error.Error"),
        DeclSite::Package(path) => {
            push(out, b"package ")?;
            push(out, path.as_str().as_bytes())
        }
        DeclSite::InFile(path, place) => {
            let offset = offset_in(places, place);
            push_place(out, path.as_str(), name, offset)
        }
    }
}
