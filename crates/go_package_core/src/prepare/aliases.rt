//! The aliases of a package.
ghost use Rattle.std.specs.Prelude.{◌≡◌, IfOk, map};
ghost use Rattle.go_body_core.specs.typexpr_core.EntryOutlines.{outline_shown};
ghost use Rattle.go_package_core.specs.prepare.Packages.{outlines_in, package_in_shown, targets_in};

use crate::prepare::package_at::PackageAt;
use go_body_core::typexpr_core::{Aliases, ImportedNames, aliases_of, written_aliases};
use go_term_core::decl_core::Outline;
use std::alloc::{AllocError, Global};

/// The aliases that a package declares, with their targets. `outlines` are those of the package's files, in order of name.
///
/// The Go specification, "Alias declarations".
///
/// # Errors
///
/// `AllocError` where memory is wanting.
pub fn package_aliases<P: ImportedNames>(
    alloc: Global,
    at: &PackageAt<'_, P>,
    outlines: &[Outline<'_>],
) -> Result<Aliases, AllocError>
    requires { map outline_shown outlines.now ≡ outlines_in (package_in_shown P.shows at.now) }
    ensures { IfOk result (λ aliases. aliases ≡ targets_in (package_in_shown P.shows at.now)) }
{
    let path = at.package.path();
    let written = written_aliases(alloc, path, at.blocks, at.shown, outlines)?;
    aliases_of(alloc, path, written)
}
