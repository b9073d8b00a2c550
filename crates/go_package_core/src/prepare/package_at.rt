//! A package that is checked.
ghost use Rattle.std.specs.Prelude.{◌≡◌, All, IfOk, map};
ghost use Rattle.std.specs.List.{AllByRecursion};
ghost use Rattle.go_body_core.specs.typexpr_core.EntryOutlines.{outline_shown};
ghost use Rattle.go_package_core.specs.prepare.Inlines.{IsPlacedOutline};
ghost use Rattle.go_package_core.specs.prepare.Packages.{outlines_in, package_in_shown};
ghost use Rattle.go_tree_nodes.specs.Spelling.{IsPlaced};

use go_block_core::graph_core::Package;
use go_block_core::{Blocks, Imported};
use go_body_core::typexpr_core::{ImportedNames, outlines};
use go_report_core::declared_core::FaceTable;
use go_term_core::decl_core::Outline;
use std::alloc::{AllocError, Global};

/// A package, with what is known of it and of the packages that it imports before its check. All is lent.
#[derive(Drop)]
pub struct PackageAt<'a, P> {
    pub package: &'a Package,
    /// What its package block and its file blocks bind.
    pub blocks: &'a Blocks,
    /// What the imports of each file come to: the files in order of name, the imports of each in order of place.
    pub imports: &'a [Vec<Imported>],
    /// The names that other packages show.
    pub shown: &'a P,
    /// What the packages show that it imports, with faces.
    pub faces: &'a FaceTable,
}

/// The outlines of the files of a package, in order of name. The tokens of each file follow one another.
///
/// # Errors
///
/// `AllocError` where memory is wanting.
pub fn package_outlines<'a, P: ImportedNames>(
    alloc: Global,
    at: &PackageAt<'a, P>,
) -> Result<Vec<Outline<'a>>, AllocError>
    ensures outlines { IfOk result (λ os. map outline_shown os.items ≡ outlines_in (package_in_shown P.shows at.now)) }
    ensures placed { IfOk result (λ os. AllByRecursion IsPlacedOutline (map outline_shown os.items)) }
    ensures trees { IfOk result (λ os. All IsPlaced (package_in_shown P.shows at.now).trees) }
{
    outlines(alloc, at.package.files())
}
