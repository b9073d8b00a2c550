//! The outlines of the files of a package.
ghost use Rattle.std.specs.Prelude.{◌≡◌, All, IfOk, OnOk, map, ◌++◌};
ghost use Rattle.go_graph_core.specs.Packages.{trees_of};
ghost use Rattle.go_typexpr_core.specs.entry.Outlines.{IsOutline, outline_of, outline_shown};

use go_graph_core::SourceFile;
use go_path_core::text_core::add;
use go_term_core::decl_core::{Outline, outline};
use std::alloc::{AllocError, Global};

/// The outlines of those of a package's files that have a tree, in order: in a package that assembles of all its files in order of name.
///
/// # Errors
///
/// `AllocError` where memory is wanting.
pub fn outlines<'a>(alloc: Global, files: &'a [SourceFile]) -> Result<Vec<Outline<'a>>, AllocError>
    ensures files { IfOk result (λ os. map outline_shown os.items ≡ map (λ t. outline_of t.1) (trees_of files.now)) }
    ensures each { IfOk result (λ os. All IsOutline (map outline_shown os.items)) }
{
    let mut outlines = Vec::new(alloc);
    for file in files {
        match file.tree() {
            Ok(tree) => {
                let outline = outline(alloc, tree)?;
                add(&mut outlines, outline)?;
            }
            Err(_) => {}
        }
    }
    Ok(outlines)
}
