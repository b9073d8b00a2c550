//! The declarations of a package, where they stand.
ghost use Rattle.std.specs.Prelude.{◌≡◌, ◌++◌, IfOk, OnOk, length, map};
ghost use Rattle.go_term_core.specs.decl_core.Shown.{decl_shown};
ghost use Rattle.go_typexpr_core.specs.entry.Outlines.{outline_shown};
ghost use Rattle.go_value_core.specs.Package.{placed, placed_decls, placed_shown};

use go_stmt_core::inline_core::InlineTypes;
use go_term_core::decl_core::{Outline, TopDecl};
use std::alloc::{AllocError, Global};

/// A declaration of a package outside functions, where it stands.
#[derive(Clone, Copy)]
pub struct PlacedDecl<'p> {
    /// The number of its file among those of the package in order of name, from 0.
    pub file: usize,
    /// The types that are written in the initialisers of the file.
    pub types: &'p InlineTypes,
    pub decl: TopDecl<'p>,
}

// Adds the declarations of a file.
fn add_file<'p>(
    file: usize,
    types: &'p InlineTypes,
    decls: &[TopDecl<'p>],
    all: &mut Vec<PlacedDecl<'p>>,
) -> Result<(), AllocError>
    ensures { OnOk result (map placed_shown all.new.items ≡ map placed_shown all.old.items ++ map (placed file types.now) (map decl_shown decls.now)) }
{
    for decl in decls {
        all.push(PlacedDecl {
            file,
            types,
            decl: *decl,
        })?;
    }
    Ok(())
}

/// The declarations of the files of a package, in order of file and number, with the types that are written in the initialisers of each
/// file.
///
/// # Errors
///
/// `AllocError` where memory is wanting.
pub fn placed_decls<'p>(
    alloc: Global,
    inlines: &'p [InlineTypes],
    outlines: &[Outline<'p>],
) -> Result<Vec<PlacedDecl<'p>>, AllocError>
    requires { length inlines.now ≡ length outlines.now }
    ensures { IfOk result (λ all. map placed_shown all.items ≡ placed_decls inlines.now (map outline_shown outlines.now)) }
{
    let mut all = Vec::new(alloc);
    for (file, outline) in outlines.iter().enumerate() {
        add_file(file, &inlines[file], &outline.decls, &mut all)?;
    }
    Ok(all)
}
