//! Copies of files.
ghost use Rattle.std.specs.Prelude.{◌≡◌, IfOk};
ghost use Rattle.go_tree_nodes.specs.Shapes.{file_of};
ghost use Rattle.go_tree_core.specs.copies.Respelled.{spelled, file_with, respelled_file};

use crate::copies::copier::{Copier, Renaming};
use crate::copies::copies::{copied, copy_ident};
use crate::copies::stmt_copies::{copy_imports, copy_tops};
use go_tree_nodes::File;
use std::alloc::{AllocError, Global};

/// A second file with the same tree: each place, name, literal and tag is the same.
///
/// # Errors
///
/// [`AllocError`] where memory runs out.
pub fn copy(alloc: Global, file: &File) -> Result<File, AllocError>
    ensures { IfOk result (λ f. file_of f ≡ file_of file.now) }
{
    let copier = Copier {
        alloc,
        renaming: None,
    };
    copy_file(&copier, file)
}

/// A second file with the same tree, but that each identifier which begins at the offset `start`, in bytes of the text, is spelled
/// `name`. Each span is the same.
///
/// # Errors
///
/// [`AllocError`] where memory runs out.
pub fn respelled(alloc: Global, file: &File, start: u32, name: &str) -> Result<File, AllocError>
    ensures { IfOk result (λ f. file_of f ≡ respelled_file start name.now (file_of file.now)) }
{
    let copier = Copier {
        alloc,
        renaming: Some(Renaming { start, name }),
    };
    copy_file(&copier, file)
}

// The file, in which each identifier is spelled as the copier says.
fn copy_file(copier: &Copier<'_>, file: &File) -> Result<File, AllocError>
    ensures { IfOk result (λ f. file_of f ≡ file_with (spelled copier.now) (file_of file.now)) }
{
    let name = copied!(copy_ident(copier, &file.name));
    let imports = copied!(copy_imports(copier, &file.imports));
    let decls = copied!(copy_tops(copier, &file.decls));
    Ok(File {
        clause: file.clause,
        name,
        semicolon: file.semicolon,
        imports,
        decls,
    })
}
