//! The check of the files of a package.
ghost use Rattle.std.specs.Prelude.{◌≡◌, IfOk, map};
ghost use Rattle.std.specs.List.{AllZip};
ghost use Rattle.go_body_core.specs.file.Package.{IsReady, checked_file_shown, files_checked, lent_tree};

use crate::file::file_at::FileAt;
use crate::file::whole::{CheckedFile, check_file};
use go_env_core::{Recall, TypesOf};
use go_text_core::add;
use go_tree_nodes::File;
use go_typexpr_core::entry::ImportedNames;
use std::alloc::{AllocError, Global};

/// Checks the files of a package, each with its tree, as [`check_file`] does. They have one table of types, and share what is decided of them.
///
/// # Errors
///
/// `AllocError` where memory is wanting.
pub fn check_bodies<'n, 'p, P: ImportedNames, K: TypesOf>(
    alloc: Global,
    files: &[FileAt<'n, 'p, P>],
    trees: &[&File],
    recall: &Recall<'p, K>,
) -> Result<Vec<CheckedFile<'p>>, AllocError>
    requires { AllZip (IsReady P.shows K.types) files.now (map lent_tree trees.now) }
    ensures { IfOk result (λ cs. map checked_file_shown cs.items ≡ files_checked P.shows files.now (map lent_tree trees.now)) }
{
    let mut checked = Vec::new(alloc);
    for (at, tree) in files.iter().zip(trees) {
        let file = check_file(alloc, at, tree, recall)?;
        add(&mut checked, file)?;
    }
    Ok(checked)
}
