//! Checked files, with what is known of their packages where expressions are judged.
ghost use Rattle.std.specs.Prelude.{◌≡◌, IfOk, map};
ghost use Rattle.std.specs.Option.{option_map};
ghost use Rattle.go_env_core.specs.declared_core.Faces.{face_shown};
ghost use Rattle.go_env_core.specs.Scenes.{scene_shown};
ghost use Rattle.go_judge_core.specs.Places.{scene_in};

use crate::known::{PackageKnown, package_known};
use go_complete_core::snap_core::{FileIn, Snapshot};
use go_env_core::Scene;
use go_env_core::declared_core::{Face, lend};
use go_env_core::handle_core::{SignatureRef, TypeRef};
use go_table_core::path_core::ImportPath;
use go_term_core::{Signature, TypeTerm};
use go_tree_nodes::text_core::add;
use std::alloc::{AllocError, Global};

/// A checked file, with what is known of its package where expressions are judged: it is made once for all places of the file.
pub struct CheckedFile<'s> {
    pub(crate) file: FileIn<'s>,
    pub(crate) known: PackageKnown,
    /// What the declarations of the package outside functions are, in order of file and number: none where what one needs leads back to itself.
    pub(crate) declared: Vec<Option<Face<TypeRef<'s>, SignatureRef<'s>>>>,
}

impl Drop for CheckedFile<'_> {
    fn drop(self) {
        let CheckedFile {
            file: _,
            known: _,
            declared: _,
        } = self;
    }
}

// What a declaration is, lent, if it is known.
fn lend_some<'p>(
    face: &'p Option<Face<TypeTerm, Signature>>,
) -> Result<Option<Face<TypeRef<'p>, SignatureRef<'p>>>, AllocError>
    ensures { IfOk result (λ lent. lent ≡ option_map face_shown face.now) }
{
    match face {
        Some(face) => Ok(Some(lend(face)?)),
        None => Ok(None),
    }
}

// What declarations are, lent.
fn lend_all<'p>(
    alloc: Global,
    declared: &'p [Option<Face<TypeTerm, Signature>>],
) -> Result<Vec<Option<Face<TypeRef<'p>, SignatureRef<'p>>>>, AllocError>
    ensures { IfOk result (λ lent. lent.items ≡ map (option_map face_shown) declared.now) }
{
    let mut lent = Vec::new(alloc);
    for face in declared {
        add(&mut lent, lend_some(face)?)?;
    }
    Ok(lent)
}

// A file with what is known of its package.
fn checked_of(alloc: Global, file: FileIn<'_>) -> Result<CheckedFile<'_>, AllocError> {
    let known = package_known(alloc, file.part, file.number)?;
    let declared = lend_all(alloc, &file.part.content().declared)?;
    Ok(CheckedFile {
        file,
        known,
        declared,
    })
}

impl<'s> CheckedFile<'s> {
    /// The file of a name in the package of a path. None where there is no such file of a package that was checked.
    ///
    /// The time is linear in the package, and in the packages that it reaches.
    ///
    /// # Errors
    ///
    /// `AllocError` where memory is wanting.
    pub fn of(
        alloc: Global,
        snapshot: &'s Snapshot,
        path: &ImportPath,
        file: &str,
    ) -> Result<Option<CheckedFile<'s>>, AllocError> {
        match snapshot.file(path, file) {
            Some(found) => Ok(Some(checked_of(alloc, found)?)),
            None => Ok(None),
        }
    }
}

/// What is known of the package of a file, lent.
pub(crate) fn scene_of<'p>(checked: &'p CheckedFile<'p>) -> Scene<'p>
    ensures { scene_shown result ≡ scene_in checked.now.file.part.now checked.now.known }
{
    Scene {
        home: &checked.known.home,
        blocks: &checked.file.part.content().blocks,
        types: &checked.known.types,
        others: &checked.known.view.faces,
        written: &checked.known.places.written,
    }
}
