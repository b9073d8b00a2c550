//! The offsets of what the files of a workspace declare, by numbers.
ghost use Rattle.std.specs.Prelude.{◌≡◌, map, IfOk};
ghost use Rattle.go_site_core.specs.Sites.{held_items, offsets_in};

use go_graph_core::{PackageSource, SourceFile};
use go_term_core::decl_core::{Places, outline};
use go_text_core::add;
use std::alloc::{AllocError, Global};

// The offsets of identifiers, by their numbers.
fn place_offsets(alloc: Global, places: &Places) -> Result<Vec<usize>, AllocError>
    ensures { IfOk result (λ offsets. offsets.items ≡ map (λ p. p.at) places.now) }
{
    let mut offsets = Vec::new(alloc);
    for place in places.places() {
        add(&mut offsets, place.at)?;
    }
    Ok(offsets)
}

/// The offsets of the identifiers that a file declares outside function bodies, by their numbers; none where it has no tree.
///
/// # Errors
///
/// `AllocError` where memory is wanting.
pub(crate) fn file_offsets(alloc: Global, file: &SourceFile) -> Result<Vec<usize>, AllocError>
    ensures { IfOk result (λ offsets. offsets.items ≡ offsets_in file.now.content) }
{
    match file.tree() {
        Ok(tree) => {
            let outline = outline(alloc, tree)?;
            place_offsets(alloc, &outline.places)
        }
        Err(_) => Ok(Vec::new(alloc)),
    }
}

// The same of each file of a package.
fn package_offsets(alloc: Global, files: &[SourceFile]) -> Result<Vec<Vec<usize>>, AllocError>
    ensures { IfOk result (λ offsets. map held_items offsets.items ≡ map (λ s. offsets_in s.content) files.now) }
{
    let mut offsets = Vec::new(alloc);
    for file in files {
        add(&mut offsets, file_offsets(alloc, file)?)?;
    }
    Ok(offsets)
}

/// The offsets of the identifiers that the files of packages declare outside function bodies: by the numbers of packages, of files, and of identifiers.
///
/// # Errors
///
/// `AllocError` where memory is wanting.
pub(crate) fn all_offsets(
    alloc: Global,
    packages: &[PackageSource],
) -> Result<Vec<Vec<Vec<usize>>>, AllocError>
    ensures { IfOk result (λ offsets. map (λ p. map held_items p.items) offsets.items ≡ map (λ p. map (λ s. offsets_in s.content) p.1) packages.now) }
{
    let mut offsets = Vec::new(alloc);
    for source in packages {
        add(&mut offsets, package_offsets(alloc, source.files())?)?;
    }
    Ok(offsets)
}
