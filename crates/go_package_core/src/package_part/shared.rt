//! What imports come to, once more.
ghost use Rattle.std.specs.Prelude.{◌≡◌, IfOk, map};
ghost use Rattle.go_block_core.specs.Naming.{imported_in};

use go_block_core::Imported;
use go_path_core::text_core::add;
use std::alloc::{AllocError, Global};

// What the imports of a file come to, once more.
fn shared_of_file(alloc: Global, imports: &[Imported]) -> Result<Vec<Imported>, AllocError>
    ensures { IfOk result (λ shared. shared.items ≡ imports.now) }
{
    let mut shared = Vec::with_capacity(alloc, imports.len())?;
    for imported in imports {
        add(&mut shared, imported.share()?)?;
    }
    Ok(shared)
}

// What the imports of a file come to, once more.
fn shared_file(alloc: Global, imports: &Vec<Imported>) -> Result<Vec<Imported>, AllocError>
    ensures { IfOk result (λ shared. imported_in shared ≡ imported_in imports.now) }
{
    let shared = shared_of_file(alloc, imports.as_slice())?;
    Ok(shared)
}

/// What the imports of each file come to, once more. What packages show is shared.
///
/// # Errors
///
/// `AllocError` where memory is wanting.
pub(crate) fn shared_imports(
    alloc: Global,
    files: &[Vec<Imported>],
) -> Result<Vec<Vec<Imported>>, AllocError>
    ensures { IfOk result (λ shared. map imported_in shared.items ≡ map imported_in files.now) }
{
    let mut shared = Vec::with_capacity(alloc, files.len())?;
    for imports in files {
        add(&mut shared, shared_file(alloc, imports)?)?;
    }
    Ok(shared)
}
