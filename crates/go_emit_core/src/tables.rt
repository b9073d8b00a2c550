//! What the names of packages are looked up in, by what some packages tell.
ghost use Rattle.std.specs.Prelude.{◌≡◌, IfOk};
ghost use Rattle.go_package_core.specs.summary_core.Views.{faces_told, types_told};
ghost use Rattle.go_emit_core.specs.meaning.Scenes.{methods_spotted};

use crate::meaning::{Tables, methods_of};
use go_package_core::summary_core::{Summary, View};
use std::alloc::{AllocError, Global};

/// The tables of what some packages tell, by what is seen of these packages. The time that it takes is linear in what they tell, but for a logarithm.
///
/// # Errors
///
/// `AllocError` where memory is wanting.
pub(crate) fn tables_of<'a>(
    alloc: Global,
    told: &'a [Summary],
    seen: &'a View,
) -> Result<Tables<'a>, AllocError>
    requires types { seen.now.types ≡ types_told told.now }
    requires faces { seen.now.faces ≡ faces_told told.now }
    ensures types { IfOk result (λ t. t.types.now ≡ types_told told.now) }
    ensures methods { IfOk result (λ t. t.methods ≡ methods_spotted (types_told told.now) (types_told told.now)) }
    ensures faces { IfOk result (λ t. t.faces.now ≡ faces_told told.now) }
{
    let methods = methods_of(alloc, &seen.types, told)?;
    Ok(Tables {
        types: &seen.types,
        methods,
        faces: &seen.faces,
    })
}
