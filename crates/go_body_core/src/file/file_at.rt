//! Where a file of a package is checked.
use go_block_core::Imported;
use go_decl_core::Places;
use go_declared_core::Face;
use go_env_core::Scene;
use go_handle_core::{SignatureRef, TypeRef};
use go_inline_core::InlineTypes;

/// What a file of a package is checked by. All is lent.
#[derive(Drop)]
pub struct FileAt<'n, 'p, P> {
    /// What is known of the package.
    pub scene: &'n Scene<'p>,
    /// The number of the file among those of the package in order of name, from 0.
    pub file: usize,
    /// The identifiers that the file declares outside function bodies.
    pub places: &'n Places,
    /// What other packages show to names of types, and what declarations of types mean.
    pub imported: &'n P,
    /// What the imports of the file come to, in order of place.
    pub imports: &'p [Imported],
    /// The types that are written in its specifications of constants and variables outside functions.
    pub initial: &'p InlineTypes,
    /// The types that are written in each of its functions, in order of the functions.
    pub functions: &'p [InlineTypes],
    /// What the package's own declarations are, by their places in `scene.written`: none where what one needs leads back to itself.
    pub known: &'n [Option<Face<TypeRef<'p>, SignatureRef<'p>>>],
}
