//! What is asked of a place of a program.
ghost use Rattle.std.specs.Prelude.{◌≡◌, ◌<◌, IfOk, Some, length, slice_get};
ghost use Rattle.go_denote_core.specs.Look.{NameRules};

use crate::things::{Exported, Found, Selection};
use go_operand_core::TypeLooks;
use std::alloc::{AllocError, Global};

/// What names stand for at a place of a program, beside what its types are.
///
/// Signatures, declarations and paths of embedded fields are handles.
pub trait Names: TypeLooks {
    /// The signature of a function or a method.
    type Signature: Drop;

    /// A declaration.
    type Decl: Drop;

    /// The embedded fields that lead from a type to a member.
    type Path: Drop;

    // what names stand for at the place
    ghost names: { Self → NameRules Self.Type Self.Signature Self.Decl Self.Path };

    /// The same signature once more. It takes no memory.
    fn again_signature(&self, signature: &Self::Signature) -> Self::Signature
        ensures { result ≡ signature.now };

    /// The same declaration once more. It takes no memory.
    fn again_decl(&self, decl: &Self::Decl) -> Self::Decl
        ensures { result ≡ decl.now };

    /// What a name other than `_` stands for.
    ///
    /// # Errors
    ///
    /// `AllocError` where memory is wanting.
    fn find(
        &self,
        alloc: Global,
        name: &str,
    ) -> Result<Found<Self::Type, Self::Signature, Self::Decl>, AllocError>
        ensures { IfOk result (λ found. found ≡ (names self.now).find name.now) };

    /// What a name other than `_` stands for in the package of an import, seen from the place.
    ///
    /// # Errors
    ///
    /// `AllocError` where memory is wanting.
    fn exported(
        &self,
        alloc: Global,
        import: &Self::Decl,
        name: &str,
    ) -> Result<Exported<Self::Type, Self::Signature, Self::Decl>, AllocError>
        ensures { IfOk result (λ found. found ≡ (names self.now).exported import.now name.now) };

    /// The member that a name other than `_` selects behind an operand of a type, asked for from the place.
    ///
    /// # Errors
    ///
    /// `AllocError` where memory is wanting.
    fn select(
        &self,
        alloc: Global,
        t: &Self::Type,
        name: &str,
    ) -> Result<Selection<Self::Type, Self::Signature, Self::Decl, Self::Path>, AllocError>
        ensures { IfOk result (λ found. found ≡ (names self.now).select t.now name.now) };

    /// How many parameters there are.
    fn param_count(&self, signature: &Self::Signature) -> usize
        ensures { result ≡ length ((names self.now).params signature.now) };

    /// The type of a parameter, by its number from 0: none where it has no type.
    fn param_at(&self, signature: &Self::Signature, at: usize) -> Option<Self::Type>
        requires { at < length ((names self.now).params signature.now) }
        ensures { slice_get ((names self.now).params signature.now) at ≡ Some result };

    /// How many results there are.
    fn result_count(&self, signature: &Self::Signature) -> usize
        ensures { result ≡ length ((names self.now).results signature.now) };

    /// The type of a result, by its number from 0: none where it has no type.
    fn result_at(&self, signature: &Self::Signature, at: usize) -> Option<Self::Type>
        requires { at < length ((names self.now).results signature.now) }
        ensures { slice_get ((names self.now).results signature.now) at ≡ Some result };
}
