//! What names mean inside a function.
ghost use Rattle.std.specs.Prelude.{◌≡◌, [], IfOk};

use crate::copies::value_again;
use crate::scene::Scene;
use go_declared_core::handle_core::TypeRef;
use go_expr_core::operand_core::Operand;
use go_inline_core::names_core::{Meant, OpenNames, Outside};
use go_inline_core::scope_core::Scopes;
use std::alloc::AllocError;

/// What a name means at a place.
#[derive(Drop)]
pub enum Meaning<'p> {
    /// What is declared outside the function.
    Outside(Outside),
    /// A local of the function, by the offset in bytes of its declared identifier, as an operand: none where it has no type.
    Local(usize, Option<Operand<TypeRef<'p>>>),
}

impl<'p> Meant for Meaning<'p> {
    ghost use Rattle.go_env_core.specs.declared.meaning.Meaning.TheVariants as meanings;

    ghost outside = { λ o. meanings.Outside o };

    fn of_outside(found: Outside) -> Self {
        Meaning::Outside(found)
    }

    fn again(&self) -> Result<Self, AllocError> {
        match self {
            Meaning::Outside(found) => Ok(Meaning::Outside(*found)),
            Meaning::Local(at, value) => Ok(Meaning::Local(*at, value_again(value)?)),
        }
    }
}

/// The names outside all functions, by the blocks of a file: no local is among them. The scene is looked at for how long what it lends
/// lives, and for nothing else. The Go specification, "Declarations and scope".
pub fn outer_names<'s, 'p: 's>(
    scene: &Scene<'p>,
    scopes: &'s Scopes<'s>,
) -> OpenNames<'s, Meaning<'p>>
    ensures scopes { result.scopes.now ≡ scopes.now }
    ensures locals { result.locals.now ≡ [] }
{
    OpenNames::at_top(scopes)
}
