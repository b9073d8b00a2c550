//! The names that are open at a place of a function.
ghost use Rattle.std.specs.Prelude.{◌≡◌, ℕ, [], Some, true, slice_get, IfOk, OnErr};
ghost use Rattle.go_scope_core.specs.Scopes.{denoted_of};
ghost use Rattle.go_scope_core.specs.Laws.{denotes};
ghost use Rattle.go_names_core.specs.Scope.{is_of_function, meaning_of, open_look};

use crate::meaning::{Meant, Outside};
use go_local_core::scope_stack::DeclId;
use go_scope_core::{InScope, Scopes};
use std::alloc::AllocError;

/// The names that are open at a place of a function, with what they mean.
#[derive(Drop)]
pub struct OpenNames<'a, M> {
    scopes: &'a Scopes<'a>,
    // What each local means that the walk has declared so far, by its number.
    locals: &'a [M],
}

// What the local of a number means, if there is one.
fn local_meaning<M: Meant>(locals: &[M], number: usize) -> Result<Option<M>, AllocError>
    ensures { IfOk result (λ meaning. meaning ≡ slice_get locals.now number) }
{
    match locals.get(number) {
        None => Ok(None),
        Some(meaning) => match meaning.again() {
            Ok(again) => Ok(Some(again)),
            Err(error) => Err(error),
        },
    }
}

// What is found in a scope, as a checker means it.
fn meaning_of<M: Meant>(locals: &[M], found: InScope) -> Result<Option<M>, AllocError>
    ensures meaning { IfOk result (λ meaning. meaning ≡ meaning_of M.outside locals.now (denoted_of found.entry)) }
    ensures memory { OnErr result (is_of_function (Some (denoted_of found.entry)) ≡ true) }
{
    match found {
        InScope::Local(DeclId(number)) => local_meaning(locals, number),
        InScope::Package(decl) => Ok(Some(M::of_outside(Outside::Package(decl)))),
        InScope::File(binding) => Ok(Some(M::of_outside(Outside::File(binding.at)))),
        InScope::Universe(name) => Ok(Some(M::of_outside(Outside::Universe(name)))),
    }
}

impl<'a, M> OpenNames<'a, M> {
    /// Those of the open blocks of a function, then of the file, the package and the universe, where each local means what stands at its number.
    /// A local whose number is that of none of these means nothing.
    pub fn at(scopes: &'a Scopes<'a>, locals: &'a [M]) -> Self
        ensures scopes { result.scopes.now ≡ scopes.now }
        ensures locals { result.locals.now ≡ locals.now }
    {
        OpenNames { scopes, locals }
    }

    /// Those outside all functions: of the file, the package and the universe, where the scopes have no open block of a function.
    pub fn at_top(scopes: &'a Scopes<'a>) -> Self
        ensures scopes { result.scopes.now ≡ scopes.now }
        ensures locals { result.locals.now ≡ [] }
    {
        OpenNames {
            scopes,
            locals: &[],
        }
    }
}

impl<'a, M: Meant> OpenNames<'a, M> {
    /// What a name means here: what its declaration in the innermost open block that has one means, if any has.
    ///
    /// The Go specification, "Declarations and scope".
    ///
    /// # Errors
    ///
    /// [`AllocError`] where memory is wanting for what is shared with the meaning of a local ([`Meant::again`]), and of nothing else.
    pub fn find(&self, name: &str) -> Result<Option<M>, AllocError>
        ensures meaning { IfOk result (λ meaning. (place : ℕ) → meaning ≡ open_look M.outside self.now name.now place) }
        ensures memory { OnErr result (is_of_function (denotes self.now.scopes.now name.now) ≡ true) }
    {
        match self.scopes.find(name) {
            Some(found) => meaning_of(self.locals, found),
            None => Ok(None),
        }
    }
}
