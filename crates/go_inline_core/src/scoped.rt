//! What names mean where a type is written inside a function.
ghost use Rattle.std.specs.Prelude.{◌≡◌, IfOk};
ghost use Rattle.go_names_core.specs.Scope.{open_look};
ghost use Rattle.go_inline_core.specs.Functions.{is_local, looked_up_ident, scoped_outside};

use go_names_core::{Meant, OpenNames, Outside};
use go_term_core::TypeTerm;
use go_tree_nodes::{Ident, TypeName};
use go_typexpr_core::written::TypeNames;
use std::alloc::{AllocError, Global};

/// What a name means, as far as types are asked for: no type is declared inside a function.
#[derive(Clone, Copy)]
pub enum Scoped {
    /// It is declared inside the function.
    Local,
    /// It is declared outside.
    Outside(Outside),
}

impl Meant for Scoped {
    ghost use Rattle.go_inline_core.specs.declared.scoped.Scoped.TheVariants as scoped;

    ghost outside = { λ o. scoped.Outside o };

    fn of_outside(found: Outside) -> Self {
        Scoped::Outside(found)
    }

    fn again(&self) -> Result<Self, AllocError> {
        Ok(*self)
    }
}

/// What the names of types mean at a place of a function, by what they mean at the top of its file and by the names that are open.
#[derive(Drop)]
pub(crate) struct ScopedNames<'a, N> {
    pub(crate) top: &'a N,
    pub(crate) names: &'a OpenNames<'a, Scoped>,
}

// The identifier of a type's name that is looked up.
fn looked_up(name: &TypeName) -> &Ident
    ensures { result.now ≡ looked_up_ident name.now }
{
    match name {
        TypeName::Plain(ident) => ident,
        TypeName::Qualified(qualifier, _, _) => qualifier,
    }
}

// Whether a name that means this is declared inside the function.
fn is_local(found: Option<Scoped>) -> bool
    ensures { result ≡ is_local found }
{
    match found {
        Some(Scoped::Local) => true,
        Some(Scoped::Outside(_)) => false,
        None => false,
    }
}

// Whether an identifier names what is declared inside the function.
fn is_hidden(names: &OpenNames<Scoped>, ident: &Ident) -> Result<bool, AllocError>
    ensures { IfOk result (λ b. b ≡ is_local (open_look scoped_outside names.now ident.now.name ident.now.span.start)) }
{
    let found = names.find(ident.name.as_str())?;
    Ok(is_local(found))
}

impl<'a, N: TypeNames> TypeNames for ScopedNames<'a, N> {
    ghost use Rattle.go_names_core.specs.Scope.{open_look};
    ghost use Rattle.go_inline_core.specs.Functions.{meaning_in, scoped_outside};

    ghost meaning = { λ s. meaning_in (open_look scoped_outside s.names.now) (N.meaning s.top.now) };

    fn named(&self, alloc: Global, name: &TypeName) -> Result<TypeTerm, AllocError> {
        if is_hidden(self.names, looked_up(name))? {
            return Ok(TypeTerm::NoType);
        }
        self.top.named(alloc, name)
    }
}
