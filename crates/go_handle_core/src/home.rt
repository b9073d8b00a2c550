//! The package of a place.
ghost use Rattle.std.specs.Prelude.{◌≡◌, IfOk};
ghost use Rattle.go_term_core.specs.Terms.{Predeclared, ErrorType, InterfaceOf, NoMethod};
ghost use Rattle.go_term_core.specs.declared.term.Basic.TheVariants as basics;
ghost use Rattle.go_mset_core.specs.Implementing.{error_sign};

use crate::inside::error_signature;
use crate::signatures::SignatureRef;
use crate::types::TypeRef;
use go_table_core::path_core::ImportPath;
use go_term_core::{Basic, Signature, TypeTerm};
use std::alloc::{AllocError, Global};
use std::marker::Model;

/// The package of a place, with the predeclared types as they stand there, to be lent. Contracts see its path.
pub struct Home {
    path: ImportPath,
    int: TypeTerm,
    text: TypeTerm,
    boolean: TypeTerm,
    any: TypeTerm,
    error: TypeTerm,
    error_signature: Signature,
}

impl Drop for Home {
    fn drop(self) {
        let Home {
            path: _,
            int: _,
            text: _,
            boolean: _,
            any: _,
            error: _,
            error_signature: _,
        } = self;
    }
}

impl Model for Home {
    ghost use Rattle.std.specs.Prelude.{List, ℕ};
    ghost use Rattle.go_term_core.specs.Shapes.{shape, sign_of};
    ghost use Rattle.go_handle_core.specs.Homes.{IsHome};

    ghost Value = { List ℕ };

    ghost view = { λ h. h.path };

    ghost invariant = { λ h. IsHome h.path (shape h.int) (shape h.text) (shape h.boolean) (shape h.any) (shape h.error) (sign_of h.error_signature) };
}

impl Home {
    /// The package of a path.
    ///
    /// # Errors
    ///
    /// `AllocError` where memory is wanting.
    pub fn new(alloc: Global, path: ImportPath) -> Result<Home, AllocError>
        ensures { IfOk result (λ home. home ≡ path) }
    {
        let error_signature = error_signature(alloc)?;
        let any_path = path.share()?;
        Ok(Home {
            path,
            int: TypeTerm::Basic(Basic::Int),
            text: TypeTerm::Basic(Basic::Text),
            boolean: TypeTerm::Basic(Basic::Bool),
            any: TypeTerm::Interface(any_path, Vec::new(alloc)),
            error: TypeTerm::Error,
            error_signature,
        })
    }

    /// Its path.
    pub fn path(&self) -> &ImportPath
        ensures { result.now ≡ self.now }
    {
        &self.path
    }

    /// The predeclared type `int`.
    pub fn int(&self) -> TypeRef<'_>
        ensures { result ≡ Predeclared basics.Int }
    {
        TypeRef::of(&self.int)
    }

    /// The predeclared type `string`.
    pub fn string(&self) -> TypeRef<'_>
        ensures { result ≡ Predeclared basics.Text }
    {
        TypeRef::of(&self.text)
    }

    /// The predeclared type `bool`.
    pub fn bool(&self) -> TypeRef<'_>
        ensures { result ≡ Predeclared basics.Bool }
    {
        TypeRef::of(&self.boolean)
    }

    /// The predeclared type `any`: an interface type without methods.
    pub fn any(&self) -> TypeRef<'_>
        ensures { result ≡ InterfaceOf self.now NoMethod }
    {
        TypeRef::of(&self.any)
    }

    /// The predeclared type `error`.
    pub fn error(&self) -> TypeRef<'_>
        ensures { result ≡ ErrorType }
    {
        TypeRef::of(&self.error)
    }

    /// The signature of the method of the predeclared type `error`.
    pub fn error_signature(&self) -> SignatureRef<'_>
        ensures { result ≡ error_sign }
    {
        SignatureRef::of(&self.error_signature)
    }
}
