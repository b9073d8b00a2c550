//! The declarations of a package, as far as they are written.
ghost use Rattle.std.specs.Prelude.{◌≡◌, length, map, slice_get};
ghost use Rattle.std.specs.Option.{option_map};
ghost use Rattle.go_declared_core.specs.Held.{form_held, written_shown};
ghost use Rattle.go_declared_core.specs.Written.{DeclsRise, decls_of, position_of, written_at};

use crate::face::Face;
use crate::lending::{lend_type, variable};
use go_handle_core::{SignatureRef, TypeRef};
use go_term_core::decl_core::{DeclRef, place_order};
use go_term_core::{Signature, TypeTerm};
use std::marker::Model;

/// What a declaration is as it is written.
#[derive(Drop)]
pub(crate) enum WrittenForm {
    /// A type: none where what is declared is no type.
    Type(Option<TypeTerm>),
    /// A function or a method, with its settled signature.
    Func(Signature),
    /// A variable whose type is written: none where that is no type.
    Variable(Option<TypeTerm>),
    /// A constant, or a variable without a written type: what its initialiser makes it.
    Unwritten,
}

/// A declaration of a package outside functions, and what it is as it is written.
#[derive(Drop)]
pub(crate) struct WrittenDecl {
    pub(crate) decl: DeclRef,
    pub(crate) form: WrittenForm,
}

/// The declarations of a package outside functions, in order of file and number: each with its place in this list, from 0, which others
/// count by, and with what it is as it is written. That is none for a constant, and for a variable without a written type, which are what
/// their initialisers make them. Contracts see the list.
pub struct WrittenFaces {
    pub(crate) decls: Vec<WrittenDecl>,
}

impl Drop for WrittenFaces {
    fn drop(self) {
        let WrittenFaces { decls: _ } = self;
    }
}

impl Model for WrittenFaces {
    ghost use Rattle.std.specs.Prelude.{List, map};
    ghost use Rattle.std.specs.Coded.{coded_list};
    ghost use Rattle.go_declared_core.specs.Held.{written_shown};
    ghost use Rattle.go_declared_core.specs.Written.{DeclsRise, WrittenOf, decls_of};
    ghost use Rattle.go_declared_core.specs.codes.FaceCodes.{coded_written};

    ghost Value = { List WrittenOf };

    ghost coded = { coded_list coded_written };

    ghost view = { λ w. map written_shown w.decls.items };

    ghost invariant = { λ w. DeclsRise (decls_of (map written_shown w.decls.items)) };
}

// The place of a declaration in a list.
fn position_in(decls: &[WrittenDecl], decl: DeclRef) -> Option<usize>
    requires { DeclsRise (decls_of (map written_shown decls.now)) }
    ensures { result ≡ position_of (map written_shown decls.now) decl }
{
    match decls.binary_search_by(|written| place_order(written.decl, decl)) {
        Ok(place) => Some(place),
        Err(_) => None,
    }
}

// What a declaration is as it is written, lent.
fn lend_form<'a>(form: &'a WrittenForm) -> Option<Face<TypeRef<'a>, SignatureRef<'a>>>
    ensures { result ≡ form_held form.now }
{
    match form {
        WrittenForm::Type(term) => Some(Face::Type(lend_type(term))),
        WrittenForm::Func(signature) => Some(Face::Func(SignatureRef::of(signature))),
        WrittenForm::Variable(Some(term)) => Some(Face::Value(Some(variable(term)))),
        WrittenForm::Variable(None) => Some(Face::Value(None)),
        WrittenForm::Unwritten => None,
    }
}

impl WrittenFaces {
    /// How many declarations there are.
    pub fn len(&self) -> usize
        ensures value { result ≡ length self.now }
        ensures rising { DeclsRise (decls_of self.now) }
    {
        self.decls.len()
    }

    /// The declaration at a place, and none past the end.
    pub fn decl(&self, at: usize) -> Option<DeclRef>
        ensures { result ≡ option_map (λ w. w.decl) (slice_get self.now at) }
    {
        match self.decls.get(at) {
            Some(written) => Some(written.decl),
            None => None,
        }
    }

    /// The place of a declaration, by its file and its number: none where the package has no such declaration. It takes time that is
    /// logarithmic in the number of declarations.
    pub fn position(&self, decl: DeclRef) -> Option<usize>
        ensures { result ≡ position_of self.now decl }
    {
        position_in(self.decls.as_slice(), decl)
    }

    /// What the declaration at a place is as it is written: none where that follows from its initialiser, and past the end. It takes no
    /// memory.
    pub fn face(&self, at: usize) -> Option<Face<TypeRef<'_>, SignatureRef<'_>>>
        ensures { result ≡ written_at self.now at }
    {
        match self.decls.get(at) {
            Some(written) => lend_form(&written.form),
            None => None,
        }
    }
}
