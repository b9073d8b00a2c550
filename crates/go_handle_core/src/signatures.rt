//! Signatures that are lent.
ghost use Rattle.std.specs.Prelude.{◌≡◌, ◌<◌, length, slice_get, Some};
ghost use Rattle.go_term_core.specs.Shapes.{sign_of, shape_found};
ghost use Rattle.go_table_core.specs.Entries.{find_entry};
ghost use Rattle.go_handle_core.specs.deciding.Rules.{typed, param_types_of, results_of};

use crate::conversion::is_type;
use crate::types::TypeRef;
use go_table_core::TypeTable;
use go_term_core::{Signature, TypeTerm};
use std::marker::Model;

/// A signature that is lent. Contracts see the signature.
pub struct SignatureRef<'a> {
    signature: &'a Signature,
}

impl Drop for SignatureRef<'_> {
    fn drop(self) {
        let SignatureRef { signature: _ } = self;
    }
}

impl<'a> Model for SignatureRef<'a> {
    ghost use Rattle.go_term_core.specs.Terms.{Sign};
    ghost use Rattle.go_term_core.specs.codes.TermCodes.{coded_sign};
    ghost use Rattle.go_term_core.specs.Shapes.{sign_of};

    ghost Value = { Sign };

    ghost coded = { coded_sign };

    ghost view = { λ s. sign_of s.signature.now };
}

/// A type, where it is one in a table; `None` stands for no type. It takes no memory.
pub fn typed<'a>(table: &'a TypeTable, term: Option<&'a TypeTerm>) -> Option<TypeRef<'a>>
    ensures { result ≡ typed (find_entry table.now) (shape_found term.entry) }
{
    match term {
        Some(term) => {
            let t = TypeRef::of(term);
            if is_type(table, &t) { Some(t) } else { None }
        }
        None => None,
    }
}

impl<'a> SignatureRef<'a> {
    /// A signature as it stands.
    pub fn of(signature: &'a Signature) -> SignatureRef<'a>
        ensures { result ≡ sign_of signature.now }
    {
        SignatureRef { signature }
    }

    /// The same signature once more. It takes no memory.
    pub fn again(&self) -> SignatureRef<'a>
        ensures { result ≡ self.now }
    {
        SignatureRef {
            signature: self.signature,
        }
    }

    /// The signature that is lent.
    pub fn lent(&self) -> &'a Signature
        ensures { sign_of result.now ≡ self.now }
    {
        self.signature
    }

    /// How many parameters there are.
    pub fn param_count(&self, table: &TypeTable) -> usize
        ensures { result ≡ length (param_types_of (find_entry table.now) self.now) }
    {
        self.signature.param_count()
    }

    /// The type of a parameter, by its number from 0: none where it is no type.
    pub fn param_at(&self, table: &'a TypeTable, at: usize) -> Option<TypeRef<'a>>
        requires { at < length (param_types_of (find_entry table.now) self.now) }
        ensures { slice_get (param_types_of (find_entry table.now) self.now) at ≡ Some result }
    {
        typed(table, self.signature.param_at(at))
    }

    /// How many results there are.
    pub fn result_count(&self, table: &TypeTable) -> usize
        ensures { result ≡ length (results_of (find_entry table.now) self.now) }
    {
        self.signature.result_count()
    }

    /// The type of a result, by its number from 0: none where it is no type.
    pub fn result_at(&self, table: &'a TypeTable, at: usize) -> Option<TypeRef<'a>>
        requires { at < length (results_of (find_entry table.now) self.now) }
        ensures { slice_get (results_of (find_entry table.now) self.now) at ≡ Some result }
    {
        typed(table, self.signature.result_at(at))
    }
}
