//! Names, literals and lists of names.
ghost use Rattle.std.specs.Prelude.{◌≡◌, ◌↔◌, IfOk, IfSome, IsTrue, is_some};
ghost use Rattle.go_token_core.specs.Values.{IsPlain};
ghost use Rattle.go_tree_nodes.specs.Terminals.{value_of};

use go_token_core::text_core::{Name, Span};
use go_token_core::{plain_value, string_value};
use std::alloc::{AllocError, Global};

/// A name, and where it stands.
pub struct Ident {
    pub name: Name,
    pub span: Span,
}

impl Drop for Ident {
    fn drop(self) {
        let Ident { name: _, span: _ } = self;
    }
}

/// Names with commas between them.
#[derive(Drop)]
pub struct Idents {
    pub first: Ident,
    pub more: Vec<NextIdent>,
}

/// A comma, and the name behind it.
pub struct NextIdent {
    pub comma: Span,
    pub ident: Ident,
}

impl Drop for NextIdent {
    fn drop(self) {
        let NextIdent { comma: _, ident: _ } = self;
    }
}

/// A string literal, as it is spelled, quotes included, and where it stands.
pub struct TextLiteral {
    pub spelled: Name,
    pub span: Span,
}

impl Drop for TextLiteral {
    fn drop(self) {
        let TextLiteral {
            spelled: _,
            span: _,
        } = self;
    }
}

impl TextLiteral {
    /// The bytes that the literal stands for.
    ///
    /// # Errors
    ///
    /// [`AllocError`] where memory runs out.
    pub fn value(&self, alloc: Global) -> Result<Vec<u8>, AllocError>
        ensures { IfOk result (λ v. v.items ≡ value_of self.now) }
    {
        string_value(alloc, self.spelled.as_str())
    }

    /// What the literal stands for, as a piece of its spelling, where it is written plainly: between
    /// two `"` with no backslash, or between two `` ` `` with no carriage return. It takes no memory.
    pub fn plain(&self) -> Option<&str>
        ensures value { IfSome result (λ text. text.now ≡ value_of self.now) }
        ensures plain { IsTrue (is_some result) ↔ IsPlain self.now.spelled }
    {
        plain_value(self.spelled.as_str())
    }
}
