//! Types under stars.
ghost use Rattle.std.specs.Prelude.{◌≡◌, ◌≤◌, ◌^◌, suc, IfOk, OnErr};
ghost use Rattle.go_term_core.specs.Shapes.{shape};
ghost use Rattle.go_term_core.specs.Terms.{PointerTo};
ghost use Rattle.go_table_core.specs.Entries.{find_entry, underlying_in};
ghost use Rattle.go_handle_core.specs.Stars.{base_in, star_count, starred};
ghost use Rattle.go_handle_core.specs.deciding.Rules.{form_of, form_under};

use go_denote_core::operand_core::TypeForm;
use go_table_core::TypeTable;
use go_term_core::TypeTerm;
use std::alloc::AllocError;
use std::marker::Model;

/// A type that is lent, under some stars: pointers to pointers to it, so many. Contracts see the type.
pub struct TypeRef<'a> {
    pub(crate) stars: usize,
    pub(crate) term: &'a TypeTerm,
}

impl Drop for TypeRef<'_> {
    fn drop(self) {
        let TypeRef { stars: _, term: _ } = self;
    }
}

impl<'a> Model for TypeRef<'a> {
    ghost use Rattle.go_term_core.specs.Terms.{Term};
    ghost use Rattle.go_term_core.specs.codes.TermCodes.{coded_term};
    ghost use Rattle.go_term_core.specs.Shapes.{shape};
    ghost use Rattle.go_handle_core.specs.Stars.{starred};

    ghost Value = { Term };

    ghost coded = { coded_term };

    ghost view = { λ t. starred t.stars (shape t.term.now) };
}

/// The parts of a type under stars: pointers to pointers to the term, so many.
#[derive(Clone, Copy)]
pub struct TypeParts<'a> {
    pub stars: usize,
    pub term: &'a TypeTerm,
}

impl<'a> TypeRef<'a> {
    /// A type as it stands.
    pub fn of(term: &'a TypeTerm) -> TypeRef<'a>
        ensures { result ≡ shape term.now }
    {
        TypeRef { stars: 0, term }
    }

    /// The same type once more. It takes no memory.
    pub fn again(&self) -> TypeRef<'a>
        ensures { result ≡ self.now }
    {
        TypeRef {
            stars: self.stars,
            term: self.term,
        }
    }

    /// Its parts: a term, and the stars before it. It takes no memory.
    pub fn parts(&self) -> TypeParts<'a>
        ensures { starred result.stars (shape result.term.now) ≡ self.now }
    {
        let stars = self.stars;
        TypeParts {
            stars,
            term: self.term,
        }
    }

    /// The type of pointers to it. It takes no memory.
    ///
    /// # Errors
    ///
    /// `AllocError` where more stars stand before it than a `usize` counts, and nowhere else.
    #[tactic(auto, using(crate::proofs::Starred::stars_counted))]
    pub fn pointer_to(&self) -> Result<TypeRef<'a>, AllocError>
        ensures value { IfOk result (λ p. p ≡ PointerTo self.now) }
        ensures error { OnErr result (2 ^ 64 ≤ suc (star_count self.now)) }
    {
        match self.stars.checked_add(1) {
            Some(stars) => Ok(TypeRef {
                stars,
                term: self.term,
            }),
            None => Err(AllocError),
        }
    }

    /// The type that a pointer type, as it is written, points to.
    pub fn base(&self) -> Option<TypeRef<'a>>
        ensures { result ≡ base_in self.now }
    {
        if self.stars > 0 {
            return Some(TypeRef {
                stars: self.stars - 1,
                term: self.term,
            });
        }
        base_of(self.term)
    }

    /// Its underlying type, in a table: of what is no type none.
    pub fn underlying(&self, table: &'a TypeTable) -> TypeRef<'a>
        ensures { result ≡ underlying_in (find_entry table.now) self.now }
    {
        if self.stars > 0 {
            return self.again();
        }
        TypeRef::of(table.underlying(self.term))
    }

    /// What lies under it, in a table.
    ///
    /// The Go specification, "Underlying types".
    pub fn form(&self, table: &'a TypeTable) -> TypeForm<TypeRef<'a>>
        ensures { result ≡ form_of (find_entry table.now) self.now }
    {
        if self.stars > 0 {
            return TypeForm::Pointer(TypeRef {
                stars: self.stars - 1,
                term: self.term,
            });
        }
        form_of(table.underlying(self.term))
    }
}

/// The type that a pointer type points to.
fn base_of<'a>(term: &'a TypeTerm) -> Option<TypeRef<'a>>
    ensures { result ≡ base_in (shape term.now) }
{
    match term {
        TypeTerm::Pointer(base) => Some(TypeRef::of(base)),
        TypeTerm::NoType
        | TypeTerm::Basic(_)
        | TypeTerm::Error
        | TypeTerm::Defined(_)
        | TypeTerm::Struct(_, _, _)
        | TypeTerm::Interface(_, _) => None,
    }
}

/// The form of an underlying type.
fn form_of<'a>(term: &'a TypeTerm) -> TypeForm<TypeRef<'a>>
    ensures { result ≡ form_under (shape term.now) }
{
    match term {
        TypeTerm::NoType | TypeTerm::Defined(_) => TypeForm::Nothing,
        TypeTerm::Basic(basic) => TypeForm::Basic(*basic),
        TypeTerm::Pointer(base) => TypeForm::Pointer(TypeRef::of(base)),
        TypeTerm::Struct(_, _, _) => TypeForm::Struct,
        TypeTerm::Error | TypeTerm::Interface(_, _) => TypeForm::Interface,
    }
}
