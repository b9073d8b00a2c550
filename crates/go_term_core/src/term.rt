//! The terms of types.
use crate::tag::Tag;
use go_decl_core::path_core::ImportPath;
use go_decl_core::{DeclKey, DeclRef};
use go_tree_nodes::text_core::Name;

/// The predeclared types that values of the profile may have, but for `error` and `any`: `any` is an interface type without
/// methods.
#[derive(Clone, Copy, Debug, PartialEq, Eq)]
pub enum Basic {
    Bool,
    Int,
    Text,
}

/// An identifier that is declared inside a function's body.
#[derive(Clone, Copy, Debug, PartialEq, Eq)]
pub struct LocalPlace {
    /// The number of its file among those of the package in order of name, from 0.
    pub file: usize,
    /// The offset in bytes of the identifier, from the file's start.
    pub offset: usize,
}

/// Where a field or a method is declared in its package.
#[derive(Clone, Copy, Debug, PartialEq, Eq)]
pub enum MemberPlace {
    /// Outside function bodies.
    Declared(DeclRef),
    /// In a type that is written inside a body.
    Local(LocalPlace),
}

/// A type.
#[cycle(term)]
pub enum TypeTerm {
    /// No type: a name that is refused, a type that reaches itself outside pointers and interfaces, and what is a pointer to such
    /// or is defined by such.
    NoType,
    /// `bool`, `int` or `string`.
    Basic(Basic),
    /// `error`, the predeclared type with the method `Error`.
    Error,
    /// A defined type, by its declaration.
    Defined(DeclKey),
    /// A pointer to values of a type.
    Pointer(Box<TypeTerm>),
    /// A struct type: the package where it is written, its fields in order, and the lines that they stand in.
    Struct(ImportPath, Vec<Field>, Vec<FieldLine>),
    /// An interface type: the package where it is written, and its methods in order.
    Interface(ImportPath, Vec<Method>),
}

impl Drop for TypeTerm {
    #[cycle(term_end)]
    fn drop(self) {
        match self {
            TypeTerm::NoType => {}
            TypeTerm::Basic(_) => {}
            TypeTerm::Error => {}
            TypeTerm::Defined(_) => {}
            TypeTerm::Pointer(_) => {}
            TypeTerm::Struct(_, _, _) => {}
            TypeTerm::Interface(_, _) => {}
        }
    }
}

/// A field of a struct type.
pub struct Field {
    pub name: Name,
    pub place: MemberPlace,
    /// The number of its line among those of the struct type, from 0. The fields of one line follow one another.
    pub line: usize,
}

impl Drop for Field {
    fn drop(self) {
        let Field {
            name: _,
            place: _,
            line: _,
        } = self;
    }
}

/// What the fields of one line of a struct type have in common. A field whose line is not there is of no type.
#[cycle(term)]
pub struct FieldLine {
    /// Whether the one field is written as a type's name, with or without a star, and no other name.
    pub embedded: bool,
    pub term: TypeTerm,
    /// The bytes that the tag stands for; none and an empty one are the same.
    pub tag: Tag,
}

impl Drop for FieldLine {
    #[cycle(term_end)]
    fn drop(self) {
        let FieldLine {
            embedded: _,
            term: _,
            tag: _,
        } = self;
    }
}

/// A method of an interface type.
#[cycle(term)]
pub struct Method {
    pub name: Name,
    pub place: MemberPlace,
    pub signature: Signature,
}

impl Drop for Method {
    #[cycle(term_end)]
    fn drop(self) {
        let Method {
            name: _,
            place: _,
            signature: _,
        } = self;
    }
}

/// The types of parameters and of results.
#[cycle(term)]
pub struct Signature {
    pub params: Params,
    pub results: Params,
}

impl Drop for Signature {
    #[cycle(term_end)]
    fn drop(self) {
        let Signature {
            params: _,
            results: _,
        } = self;
    }
}

/// The types of parameters, or of results. Those whose names are written before one type share its term.
#[cycle(term)]
pub struct Params {
    /// For each parameter the number of its type among the terms, from 0. One whose type is not there is of no type.
    pub lines: Vec<usize>,
    pub terms: Vec<TypeTerm>,
}

impl Drop for Params {
    #[cycle(term_end)]
    fn drop(self) {
        let Params { lines: _, terms: _ } = self;
    }
}
