//! Functions, imports and files.
use crate::decls::{TypeDecl, ValueDecl};
use crate::names::{Ident, TextLiteral};
use crate::stmts::Line;
use crate::types::{Signature, TypeName};
use go_token_core::text_core::Span;

/// The receiver of a method, between the places of its parentheses.
pub struct Receiver {
    pub open_paren: Span,
    pub name: Option<Ident>,
    pub star: Option<Span>,
    pub base: TypeName,
    pub comma: Option<Span>,
    pub close_paren: Span,
}

impl Drop for Receiver {
    fn drop(self) {
        let Receiver {
            open_paren: _,
            name: _,
            star: _,
            base: _,
            comma: _,
            close_paren: _,
        } = self;
    }
}

/// A function or a method.
pub struct FuncDecl {
    /// The place of `func`.
    pub func: Span,
    pub receiver: Option<Receiver>,
    pub name: Ident,
    pub signature: Signature,
    pub open_brace: Span,
    pub body: Vec<Line>,
    pub close_brace: Span,
}

impl Drop for FuncDecl {
    fn drop(self) {
        let FuncDecl {
            func: _,
            receiver: _,
            name: _,
            signature: _,
            open_brace: _,
            body: _,
            close_brace: _,
        } = self;
    }
}

/// A declaration of the package block.
pub enum Decl {
    Value(ValueDecl),
    Type(TypeDecl),
    Func(FuncDecl),
}

impl Drop for Decl {
    fn drop(self) {
        match self {
            Decl::Value(_) => {}
            Decl::Type(_) => {}
            Decl::Func(_) => {}
        }
    }
}

/// A declaration of the package block, and the semicolon behind it.
pub struct TopDecl {
    pub decl: Decl,
    pub semicolon: Span,
}

impl Drop for TopDecl {
    fn drop(self) {
        let TopDecl {
            decl: _,
            semicolon: _,
        } = self;
    }
}

/// The name under which a package is imported.
pub enum ImportName {
    /// That of the package's clause.
    Own,
    /// Another name.
    Named(Ident),
    /// The place of a dot: the exported names of the package, in the file block.
    Dot(Span),
}

impl Drop for ImportName {
    fn drop(self) {
        match self {
            ImportName::Own => {}
            ImportName::Named(_) => {}
            ImportName::Dot(_) => {}
        }
    }
}

/// One import.
pub struct ImportSpec {
    pub name: ImportName,
    pub path: TextLiteral,
}

impl Drop for ImportSpec {
    fn drop(self) {
        let ImportSpec { name: _, path: _ } = self;
    }
}

/// An import in parentheses, and the semicolon behind it where one stands.
pub struct ImportLine {
    pub spec: ImportSpec,
    pub semicolon: Option<Span>,
}

impl Drop for ImportLine {
    fn drop(self) {
        let ImportLine {
            spec: _,
            semicolon: _,
        } = self;
    }
}

/// One import, or several in parentheses.
pub enum ImportSpecs {
    One(ImportSpec),
    /// Between the places of the parentheses.
    Group(Span, Vec<ImportLine>, Span),
}

impl Drop for ImportSpecs {
    fn drop(self) {
        match self {
            ImportSpecs::One(_) => {}
            ImportSpecs::Group(_, _, _) => {}
        }
    }
}

/// An import declaration behind the place of `import`, and the semicolon behind it.
pub struct ImportDecl {
    pub keyword: Span,
    pub specs: ImportSpecs,
    pub semicolon: Span,
}

impl Drop for ImportDecl {
    fn drop(self) {
        let ImportDecl {
            keyword: _,
            specs: _,
            semicolon: _,
        } = self;
    }
}

/// A file: its package clause, its imports and its declarations.
pub struct File {
    /// The place of `package`.
    pub clause: Span,
    pub name: Ident,
    pub semicolon: Span,
    pub imports: Vec<ImportDecl>,
    pub decls: Vec<TopDecl>,
}

impl Drop for File {
    fn drop(self) {
        let File {
            clause: _,
            name: _,
            semicolon: _,
            imports: _,
            decls: _,
        } = self;
    }
}
