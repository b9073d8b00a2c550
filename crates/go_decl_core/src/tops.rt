//! The declarations of a file, with the table of its places.
ghost use Rattle.std.specs.Prelude.{◌≡◌};
ghost use Rattle.go_decl_core.specs.Outer.{kind_of_func, kind_of_value};
ghost use Rattle.go_decl_core.specs.Shown.{form_shown};
ghost use Rattle.go_decl_core.specs.TopDecls.{kind_of_form};

use crate::places::{DeclKind, Places};
use go_tree_nodes::{FuncDecl, Ident, Receiver, TypeSpec, ValueKind, ValueSpec};

/// What a declaration of constants or of variables declares.
///
/// The Go specification, "Constant declarations", "Variable declarations".
pub fn kind_of_value(kind: ValueKind) -> DeclKind
    ensures { result ≡ kind_of_value kind }
{
    match kind {
        ValueKind::Const => DeclKind::Const,
        ValueKind::Var => DeclKind::Var,
    }
}

/// What a function declares: a method where it has a receiver.
pub(crate) fn kind_of_func(receiver: &Option<Receiver>) -> DeclKind
    ensures { result ≡ kind_of_func receiver.now }
{
    match receiver {
        None => DeclKind::Func,
        Some(_) => DeclKind::Method,
    }
}

/// What a declaration is, with its tree.
#[derive(Clone, Copy)]
pub enum DeclForm<'a> {
    /// A constant or a variable: its specification, and its place among the names there, from 0.
    Value(ValueKind, &'a ValueSpec, usize),
    Type(&'a TypeSpec),
    /// A function, or a method where it has a receiver.
    Func(&'a FuncDecl),
}

impl DeclForm<'_> {
    /// What is declared: a constant, a variable, a type, a function or a method.
    ///
    /// The Go specification, "Declarations and scope", "Method declarations".
    pub fn kind(&self) -> DeclKind
        ensures { result ≡ kind_of_form (form_shown self.now) }
    {
        match self {
            DeclForm::Value(kind, _, _) => kind_of_value(*kind),
            DeclForm::Type(_) => DeclKind::Type,
            DeclForm::Func(func) => kind_of_func(&func.receiver),
        }
    }
}

/// A declaration of a file outside functions: of a constant, a variable, a type, a function or a method.
#[derive(Clone, Copy)]
pub struct TopDecl<'a> {
    pub ident: &'a Ident,
    /// The identifier's number in the table of the file's places.
    pub number: usize,
    pub form: DeclForm<'a>,
}

/// What a file declares outside function bodies.
pub struct Outline<'a> {
    pub places: Places,
    /// The declarations outside functions, in order of offset.
    pub decls: Vec<TopDecl<'a>>,
}

impl Drop for Outline<'_> {
    fn drop(self) {
        let Outline {
            places: _,
            decls: _,
        } = self;
    }
}
