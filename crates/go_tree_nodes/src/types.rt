//! Types.
ghost use Rattle.std.specs.Prelude.{◌≡◌};
ghost use Rattle.go_tree_nodes.specs.Naming.{plain_name, type_name_of};
ghost use Rattle.go_tree_nodes.specs.TypeShapes.{shape_type};

use crate::names::{Ident, Idents, TextLiteral};
use go_token_core::text_core::Span;

/// The name of a type.
#[derive(Drop)]
pub enum TypeName {
    /// A name of this package or of the universe.
    Plain(Ident),
    /// A package's name, the place of the dot, and a name of that package.
    Qualified(Ident, Span, Ident),
}

/// A type.
#[cycle(type_expr)]
pub enum TypeExpr {
    /// The name of a type.
    Name(TypeName),
    /// The place of the star, and the type that it points to.
    Pointer(Span, Box<TypeExpr>),
    /// A type in parentheses, between the places of the two.
    Paren(Span, Box<TypeExpr>, Span),
    /// The places of `struct` and of its opening brace, the fields, and the place of the closing brace.
    Struct(Span, Span, Vec<FieldLine>, Span),
    /// The places of `interface` and of its opening brace, the methods, and the place of the closing brace.
    Interface(Span, Span, Vec<MethodLine>, Span),
}

impl Drop for TypeExpr {
    #[cycle(type_expr_end)]
    fn drop(self) {
        match self {
            TypeExpr::Name(_) => {}
            TypeExpr::Pointer(_, _) => {}
            TypeExpr::Paren(_, _, _) => {}
            TypeExpr::Struct(_, _, _, _) => {}
            TypeExpr::Interface(_, _, _, _) => {}
        }
    }
}

impl TypeExpr {
    /// The name that the type is, where it is one; another type is let go.
    pub fn into_name(self) -> Option<TypeName>
        ensures { result ≡ type_name_of (shape_type self) }
    {
        match self {
            TypeExpr::Name(name) => Some(name),
            other => {
                drop(other);
                None
            }
        }
    }

    /// The name that the type is, where it is one of no package that is named; another type is let go.
    pub fn into_plain_name(self) -> Option<Ident>
        ensures { result ≡ plain_name (shape_type self) }
    {
        match self {
            TypeExpr::Name(TypeName::Plain(name)) => Some(name),
            other => {
                drop(other);
                None
            }
        }
    }
}

/// The fields of one line of a struct type, with the tag and the semicolon behind them where these stand.
#[cycle(type_expr)]
pub struct FieldLine {
    pub fields: Fields,
    pub tag: Option<TextLiteral>,
    pub semicolon: Option<Span>,
}

impl Drop for FieldLine {
    #[cycle(type_expr_end)]
    fn drop(self) {
        let FieldLine {
            fields: _,
            tag: _,
            semicolon: _,
        } = self;
    }
}

/// The fields of one line of a struct type.
#[cycle(type_expr)]
pub enum Fields {
    /// Names, and their type.
    Named(Idents, TypeExpr),
    /// The place of a star where one stands, and the name of the embedded type.
    Embedded(Option<Span>, TypeName),
}

impl Drop for Fields {
    #[cycle(type_expr_end)]
    fn drop(self) {
        match self {
            Fields::Named(_, _) => {}
            Fields::Embedded(_, _) => {}
        }
    }
}

/// A method of an interface type, and the semicolon behind it where it stands.
#[cycle(type_expr)]
pub struct MethodLine {
    pub name: Ident,
    pub signature: Signature,
    pub semicolon: Option<Span>,
}

impl Drop for MethodLine {
    #[cycle(type_expr_end)]
    fn drop(self) {
        let MethodLine {
            name: _,
            signature: _,
            semicolon: _,
        } = self;
    }
}

/// Parameters and results.
#[cycle(type_expr)]
pub struct Signature {
    pub params: Params,
    pub results: Results,
}

impl Drop for Signature {
    #[cycle(type_expr_end)]
    fn drop(self) {
        let Signature {
            params: _,
            results: _,
        } = self;
    }
}

/// The results of a signature.
#[cycle(type_expr)]
pub enum Results {
    /// None.
    Nothing,
    /// One, without parentheses.
    Single(Box<TypeExpr>),
    /// A list in parentheses.
    Listed(Params),
}

impl Drop for Results {
    #[cycle(type_expr_end)]
    fn drop(self) {
        match self {
            Results::Nothing => {}
            Results::Single(_) => {}
            Results::Listed(_) => {}
        }
    }
}

/// A list of parameters, between the places of its parentheses: all are types, or all are names with a type.
#[cycle(type_expr)]
pub struct Params {
    pub open: Span,
    pub entries: Vec<Param>,
    pub close: Span,
}

impl Drop for Params {
    #[cycle(type_expr_end)]
    fn drop(self) {
        let Params {
            open: _,
            entries: _,
            close: _,
        } = self;
    }
}

/// A type, or names and their type, with the comma behind it where one stands.
#[cycle(type_expr)]
pub struct Param {
    pub names: Option<Idents>,
    pub type_expr: TypeExpr,
    pub comma: Option<Span>,
}

impl Drop for Param {
    #[cycle(type_expr_end)]
    fn drop(self) {
        let Param {
            names: _,
            type_expr: _,
            comma: _,
        } = self;
    }
}
