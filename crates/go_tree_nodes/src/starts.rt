//! Where parts of a tree begin, in bytes from the file's start.
ghost use Rattle.std.specs.Prelude.{◌≡◌};
ghost use Rattle.go_tree_nodes.specs.TypeShapes.{shape_type};
ghost use Rattle.go_tree_nodes.specs.Starts as starts;

use crate::types::{TypeExpr, TypeName};

/// The first byte of the name of a type, in bytes from the file's start.
pub fn type_name_start(name: &TypeName) -> usize
    ensures { result ≡ starts.type_name_start name.now }
{
    match name {
        TypeName::Plain(ident) => ident.span.start as usize,
        TypeName::Qualified(qualifier, _, _) => qualifier.span.start as usize,
    }
}

/// The first byte of a type as it is written, in bytes from the file's start.
pub fn type_start(type_expr: &TypeExpr) -> usize
    ensures { result ≡ starts.type_start (shape_type type_expr.now) }
{
    match type_expr {
        TypeExpr::Name(name) => type_name_start(name),
        TypeExpr::Pointer(star, _) => star.start as usize,
        TypeExpr::Paren(first, _, _) => first.start as usize,
        TypeExpr::Struct(keyword, _, _, _) => keyword.start as usize,
        TypeExpr::Interface(keyword, _, _, _) => keyword.start as usize,
    }
}
