//! Where an identifier stands.
use go_expr_core::denote_core::Stand;
use go_tree_nodes::{Expr, FuncDecl, Ident, Item, TypeExpr, TypeName, Usage};

/// The type of a composite literal.
#[derive(Clone, Copy)]
pub enum LiteralOf<'t> {
    /// A type by its name.
    Named(&'t TypeName),
    /// A struct type that is written out.
    Written(&'t TypeExpr),
}

/// Where an identifier stands that is used.
#[derive(Clone, Copy)]
pub enum Spot<'t> {
    /// For itself: where a type, an operand, what is called or the name of a package is wanted.
    Name(Stand),
    /// Behind the dot of a selector: how the selector is used, where its operand stands, and the operand.
    Behind(Usage, Stand, &'t Expr),
    /// Behind the dot of the name of a type: the identifier left of the dot.
    BehindName(&'t Ident),
    /// For the key of an element of a composite literal: the literal's type, its elements, and the element's number among
    /// them, from 0.
    Key(LiteralOf<'t>, &'t Vec<Item>, usize),
}

/// An identifier that is used, with the spot where it stands.
#[derive(Clone, Copy)]
pub(crate) struct UsedName<'t> {
    pub(crate) ident: &'t Ident,
    pub(crate) spot: Spot<'t>,
}

/// An identifier that is used: the spot where it stands, the locals that are open there, those of outer blocks first, in order of
/// their declarations, and the function around it, where it stands in one or in its header.
pub struct FoundSpot<'t> {
    pub ident: &'t Ident,
    pub spot: Spot<'t>,
    /// In front of the identifier's piece: a name that is declared more than once in a block is its first declaration there.
    pub open: Vec<&'t Ident>,
    pub func: Option<&'t FuncDecl>,
}

impl Drop for FoundSpot<'_> {
    fn drop(self) {
        let FoundSpot {
            ident: _,
            spot: _,
            open: _,
            func: _,
        } = self;
    }
}
