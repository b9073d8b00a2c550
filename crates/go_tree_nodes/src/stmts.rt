//! Statements.
use crate::decls::ValueDecl;
use crate::exprs::{Expr, Exprs};
use crate::names::Idents;
use go_token_core::Operator;
use go_token_core::text_core::Span;

/// A statement that may stand in the header of an `if` or a `for`.
pub enum Simple {
    /// An expression.
    Expr(Expr),
    /// An expression, and `++` or `--` with its place.
    Step(Box<Expr>, Operator, Span),
    Assign(Box<Assignment>),
    Update(Box<Update>),
    Define(Box<Definition>),
}

impl Drop for Simple {
    fn drop(self) {
        match self {
            Simple::Expr(_) => {}
            Simple::Step(_, _, _) => {}
            Simple::Assign(_) => {}
            Simple::Update(_) => {}
            Simple::Define(_) => {}
        }
    }
}

/// Targets, the place of `=`, values.
pub struct Assignment {
    pub targets: Exprs,
    pub assign: Span,
    pub values: Exprs,
}

impl Drop for Assignment {
    fn drop(self) {
        let Assignment {
            targets: _,
            assign: _,
            values: _,
        } = self;
    }
}

/// A target, an operator with `=` and its place, a value.
pub struct Update {
    pub target: Expr,
    pub operator: Operator,
    pub span: Span,
    pub value: Expr,
}

impl Drop for Update {
    fn drop(self) {
        let Update {
            target: _,
            operator: _,
            span: _,
            value: _,
        } = self;
    }
}

/// Names, the place of `:=`, values.
pub struct Definition {
    pub names: Idents,
    pub define: Span,
    pub values: Exprs,
}

impl Drop for Definition {
    fn drop(self) {
        let Definition {
            names: _,
            define: _,
            values: _,
        } = self;
    }
}

/// What stands between `if` and its block: a statement with a semicolon where these stand, and the condition.
pub struct IfHead {
    pub init: Option<InitPart>,
    pub condition: Expr,
}

impl Drop for IfHead {
    fn drop(self) {
        let IfHead {
            init: _,
            condition: _,
        } = self;
    }
}

/// A statement, if one stands there, and the semicolon behind it.
pub struct InitPart {
    pub simple: Option<Simple>,
    pub semicolon: Span,
}

impl Drop for InitPart {
    fn drop(self) {
        let InitPart {
            simple: _,
            semicolon: _,
        } = self;
    }
}

/// What stands between `for` and its block.
pub enum ForHead {
    /// Nothing.
    Forever,
    /// A condition.
    While(Expr),
    /// A statement, a condition and a statement, each where it stands, with the places of the two semicolons.
    Clauses(Option<Simple>, Span, Option<Expr>, Span, Option<Simple>),
}

impl Drop for ForHead {
    fn drop(self) {
        match self {
            ForHead::Forever => {}
            ForHead::While(_) => {}
            ForHead::Clauses(_, _, _, _, _) => {}
        }
    }
}

/// A statement.
#[cycle(stmt)]
pub enum Stmt {
    /// Nothing: a semicolon stands behind it.
    Empty,
    /// A declaration of local constants or variables.
    Declare(Box<ValueDecl>),
    Simple(Simple),
    /// The place of `return`, and what is returned.
    Return(Span, Option<Box<Exprs>>),
    /// The place of `break`.
    Break(Span),
    /// The place of `continue`.
    Continue(Span),
    /// A block, between the places of its braces.
    Block(Span, Vec<Line>, Span),
    If(Box<Branch>),
    For(Box<Loop>),
}

impl Drop for Stmt {
    #[cycle(stmt_end)]
    fn drop(self) {
        match self {
            Stmt::Empty => {}
            Stmt::Declare(_) => {}
            Stmt::Simple(_) => {}
            Stmt::Return(_, _) => {}
            Stmt::Break(_) => {}
            Stmt::Continue(_) => {}
            Stmt::Block(_, _, _) => {}
            Stmt::If(_) => {}
            Stmt::For(_) => {}
        }
    }
}

// Trees keep very many of these: a form that takes more room stands behind a box.
const _: () = prove!(size_of::<Stmt>() == 48);

/// A `for` with its block.
#[cycle(stmt)]
pub struct Loop {
    /// The place of `for`.
    pub keyword: Span,
    pub head: ForHead,
    pub open: Span,
    pub body: Vec<Line>,
    pub close: Span,
}

impl Drop for Loop {
    #[cycle(stmt_end)]
    fn drop(self) {
        let Loop {
            keyword: _,
            head: _,
            open: _,
            body: _,
            close: _,
        } = self;
    }
}

/// An `if` with its block and what stands behind `else`.
#[cycle(stmt)]
pub struct Branch {
    /// The place of `if`.
    pub keyword: Span,
    pub head: IfHead,
    pub open: Span,
    pub then: Vec<Line>,
    pub close: Span,
    pub otherwise: Otherwise,
}

impl Drop for Branch {
    #[cycle(stmt_end)]
    fn drop(self) {
        let Branch {
            keyword: _,
            head: _,
            open: _,
            then: _,
            close: _,
            otherwise: _,
        } = self;
    }
}

/// What stands behind the block of an `if`.
#[cycle(stmt)]
pub enum Otherwise {
    Nothing,
    /// The place of `else`, and a block between the places of its braces.
    Block(Span, Span, Vec<Line>, Span),
    /// The place of `else`, and another `if`.
    If(Span, Box<Branch>),
}

impl Drop for Otherwise {
    #[cycle(stmt_end)]
    fn drop(self) {
        match self {
            Otherwise::Nothing => {}
            Otherwise::Block(_, _, _, _) => {}
            Otherwise::If(_, _) => {}
        }
    }
}

/// A statement of a block, and the semicolon behind it where one stands.
#[cycle(stmt)]
pub struct Line {
    pub stmt: Stmt,
    pub semicolon: Option<Span>,
}

impl Drop for Line {
    #[cycle(stmt_end)]
    fn drop(self) {
        let Line {
            stmt: _,
            semicolon: _,
        } = self;
    }
}

const _: () = prove!(size_of::<Line>() == 64);
