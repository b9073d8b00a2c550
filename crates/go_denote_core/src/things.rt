//! What names, selectors and calls have, and what they denote.
//!
//! `T` stands for types, `S` for signatures, `D` for declarations, `P` for paths of embedded fields.
use go_operand_core::Operand;
use go_text_core::Rule;

/// Where a name stands.
#[derive(Clone, Copy)]
pub enum Stand {
    /// Where a type is wanted.
    Type,
    /// Left of the dot of a type's name, where a package is wanted.
    TypeDot,
    /// For an operand.
    Value,
    /// For what is called.
    Callee,
    /// Left of the dot of a selector, where a package or an operand is wanted.
    BeforeDot,
}

/// A predeclared function.
#[derive(Clone, Copy)]
pub enum Builtin {
    Len,
    Panic,
    /// `print` or `println`.
    Print,
}

/// What a name, a selector or a call has: a declaration, or the first rule that it breaks.
#[derive(Drop)]
pub enum Outcome<D, P> {
    /// A declaration.
    Declared(D),
    /// The declaration of the member that a selector after a value chooses, and the embedded fields that lead to it.
    Selected(D, P),
    /// The first rule that is broken.
    Refused(Rule),
}

/// What a name, a selector or a call denotes.
#[derive(Drop)]
pub enum Denoted<T, S, D> {
    /// Nothing, since a rule is broken.
    Refused,
    /// A variable, a constant, a field or a result that has no type.
    Typeless,
    /// The package that an import declares.
    Package(D),
    /// The type of a declaration: none where what is declared is no type.
    Type(D, Option<T>),
    /// A single value.
    Value(Operand<T>),
    /// The values of a call with several results.
    Several(S),
    /// No value: a call without results.
    Nothing,
    /// A function or a method, with its signature.
    Func(D, S),
    /// A predeclared function.
    Builtin(D, Builtin),
}

/// What a name, a selector or a call has, and what it denotes.
#[derive(Drop)]
pub struct Answer<T, S, D, P> {
    pub outcome: Outcome<D, P>,
    pub denoted: Denoted<T, S, D>,
}

/// What a name stands for at a place.
#[derive(Drop)]
pub enum Found<T, S, D> {
    /// Nothing: no declaration of it holds there.
    Missing,
    /// A name that a refused import binds.
    BadImport,
    /// A predeclared name that is not usable.
    Outside,
    /// The package that an import declares.
    Package(D),
    /// A type: none where what is declared is no type.
    Type(D, Option<T>),
    /// A function, with its signature.
    Func(D, S),
    /// A predeclared function.
    Builtin(D, Builtin),
    /// A constant, a variable or `nil`: none where it has no type.
    Value(D, Option<Operand<T>>),
}

/// What a name of another package stands for.
#[derive(Drop)]
pub enum Exported<T, S, D> {
    /// Nothing: the package does not declare it.
    Absent,
    /// A declaration that is not exported.
    Hidden,
    /// A type: none where what is declared is no type.
    Type(D, Option<T>),
    /// A function, with its signature.
    Func(D, S),
    /// A constant or a variable: none where it has no type.
    Value(D, Option<Operand<T>>),
}

/// The member that a selector after a value chooses.
#[derive(Drop)]
pub enum Selection<T, S, D, P> {
    /// None, by this rule: S4, S6, S2, S3, S1 or S7.
    Missing(Rule),
    /// A field: its declaration, the embedded fields that lead to it, its type where it has one, and whether a pointer is passed on
    /// the way, the operand's own included.
    Field(D, P, Option<T>, bool),
    /// A method: its declaration, the embedded fields that lead to it, its signature, whether its receiver is a pointer, and whether
    /// a pointer is passed on the way, the operand's own included.
    Method(D, P, S, bool, bool),
}

/// What stands left of the dot of a selector.
#[derive(Drop)]
pub enum Dot<T, D> {
    /// The package that an import declares.
    Package(D),
    /// A name alone that is refused.
    Refused,
    /// What is no package and has not one type.
    Untyped,
    /// A single value.
    Value(Operand<T>),
}

/// One of the values that a call is given.
#[derive(Drop)]
pub enum Argument<T> {
    /// A single value.
    Value(Operand<T>),
    /// A call without results.
    Void,
    /// An operand that is refused.
    Refused,
}
