//! What a declaration is to those that name it.
use go_operand_core::Operand;

/// What a declaration of a package block is to those that name it. `T` stands for types, `S` for signatures.
#[derive(Drop)]
pub enum Face<T, S> {
    /// A type: none where what is declared is no type.
    Type(Option<T>),
    /// A function or a method, with its signature.
    Func(S),
    /// A constant or a variable, as an operand: none where it has no type.
    Value(Option<Operand<T>>),
}
