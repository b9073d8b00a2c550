//! How a selector is used.

/// How a selector as a whole is used.
#[derive(Clone, Copy, Debug, PartialEq, Eq)]
pub enum Usage {
    /// It names a type.
    Type,
    /// It is an operand.
    Value,
    /// It is called.
    Callee,
}
