//! The state of a run.
use crate::bounds::Bounds;
use crate::callers::Callers;
use crate::frame::Frame;

/// What a run panicked with.
#[derive(Clone, Copy, Debug, PartialEq, Eq)]
pub enum PanicValue {
    /// A division by 0.
    DivideByZero,
    /// A value of a type over `int`.
    Int(i64),
    /// A value of a type over `bool`.
    Bool(bool),
}

/// How a run ended, or that it did not.
#[derive(Clone, Copy, Debug, PartialEq, Eq)]
pub enum End {
    /// All functions that were to run are left.
    Ended,
    /// A division by 0, or an instruction that panics.
    Panicked(PanicValue),
    /// All steps are done, and the run goes on.
    Spent,
    /// An instruction lacks what it asks for: an operand, a slot, a function, or there is no instruction.
    Stuck,
}

/// A run at its next instruction.
#[derive(Drop)]
pub struct State {
    pub frame: Frame,
    pub callers: Callers,
    pub output: String,
    pub bounds: Bounds,
}
