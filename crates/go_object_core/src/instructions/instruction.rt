//! Instructions.
use crate::instructions::letters::{Letters, Word};
use std::fmt;

/// How far a jump leads, counted in instructions from the one behind the jump.
#[derive(Clone, Copy, Debug, PartialEq, Eq)]
pub enum Distance {
    Forward(usize),
    Back(usize),
}

/// An instruction.
#[derive(Drop)]
pub enum Instruction {
    /// Pushes a word.
    Push(i64),
    /// Pushes what a slot has.
    Load(usize),
    /// Pops a word into a slot.
    Store(usize),
    /// Pops a word.
    Drop,
    /// Negates a word. It wraps, as do those up to `Rem`.
    Neg,
    /// Makes 1 of 0, and 0 of 1.
    Not,
    /// The sum of two words.
    Add,
    /// Their difference, the upper one taken from the lower one.
    Sub,
    /// Their product.
    Mul,
    /// The lower one divided by the upper one, truncated toward zero. It panics where that is 0.
    Div,
    /// What remains of that division.
    Rem,
    /// Whether two words are equal, as are the next five: 1 where it is so, else 0.
    Eq,
    /// Whether they differ.
    Ne,
    /// Whether the lower one is less.
    Lt,
    /// Whether it is less or equal.
    Le,
    /// Whether it is greater.
    Gt,
    /// Whether it is greater or equal.
    Ge,
    /// Goes on elsewhere.
    Jump(Distance),
    /// Pops a word, and leaves out as many instructions where it is 0.
    JumpFalse(usize),
    /// Calls the function of a reference, by its number, with as many words as arguments, a receiver counted.
    Call { reference: usize, arguments: usize },
    /// Ends the function: with the word on top as its result, or without one.
    Return(bool),
    /// Pops a word for each letter and prints them in order, with spaces between them and a newline behind.
    Println(Letters),
    /// Pops a word, which holds this, and panics with it.
    Panic(Word),
    /// All the code of a function that no code is made of.
    Outside,
}

impl fmt::Display for Word {
    ghost use Rattle.std.specs.Prelude.{Some};
    ghost use Rattle.go_object_core.specs.instructions.Writing.{word_text};

    ghost output = { λ w. Some (word_text w) };

    fn fmt<W: fmt::Write>(&self, f: &mut fmt::Formatter<W>) -> fmt::Result {
        match self {
            Word::Int => f.write_str("i"),
            Word::Bool => f.write_str("b"),
        }
    }
}

impl fmt::Display for Distance {
    ghost use Rattle.std.specs.Prelude.{Some};
    ghost use Rattle.go_object_core.specs.instructions.Writing.{distance_text};

    ghost output = { λ d. Some (distance_text d) };

    fn fmt<W: fmt::Write>(&self, f: &mut fmt::Formatter<W>) -> fmt::Result {
        match self {
            Distance::Back(0) => f.write_str("0"),
            Distance::Forward(n) => write!(f, "{n}"),
            Distance::Back(n) => write!(f, "-{n}"),
        }
    }
}
