//! What code asks of names.
ghost use Rattle.std.specs.Prelude.{◌≡◌};

use go_object_core::instructions::Word;
use std::alloc::Global;

/// The value of a constant over `int` or `bool`.
#[derive(Clone, Copy, Debug, PartialEq, Eq)]
pub enum ConstantWord {
    Int(i64),
    Bool(bool),
}

/// What a call gives.
#[derive(Clone, Copy, Debug, PartialEq, Eq)]
pub enum Gives {
    /// No value.
    Nothing,
    /// One value over this.
    One(Word),
    /// Several values, or one over something else.
    Other,
}

/// What an identifier comes to.
#[derive(Clone, Copy, Debug, PartialEq, Eq)]
pub enum Meaning {
    /// A local variable, a parameter or a receiver over this, by the offset in bytes at which its identifier is declared.
    Variable(usize, Word),
    /// A constant.
    Constant(ConstantWord),
    /// A function, by what a call of it gives.
    Function(Gives),
    /// A method, by what a call of it gives.
    Method(Gives),
    /// A type over this.
    Type(Word),
    /// The predeclared function `println`.
    Println,
    /// The predeclared function `panic`.
    Panic,
    /// Something else, of which no code is made.
    Other,
}

/// What code asks of the names of a file. Offsets are in bytes from the file's start.
pub trait CodeNames {
    ghost use Rattle.go_code_core.specs.fragments.Names.{CodeLooks};

    // the answers to all that is asked
    ghost looks: { Self → CodeLooks };

    /// What the identifier comes to that is used at an offset: behind a dot, at the identifier there.
    fn meaning(&self, offset: usize) -> Meaning
        ensures { result ≡ (looks self.now).meaning offset };

    /// The number, among the references of the function, of the call whose opening parenthesis stands at an offset.
    fn reference(&self, offset: usize) -> usize
        ensures { result ≡ (looks self.now).reference offset };

    /// Whether the identifier at an offset, to the left of `:=`, is declared there: else it names a variable of the same block.
    fn is_new(&self, offset: usize) -> bool
        ensures { result ≡ (looks self.now).is_new offset };
}

/// A function while code is made of it. All is lent.
#[derive(Drop)]
pub struct Frame<'f, N> {
    pub alloc: Global,
    /// What the identifiers of its file come to.
    pub names: &'f N,
    /// What the slots are for, as `slots_of` answers: by the offsets in bytes of the identifiers, and none for a parameter without a name or `_`.
    pub slots: &'f [Option<usize>],
}
