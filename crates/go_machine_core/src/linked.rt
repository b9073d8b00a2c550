//! Functions whose references are numbers, and their parts by numbers.
ghost use Rattle.std.specs.Prelude.{◌≡◌};
ghost use Rattle.go_machine_core.specs.Programs.{callee};
ghost use Rattle.go_machine_core.specs.mirrors.Shown.{numbered};

use go_object_core::instructions::Instruction;

/// A function of a program: its references are looked up once, so that a call takes no search. What is lent is of its object.
#[derive(Drop)]
pub struct Linked<'a> {
    /// How many slots it has: for its receiver, its parameters, and its local variables but `_`.
    pub slots: usize,
    /// Of each reference the number of the function of the program that it is, if it is one.
    pub callees: Vec<Option<usize>>,
    pub code: &'a [Instruction],
}

/// The number of the function that a reference of a function is, both by their numbers.
pub(crate) fn callee_of(program: &[Linked<'_>], function: usize, reference: usize) -> Option<usize>
    ensures { result ≡ callee (numbered program.now function) reference }
{
    match program.get(function) {
        Some(function) => match function.callees.get(reference) {
            Some(callee) => *callee,
            None => None,
        },
        None => None,
    }
}

/// The code of a function: none where there is no such function.
pub(crate) fn code_of<'a>(program: &[Linked<'a>], function: usize) -> &'a [Instruction]
    ensures { result.now ≡ (numbered program.now function).code }
{
    match program.get(function) {
        Some(function) => function.code,
        None => &[],
    }
}
