//! Code that is written from its end, so that each jump forward is written when all that it passes stands.
//!
//! Where a function that writes code ends for want of memory, some end of what it was to write may stand in front of the code that was there.
//! Nothing is made of that code: it is let go.
ghost use Rattle.std.specs.Prelude.{◌≡◌, ◌<◌, ◌++◌, [], ◌∷◌, length, List, OnErr, OnOk};
ghost use Rattle.go_object_core.specs.declared.instructions.instruction.Distance.TheVariants as distances;
ghost use Rattle.go_object_core.specs.declared.instructions.instruction.Instruction.{Instruction};
ghost use Rattle.go_object_core.specs.declared.instructions.instruction.Instruction.TheVariants as instructions;
ghost use Rattle.go_code_core.specs.fragments.Operators.{some_instruction};

use go_object_core::instructions::{Distance, Instruction};
use std::alloc::{AllocError, Global};
use std::marker::Model;

/// Code that is written from its end. Contracts see it from its front.
#[derive(Drop)]
pub(crate) struct Code {
    // The last instruction first.
    instructions: Vec<Instruction>,
}

impl Model for Code {
    ghost use Rattle.std.specs.Prelude.{List, reverse};
    ghost use Rattle.go_object_core.specs.declared.instructions.instruction.Instruction.{Instruction};

    ghost Value = { List Instruction };

    ghost view = { λ c. reverse c.instructions.items };
}

impl Code {
    pub(crate) fn new(alloc: Global) -> Code
        ensures { result ≡ [] }
    {
        Code {
            instructions: Vec::new(alloc),
        }
    }

    /// How many instructions there are.
    pub(crate) fn len(&self) -> usize
        ensures { result ≡ length self.now }
    {
        self.instructions.len()
    }

    /// One more instruction, in front of all. Without memory for it the code is as it was.
    pub(crate) fn put(&mut self, instruction: Instruction) -> Result<(), AllocError>
        ensures written { OnOk result (self.new ≡ instruction ∷ self.old) }
        ensures kept { OnErr result (self.new ≡ self.old) }
    {
        self.instructions.push(instruction)?;
        Ok(())
    }

    /// One more, where there is one. Without memory for it the code is as it was.
    pub(crate) fn put_some(&mut self, instruction: Option<Instruction>) -> Result<(), AllocError>
        ensures written { OnOk result (self.new ≡ some_instruction instruction ++ self.old) }
        ensures kept { OnErr result (self.new ≡ self.old) }
    {
        match instruction {
            Some(instruction) => self.put(instruction),
            None => Ok(()),
        }
    }

    /// Makes a jump back of the instruction that has as many others behind it.
    pub(crate) fn turn(&mut self, behind: usize, back: usize)
        requires { behind < length self.old }
        ensures { (front rest : List Instruction) (i : Instruction) → self.old ≡ front ++ i ∷ rest → behind ≡ length rest → self.new ≡ front ++ instructions.Jump (distances.Back back) ∷ rest }
    {
        self.instructions[behind] = Instruction::Jump(Distance::Back(back));
    }

    /// All instructions, from the front.
    pub(crate) fn finish(self) -> Vec<Instruction>
        ensures { result.items ≡ self }
    {
        let mut instructions = self.instructions;
        instructions.reverse();
        instructions
    }
}
