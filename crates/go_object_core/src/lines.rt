//! Listings.
ghost use Rattle.std.specs.Prelude.{◌≡◌, ◌++◌, map, string_bytes, IfOk, OnOk};
ghost use Rattle.go_object_core.specs.Listing.{code_lines, function_lines, listing_of, reference_lines};
ghost use Rattle.go_object_core.specs.Objects.{function_shown};

use crate::instructions::Instruction;
use crate::object::FunctionCode;
use crate::words::{add_instruction, add_number};
use std::alloc::{AllocError, Global};

/// How declarations are written.
pub trait Spelling<D> {
    ghost use Rattle.std.specs.Prelude.{ℕ, List};

    // the text of a declaration
    ghost text_of: { Self → D → List ℕ };

    /// Adds a declaration.
    ///
    /// # Errors
    ///
    /// `AllocError` where memory is wanting.
    fn add_decl(&self, text: &mut String, decl: &D) -> Result<(), AllocError>
        ensures { OnOk result (string_bytes text.new ≡ string_bytes text.old ++ text_of self.now decl.now) };
}

// Adds the references of a function, each with its number.
fn add_references<D, S: Spelling<D>>(
    text: &mut String,
    spelling: &S,
    references: &[D],
) -> Result<(), AllocError>
    ensures { OnOk result (string_bytes text.new ≡ string_bytes text.old ++ reference_lines (S.text_of spelling.now) 0 references.now) }
{
    for (number, reference) in references.iter().enumerate() {
        text.push_str("ref ")?;
        add_number(text, number)?;
        text.push_str(" ")?;
        spelling.add_decl(text, reference)?;
        text.push_str("\n")?;
    }
    Ok(())
}

// Adds the instructions of a function, each with its number.
fn add_code(text: &mut String, code: &[Instruction]) -> Result<(), AllocError>
    ensures { OnOk result (string_bytes text.new ≡ string_bytes text.old ++ code_lines 0 code.now) }
{
    for (number, instruction) in code.iter().enumerate() {
        add_number(text, number)?;
        text.push_str(" ")?;
        add_instruction(text, instruction)?;
        text.push_str("\n")?;
    }
    Ok(())
}

// Adds a function.
fn add_function<D, S: Spelling<D>>(
    text: &mut String,
    spelling: &S,
    function: &FunctionCode<D>,
) -> Result<(), AllocError>
    ensures { OnOk result (string_bytes text.new ≡ string_bytes text.old ++ function_lines (S.text_of spelling.now) (function_shown function.now)) }
{
    text.push_str("func ")?;
    spelling.add_decl(text, &function.declaration)?;
    text.push_str(" slots ")?;
    add_number(text, function.slots)?;
    text.push_str("\n")?;
    add_references(text, spelling, &function.references)?;
    add_code(text, &function.code)
}

/// The listing of some functions, in order: for each of them a line `func DECLARATION slots N`, then `ref K DECLARATION` for each of its
/// references, then `K INSTRUCTION` for each of its instructions, each with its number from 0.
///
/// # Errors
///
/// `AllocError` where memory is wanting.
pub fn listing<D, S: Spelling<D>>(
    alloc: Global,
    spelling: &S,
    functions: &[FunctionCode<D>],
) -> Result<String, AllocError>
    ensures { IfOk result (λ text. string_bytes text ≡ listing_of (S.text_of spelling.now) (map function_shown functions.now)) }
{
    let mut text = String::new(alloc);
    for function in functions {
        add_function(&mut text, spelling, function)?;
    }
    Ok(text)
}
