//! How instructions are written.
ghost use Rattle.std.specs.Prelude.{◌≡◌, ◌++◌, codes, decimal, string_bytes, OnOk};
ghost use Rattle.std.specs.Fmt.{signed_decimal};
ghost use Rattle.go_object_core.specs.instructions.Writing.{distance_text, instruction_text, letters_of, letters_text, word_text};

use crate::instructions::{Distance, Instruction, Letters, Word};
use std::alloc::AllocError;

/// Adds a number.
pub(crate) fn add_number(text: &mut String, number: usize) -> Result<(), AllocError>
    ensures { OnOk result (string_bytes text.new ≡ string_bytes text.old ++ decimal number) }
{
    write!(text, "{number}")
}

fn add_word(text: &mut String, word: Word) -> Result<(), AllocError>
    ensures { OnOk result (string_bytes text.new ≡ string_bytes text.old ++ word_text word) }
{
    match word {
        Word::Int => text.push_str("i"),
        Word::Bool => text.push_str("b"),
    }
}

fn add_words(text: &mut String, words: &[Word]) -> Result<(), AllocError>
    ensures { OnOk result (string_bytes text.new ≡ string_bytes text.old ++ letters_of words.now) }
{
    for word in words {
        add_word(text, *word)?;
    }
    Ok(())
}

fn add_letters(text: &mut String, letters: &Letters) -> Result<(), AllocError>
    ensures { OnOk result (string_bytes text.new ≡ string_bytes text.old ++ letters_text letters.now) }
{
    match letters.words() {
        [] => text.push_str("-"),
        words => add_words(text, words),
    }
}

fn add_distance(text: &mut String, distance: Distance) -> Result<(), AllocError>
    ensures { OnOk result (string_bytes text.new ≡ string_bytes text.old ++ distance_text distance) }
{
    write!(text, "{distance}")
}

// An operation and a number behind it.
fn add_one(text: &mut String, operation: &str, number: usize) -> Result<(), AllocError>
    ensures { OnOk result (string_bytes text.new ≡ string_bytes text.old ++ (operation.now ++ decimal number)) }
{
    text.push_str(operation)?;
    add_number(text, number)
}

fn add_call(text: &mut String, reference: usize, arguments: usize) -> Result<(), AllocError>
    ensures { OnOk result (string_bytes text.new ≡ string_bytes text.old ++ (codes "Call " ++ decimal reference ++ codes " " ++ decimal arguments)) }
{
    write!(text, "Call {reference} {arguments}")
}

fn add_push(text: &mut String, word: i64) -> Result<(), AllocError>
    ensures { OnOk result (string_bytes text.new ≡ string_bytes text.old ++ (codes "Push " ++ signed_decimal word)) }
{
    write!(text, "Push {word}")
}

/// Adds an instruction: its operation, and behind it what it is about.
pub(crate) fn add_instruction(
    text: &mut String,
    instruction: &Instruction,
) -> Result<(), AllocError>
    ensures { OnOk result (string_bytes text.new ≡ string_bytes text.old ++ instruction_text instruction.now) }
{
    match instruction {
        Instruction::Push(word) => add_push(text, *word),
        Instruction::Load(slot) => add_one(text, "Load ", *slot),
        Instruction::Store(slot) => add_one(text, "Store ", *slot),
        Instruction::Drop => text.push_str("Drop"),
        Instruction::Neg => text.push_str("Neg"),
        Instruction::Not => text.push_str("Not"),
        Instruction::Add => text.push_str("Add"),
        Instruction::Sub => text.push_str("Sub"),
        Instruction::Mul => text.push_str("Mul"),
        Instruction::Div => text.push_str("Div"),
        Instruction::Rem => text.push_str("Rem"),
        Instruction::Eq => text.push_str("Eq"),
        Instruction::Ne => text.push_str("Ne"),
        Instruction::Lt => text.push_str("Lt"),
        Instruction::Le => text.push_str("Le"),
        Instruction::Gt => text.push_str("Gt"),
        Instruction::Ge => text.push_str("Ge"),
        Instruction::Jump(distance) => {
            text.push_str("Jump ")?;
            add_distance(text, *distance)
        }
        Instruction::JumpFalse(count) => add_one(text, "JumpFalse ", *count),
        Instruction::Call {
            reference,
            arguments,
        } => add_call(text, *reference, *arguments),
        Instruction::Return(true) => text.push_str("Return 1"),
        Instruction::Return(false) => text.push_str("Return 0"),
        Instruction::Println(letters) => {
            text.push_str("Println ")?;
            add_letters(text, letters)
        }
        Instruction::Panic(_) => text.push_str("Panic"),
        Instruction::Outside => text.push_str("Outside"),
    }
}
