//! What is answered of a run.
ghost use Rattle.std.specs.Prelude.{◌≡◌, ◌++◌, IfOk, OnOk, string_bytes};
ghost use Rattle.govisd_disk.specs.Finds.{refused_line};
ghost use Rattle.govisd_disk.specs.Notes.{refusal_line};
ghost use Rattle.govisd_folders.specs.runs.Outcomes.{HasRun, NothingRan, TellsRun, panic_text, value_text};

use crate::{CheckAnswer, name_or_quotes, note, note_rule};
use go_path_core::text_core::Rule;
use go_session_core::launches::{PanicValue, Run};
use std::alloc::{AllocError, Global};

/// Nothing ran, for what is said.
pub(crate) fn nothing_ran(alloc: Global, said: String) -> CheckAnswer
    ensures { NothingRan (string_bytes said) result }
{
    CheckAnswer {
        status: 1,
        text: String::new(alloc),
        said,
    }
}

/// Nothing ran, since what has a name breaks a rule. That stands behind what is said already.
///
/// # Errors
///
/// `AllocError` for want of memory.
pub(crate) fn refuse(
    alloc: Global,
    before: &str,
    name: &str,
    rule: Rule,
) -> Result<CheckAnswer, AllocError>
    ensures { IfOk result (NothingRan (before.now ++ refusal_line name.now rule)) }
{
    let mut said = String::from_str(alloc, before)?;
    note_rule(&mut said, name, rule)?;
    Ok(nothing_ran(alloc, said))
}

/// Nothing ran, for a reason of what has a name. That stands behind what is said already.
///
/// # Errors
///
/// `AllocError` for want of memory.
pub(crate) fn refuse_for(
    alloc: Global,
    before: &str,
    name: &str,
    why: &str,
) -> Result<CheckAnswer, AllocError>
    ensures { IfOk result (NothingRan (before.now ++ refused_line name.now why.now)) }
{
    let mut said = String::from_str(alloc, before)?;
    note(&mut said, name_or_quotes(name), why)?;
    Ok(nothing_ran(alloc, said))
}

// A program ran and printed this, and this is said of how it was left.
fn has_run(alloc: Global, status: u8, output: String, said: &str) -> Result<CheckAnswer, AllocError>
    ensures { IfOk result (HasRun status (string_bytes output) said.now) }
{
    let said = String::from_str(alloc, said)?;
    Ok(CheckAnswer {
        status,
        text: output,
        said,
    })
}

// Adds what a program panicked with, as Go's runtime names it.
fn add_value(said: &mut String, value: PanicValue) -> Result<(), AllocError>
    ensures { OnOk result (string_bytes said.new ≡ string_bytes said.old ++ value_text value) }
{
    match value {
        PanicValue::DivideByZero => said.push_str("runtime error: integer divide by zero"),
        PanicValue::Int(number) => write!(said, "{number}"),
        PanicValue::Bool(true) => said.push_str("true"),
        PanicValue::Bool(false) => said.push_str("false"),
    }
}

// A program printed this and panicked.
fn has_panicked(alloc: Global, value: PanicValue, output: String) -> Result<CheckAnswer, AllocError>
    ensures { IfOk result (HasRun 2 (string_bytes output) (panic_text value)) }
{
    let mut said = String::from_str(alloc, "panic: ")?;
    add_value(&mut said, value)?;
    said.push_str("\n")?;
    Ok(CheckAnswer {
        status: 2,
        text: output,
        said,
    })
}

/// What a run came to, with what it printed.
///
/// # Errors
///
/// `AllocError` for want of memory.
pub(crate) fn answer_of(alloc: Global, run: Run) -> Result<CheckAnswer, AllocError>
    ensures { IfOk result (TellsRun run) }
{
    match run {
        Run::Ended(output) => has_run(alloc, 0, output, ""),
        Run::Panicked(value, output) => has_panicked(alloc, value, output),
        Run::Spent(output) => has_run(
            alloc,
            3,
            output,
            "govisd: the steps are done, and the program goes on\n",
        ),
    }
}
