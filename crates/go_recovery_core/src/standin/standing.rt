//! A text in the place of another.
ghost use Rattle.std.specs.Prelude.{◌≡◌, [], IfOk, string_bytes};
ghost use Rattle.go_recovery_core.specs.standin.Files.{HasLowTree};
ghost use Rattle.go_recovery_core.specs.standin.Standing.{IsFound, IsFoundAtEdit, IsFoundElsewhere, IsFoundSomewhere, IsFoundWithoutBroken, IsFoundWithoutOne, IsFoundWithoutSome, IsKept, IsStandIn, IsTried, Stands};

use crate::standin::alone::broken_of;
use crate::standin::around::{likely_parts, lines_of};
use crate::standin::blanks::all_blanked;
use crate::standin::judge::{fault_in, parses};
use crate::standin::outline::declarations_in;
use crate::standin::part::Interval;
use std::alloc::{AllocError, Global};

// Of at most so many declarations each is blanked by itself at last.
const MOST_TRIED: usize = 32;

/// A text that parses, and how it differs from the one that it stands for.
#[derive(Drop)]
pub struct StandIn {
    /// The text. It is as long as the one that it stands for, with the same bytes outside the blanked parts, and within them spaces but for `\n` and `\r`, which
    /// stay where they are.
    pub text: String,
    /// The parts that are blanked. There is none where the text itself parses.
    pub blanked: Vec<Interval>,
}

// A text with blanks in the place of these parts, where it parses.
fn standing(alloc: Global, blank: String, parts: &[Interval]) -> Result<Option<StandIn>, AllocError>
    ensures { IfOk result (λ s. IsKept (string_bytes blank) parts.now s) }
{
    if !parses(alloc, blank.as_str())? {
        return Ok(None);
    }
    let blanked = Vec::from_slice(alloc, parts)?;
    Ok(Some(StandIn {
        text: blank,
        blanked,
    }))
}

// The text with blanks in the place of some parts, where that parses.
fn tried(alloc: Global, text: &str, parts: &[Interval]) -> Result<Option<StandIn>, AllocError>
    ensures { IfOk result (λ s. IsTried text.now parts.now s) }
{
    let bytes = all_blanked(alloc, text.as_bytes(), parts)?;
    match String::from_utf8(bytes) {
        Ok(blank) => standing(alloc, blank, parts),
        Err(_) => Ok(None),
    }
}

// The text with blanks in the place of the first of some parts with which it parses.
fn first_of(alloc: Global, text: &str, parts: &[Interval]) -> Result<Option<StandIn>, AllocError>
    ensures { IfOk result (λ s. IsFound text.now parts.now s) }
{
    for part in parts {
        if let Some(found) = tried(alloc, text, &[*part])? {
            return Ok(Some(found));
        }
    }
    Ok(None)
}

// The text with blanks in the place of the lines that the last edit touches, where that parses.
fn at_edit(
    alloc: Global,
    text: &str,
    edited: Option<Interval>,
) -> Result<Option<StandIn>, AllocError>
    ensures { IfOk result (λ s. IsFoundAtEdit text.now edited s) }
{
    match edited {
        Some(edited) => tried(alloc, text, &[lines_of(text.as_bytes(), edited)]),
        None => Ok(None),
    }
}

// The text with blanks in the place of all declarations that do not parse by themselves, where that parses.
fn without_broken(
    alloc: Global,
    text: &str,
    declarations: &[Interval],
) -> Result<Option<StandIn>, AllocError>
    ensures { IfOk result (λ s. IsFoundWithoutBroken text.now declarations.now s) }
{
    let broken = broken_of(alloc, text.as_bytes(), declarations)?;
    tried(alloc, text, broken.as_slice())
}

// The text with blanks in the place of one declaration, where that parses; of many declarations none is tried.
fn without_one(
    alloc: Global,
    text: &str,
    declarations: &[Interval],
) -> Result<Option<StandIn>, AllocError>
    ensures { IfOk result (λ s. IsFoundWithoutOne text.now declarations.now s) }
{
    if declarations.len() > MOST_TRIED {
        return Ok(None);
    }
    first_of(alloc, text, declarations)
}

// The text with blanks in the place of declarations, where that parses.
fn without_some(
    alloc: Global,
    text: &str,
    declarations: &[Interval],
) -> Result<Option<StandIn>, AllocError>
    ensures { IfOk result (λ s. IsFoundWithoutSome text.now declarations.now s) }
{
    if let Some(found) = without_broken(alloc, text, declarations)? {
        return Ok(Some(found));
    }
    without_one(alloc, text, declarations)
}

// The text with blanks in the place of other parts than the lines of the edit, where that parses.
fn elsewhere(
    alloc: Global,
    text: &str,
    edited: Option<Interval>,
    fault: usize,
) -> Result<Option<StandIn>, AllocError>
    ensures { IfOk result (λ s. IsFoundElsewhere text.now s) }
{
    let declarations = declarations_in(alloc, text.as_bytes())?;
    let declarations = declarations.as_slice();
    let parts = likely_parts(alloc, text.as_bytes(), declarations, edited, fault)?;
    if let Some(found) = first_of(alloc, text, parts.as_slice())? {
        return Ok(Some(found));
    }
    without_some(alloc, text, declarations)
}

// A text that does not parse, with blanks.
fn blanked_somewhere(
    alloc: Global,
    text: &str,
    edited: Option<Interval>,
    fault: usize,
) -> Result<Option<StandIn>, AllocError>
    ensures { IfOk result (λ s. IsFoundSomewhere text.now edited s) }
{
    if let Some(found) = at_edit(alloc, text, edited)? {
        return Ok(Some(found));
    }
    elsewhere(alloc, text, edited, fault)
}

// A text that parses, as what stands for it.
fn itself(alloc: Global, text: &str) -> Result<StandIn, AllocError>
    requires { HasLowTree text.now }
    ensures stands { IfOk result (λ s. Stands text.now s) }
    ensures whole { IfOk result (λ s. s.blanked.items ≡ []) }
{
    let text = String::from_str(alloc, text)?;
    let blanked = Vec::new(alloc);
    Ok(StandIn { text, blanked })
}

/// A text that parses in the place of a text. It is the text itself where that parses, and else the text with parts blanked. `edited` is the part of the text
/// that the last edit wrote, where that is known.
///
/// The parts are, the first with which the text parses: the lines that the edit touches; where the parser stopped at the start of a declaration, the body of
/// the one before, or all of it; the line where the parser stopped, or the one before it, or both; the body in braces around the edit or around that place; the
/// whole body of the declaration there or of the one before; these declarations; all declarations that do not parse by themselves; and at last, where there
/// are at most 32 declarations, each of them. A declaration goes from a line that begins with `const`, `func`, `import`, `type` or `var` to the next one.
///
/// At most 16 texts as long as this one are parsed, and each declaration once more; where nothing of that helps, up to 32 texts more.
///
/// The answer is `None` where no text was found that parses, as where the package clause is broken.
///
/// # Errors
///
/// `AllocError` where memory runs out.
#[tactic(auto, using(crate::proofs::StandinTried::stands_in))]
pub fn stand_in(
    alloc: Global,
    text: &str,
    edited: Option<Interval>,
) -> Result<Option<StandIn>, AllocError>
    ensures { IfOk result (λ s. IsStandIn text.now edited s) }
{
    match fault_in(alloc, text)? {
        None => Ok(Some(itself(alloc, text)?)),
        Some(fault) => blanked_somewhere(alloc, text, edited, fault),
    }
}
