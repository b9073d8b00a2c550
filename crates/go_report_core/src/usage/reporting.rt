//! What is reported of a file.
ghost use Rattle.std.specs.Prelude.{◌≡◌, ◌++◌, IfOk, OnOk};
ghost use Rattle.go_report_core.specs.usage.Reported.{IsReported};
ghost use Rattle.go_report_core.specs.usage.mirrors.Steps.{said};

use crate::answer::Answer;
use crate::settle_faults;
use go_expr_core::denote_core::Outcome;
use go_expr_core::local_core::Fault;
use std::alloc::{AllocError, Global};

// Adds the rules that occurrences break.
fn add_said(faults: &mut Vec<Fault>, answers: &[Answer]) -> Result<(), AllocError>
    ensures { OnOk result (faults.new.items ≡ faults.old.items ++ said answers.now) }
{
    for answer in answers {
        if let Outcome::Refused(rule) = &answer.outcome {
            faults.push(Fault {
                offset: answer.offset,
                rule: *rule,
            })?;
        }
    }
    Ok(())
}

/// What is reported of a file: the rules that its occurrences break, and its faults beside, by offset, then by the bytes of the rule's number,
/// each once. Time grows with the number n of both as n log n.
///
/// # Errors
///
/// `AllocError` where memory is wanting.
pub fn report(alloc: Global, answers: &[Answer], faults: &[Fault]) -> Result<Vec<Fault>, AllocError>
    ensures { IfOk result (λ report. IsReported answers.now faults.now report.items) }
{
    let mut all = Vec::new(alloc);
    all.extend_from_slice(faults)?;
    add_said(&mut all, answers)?;
    let none: Vec<Answer> = Vec::new(alloc);
    let report = settle_faults(alloc, &none, &all)?;
    Ok(report)
}
