//! The lines of a file.
ghost use Rattle.std.specs.Prelude.{◌≡◌, ◌++◌, flat_map, IfOk, OnOk};
ghost use Rattle.go_tree_nodes.specs.Shapes.{file_of};
ghost use Rattle.govisd_resolve.specs.told_lines.Lines.{answer_text, fault_line, file_lines, occurrence_line, occurrence_lines};
ghost use Rattle.go_tree_nodes.specs.Spelling.{IsPlaced};

use crate::told_lines::bytes::{push, push_number};
use crate::told_lines::places::push_declaration;
use go_expr_core::denote_core::Outcome;
use go_expr_core::local_core::Fault;
use go_package_core::report_core::Answer;
use go_parse_core::tree_core::{Occ, occurrences};
use go_term_core::decl_core::{Places, outline};
use go_tree_nodes::File;
use std::alloc::{AllocError, Global};

// Adds what an occurrence has.
fn push_answer(
    out: &mut Vec<u8>,
    name: &str,
    places: &Places,
    answer: &Answer,
) -> Result<(), AllocError>
    ensures { OnOk result (out.new.items ≡ out.old.items ++ answer_text name.now places.now answer.now.outcome) }
{
    match &answer.outcome {
        Outcome::Declared(site) => push_declaration(out, name, places, site.decl().site()),
        Outcome::Selected(site, _) => push_declaration(out, name, places, site.decl().site()),
        Outcome::Refused(rule) => push(out, rule.number().as_bytes()),
    }
}

// Adds the line of an occurrence.
fn push_occurrence(
    out: &mut Vec<u8>,
    name: &str,
    places: &Places,
    occ: &Occ,
    answer: &Answer,
) -> Result<(), AllocError>
    ensures { OnOk result (out.new.items ≡ out.old.items ++ occurrence_line name.now places.now occ.now answer.now) }
{
    push_number(out, occ.span.start as usize)?;
    push(out, b" ")?;
    push(out, occ.role.word().as_bytes())?;
    push(out, b" ")?;
    push(out, occ.spelling.as_str().as_bytes())?;
    push(out, b" ")?;
    push_answer(out, name, places, answer)?;
    push(out, b"\n")
}

// Adds the lines of occurrences, each with what it has.
fn push_occurrences(
    out: &mut Vec<u8>,
    name: &str,
    places: &Places,
    occs: &[Occ],
    answers: &[Answer],
) -> Result<(), AllocError>
    ensures { OnOk result (out.new.items ≡ out.old.items ++ occurrence_lines name.now places.now occs.now answers.now) }
{
    for (occ, answer) in occs.iter().zip(answers.iter()) {
        push_occurrence(out, name, places, occ, answer)?;
    }
    Ok(())
}

// Adds the line of a fault.
fn push_fault(out: &mut Vec<u8>, fault: Fault) -> Result<(), AllocError>
    ensures { OnOk result (out.new.items ≡ out.old.items ++ fault_line fault) }
{
    push(out, b"fault ")?;
    push_number(out, fault.offset)?;
    push(out, b" ")?;
    push(out, fault.rule.number().as_bytes())?;
    push(out, b"\n")
}

// Adds the lines of faults.
fn push_faults(out: &mut Vec<u8>, faults: &[Fault]) -> Result<(), AllocError>
    ensures { OnOk result (out.new.items ≡ out.old.items ++ flat_map fault_line faults.now) }
{
    for fault in faults {
        push_fault(out, *fault)?;
    }
    Ok(())
}

/// The line of one fault: `fault OFFSET RULE`.
///
/// # Errors
///
/// `AllocError` where memory is wanting.
pub fn fault_line(alloc: Global, fault: Fault) -> Result<Vec<u8>, AllocError>
    ensures { IfOk result (λ out. out.items ≡ fault_line fault) }
{
    let mut out = Vec::new(alloc);
    push_fault(&mut out, fault)?;
    Ok(out)
}

/// The lines of the file of a name and a tree: `OFFSET ROLE TEXT ANSWER` for each occurrence, with what it has by the answer of the same number,
/// and then `fault OFFSET RULE` for each fault, in the order in which they come. OFFSET counts bytes from 0.
///
/// A declaration stands as `universe.NAME`, as `package PATH`, or as `PATH/NAME:OFFSET` with the path of its package, the name of the file and the
/// offset of the identifier.
///
/// # Errors
///
/// `AllocError` where memory is wanting.
pub fn file_lines(
    alloc: Global,
    name: &str,
    tree: &File,
    answers: &[Answer],
    faults: &[Fault],
) -> Result<Vec<u8>, AllocError>
    requires { IsPlaced (file_of tree.now) }
    ensures { IfOk result (λ out. out.items ≡ file_lines name.now (file_of tree.now) answers.now faults.now) }
{
    let outline = outline(alloc, tree)?;
    let occs = occurrences(alloc, tree)?;
    let mut out = Vec::new(alloc);
    push_occurrences(&mut out, name, &outline.places, &occs, answers)?;
    push_faults(&mut out, faults)?;
    Ok(out)
}
