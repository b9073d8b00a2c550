//! Questions on the types of a workspace, which stand before the first file of its archive.
use crate::answers::add_faults;
use crate::method_sets::{add_implements, add_method_set};
use crate::selectors::{add_selectable, add_selector, starred};
use crate::types::{Typed, find_package};
use go_term_core::TypeTerm;
use std::alloc::{AllocError, Global};
use test_probe::show::{Lines, member_place};

/// The type that an operand writes, as `*ex.com/p.T`: a defined type behind stars. Where there is none, it adds why.
fn type_of(out: &mut Lines, alloc: Global, typed: &Typed<'_>, operand: &str) -> Option<TypeTerm> {
    let place = operand.trim_start_matches('*');
    let stars = operand.len().saturating_sub(place.len());
    let (path, type_name) = place.rsplit_once('.').unwrap_or((place, ""));
    let Some(package) = find_package(typed, path) else {
        out.line(" no package");
        return None;
    };
    for defined in package.types() {
        if defined.name().as_str() == type_name {
            return match starred(alloc, defined, stars) {
                Ok(term) => Some(term),
                Err(AllocError) => {
                    out.cut();
                    None
                }
            };
        }
    }
    out.line(" no type");
    None
}

/// Adds what is asked of an operand, with what stands behind it: its method set, whether it has a type that implements another's, or in a package what a
/// selector of a name denotes, and without a name which names there are.
fn add_of_operand(out: &mut Lines, alloc: Global, typed: &Typed<'_>, asked: &str, operands: &str) {
    let (operand, behind) = operands.split_once(' ').unwrap_or((operands, ""));
    let Some(term) = type_of(out, alloc, typed, operand) else {
        return;
    };
    match asked {
        "methods" => {
            out.line("");
            add_method_set(out, alloc, typed, &term);
        }
        "implements" => {
            if let Some(interface) = type_of(out, alloc, typed, behind) {
                add_implements(out, alloc, typed, &term, &interface);
            }
        }
        path => {
            if let Some(package) = find_package(typed, path) {
                if behind.is_empty() {
                    add_selectable(out, alloc, typed, &term, package.path());
                } else {
                    out.add(" ");
                    add_selector(out, alloc, typed, &term, behind, package.path());
                }
            }
        }
    }
}

/// Adds a question, and behind a colon the answer: `PATH` asks for the faults of an assembled package, `PATH OPERAND` for the names that a selector may
/// have there, `PATH OPERAND NAME` for what a selector denotes, `methods OPERAND` for the method set of a type, and `implements OPERAND INTERFACE` for
/// whether a type implements another.
fn add_question(out: &mut Lines, alloc: Global, typed: &Typed<'_>, question: &str) {
    out.pieces(&[question, ":"]);
    let (asked, rest) = question.split_once(' ').unwrap_or((question, ""));
    let is_of_types = asked == "methods" || asked == "implements";
    if !is_of_types && find_package(typed, asked).is_none() {
        out.line(" no package");
    } else if !is_of_types && rest.is_empty() {
        out.line("");
        add_faults(out, typed.named, typed.faults, "", Some(asked));
    } else {
        add_of_operand(out, alloc, typed, asked, rest);
    }
}

/// Adds the questions before the first file of an archive, a line each, with their answers.
pub fn add_questions(out: &mut Lines, alloc: Global, typed: &Typed<'_>, text: &str) {
    for line in text.lines() {
        if member_place(line).is_some() {
            return;
        }
        let question = line.trim();
        if !question.is_empty() {
            add_question(out, alloc, typed, question);
        }
    }
}
