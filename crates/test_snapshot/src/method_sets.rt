//! Method sets, and which types implement an interface type, as lines.
use crate::answers::add_steps;
use crate::selectors::add_member;
use crate::types::Typed;
use go_mset_core::{implements, implements_by_pointer, method_set};
use go_term_core::TypeTerm;
use std::alloc::Global;
use test_probe::show::Lines;

/// Adds the method set of a type, in its order: a line for each method, with its name, where it is declared, and the places of the embedded fields
/// that lead to it.
pub fn add_method_set(out: &mut Lines, alloc: Global, typed: &Typed<'_>, term: &TypeTerm) {
    match method_set(alloc, typed.table, term) {
        Ok(methods) => {
            for method in &methods {
                out.pieces(&["  ", method.member.name(), " "]);
                add_member(out, typed.named, method.member);
                out.add(" ");
                add_steps(out, method.path.steps());
                out.line("");
            }
        }
        Err(_) => out.cut(),
    }
}

/// Adds whether a type implements an interface type: `yes`, or the name of the method that it lacks, the first of them by bytes. A line says where it is
/// answered otherwise of a pointer type that is asked for as a pointer to its base type.
pub fn add_implements(
    out: &mut Lines,
    alloc: Global,
    typed: &Typed<'_>,
    term: &TypeTerm,
    interface: &TypeTerm,
) {
    let missing = match implements(alloc, typed.table, term, interface) {
        Ok(Ok(())) => "",
        Ok(Err(missing)) => missing.name,
        Err(_) => return out.cut(),
    };
    if missing.is_empty() {
        out.line(" yes");
    } else {
        out.pieces(&[" lacks ", missing, "\n"]);
    }
    if let TypeTerm::Pointer(base) = term {
        let by_pointer = match implements_by_pointer(alloc, typed.table, base, interface) {
            Ok(Ok(())) => "",
            Ok(Err(missing)) => missing.name,
            Err(_) => return out.cut(),
        };
        if by_pointer != missing {
            out.line("  of a pointer to what stands behind the star it is answered otherwise");
        }
    }
}
