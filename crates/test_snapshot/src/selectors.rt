//! Selectors, as lines.
use crate::all_paths::add_other_answer;
use crate::answers::{add_place, add_steps};
use crate::types::Typed;
use go_denote_core::text_core::boxed;
use go_mset_core::select_core::{Member, select, selectable};
use go_table_core::DefinedType;
use go_table_core::path_core::ImportPath;
use go_term_core::TypeTerm;
use std::alloc::{AllocError, Global};
use test_probe::show::{Lines, Named};

/// The type of an operand: a defined type with as many stars before it.
pub fn starred(alloc: Global, defined: &DefinedType, stars: usize) -> Result<TypeTerm, AllocError> {
    let mut term = TypeTerm::Defined(defined.key().share()?);
    for _star in 0..stars {
        term = TypeTerm::Pointer(boxed(alloc, term)?);
    }
    Ok(term)
}

/// Adds a member: what it is, and where it is declared.
pub fn add_member(out: &mut Lines, named: &[Named], member: Member<'_>) {
    let (word, path, place) = match member {
        Member::Field(path, field) => ("field ", path, field.field.place),
        Member::Method(path, method) => ("method ", path, method.place),
        Member::InterfaceMethod(path, method) => ("method ", path, method.place),
        Member::ErrorMethod => return out.add("method universe.error.Error"),
    };
    out.add(word);
    add_place(out, named, path, place);
}

/// Adds what a selector of a name denotes behind an operand of a type, where it is written in the package of a path: the member, the path to it, and
/// whether a pointer is passed; or the rule that it breaks.
pub fn add_selector(
    out: &mut Lines,
    alloc: Global,
    typed: &Typed<'_>,
    term: &TypeTerm,
    name: &str,
    from: &ImportPath,
) {
    let answer = select(alloc, typed.table, term, name, from);
    match &answer {
        Ok(selected) => {
            add_member(out, typed.named, selected.member);
            out.add(" ");
            add_steps(out, selected.path.steps());
            out.line(if selected.through_pointer {
                " pointer"
            } else {
                ""
            });
        }
        Err(rule) => out.refuse(*rule),
    }
    add_other_answer(out, alloc, typed.table, term, name, from, &answer);
}

/// Adds the names that a selector may have behind an operand of a type, where it is written in the package of a path: in order of bytes, each
/// with the path to what it denotes.
pub fn add_selectable<'x>(
    out: &mut Lines,
    alloc: Global,
    typed: &'x Typed<'_>,
    term: &'x TypeTerm,
    from: &ImportPath,
) {
    match selectable(alloc, typed.table, term, from) {
        Ok(names) => {
            for (name, selected) in &names {
                out.add(" ");
                out.add(name.as_str());
                add_steps(out, selected.path.steps());
            }
            out.line("");
        }
        Err(_) => out.cut(),
    }
}
