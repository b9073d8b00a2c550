//! What is answered of all types of a workspace.
use crate::selectors::{add_selectable, add_selector, starred};
use crate::types::Typed;
use go_denote_core::text_core::add;
use go_mset_core::select_core::select;
use go_table_core::path_core::ImportPath;
use go_table_core::{DefinedType, PackageTypes, StructField};
use go_term_core::TypeTerm;
use std::alloc::{AllocError, Global};
use test_probe::show::Lines;

/// What stands before a type: of a value of it, of a pointer to it, and of a pointer to that.
const STARS: [&str; 3] = ["", "*", "**"];

/// Adds the names of the members of a type, those of embedded fields where they are asked for.
fn add_members<'a>(
    names: &mut Vec<&'a str>,
    defined: &'a DefinedType,
    embedded: bool,
) -> Result<(), AllocError> {
    for method in defined.methods() {
        add(names, method.name.as_str())?;
    }
    match defined.underlying() {
        TypeTerm::Struct(_, fields, lines) => {
            for field in fields {
                if embedded || !StructField::of(field, lines).is_embedded() {
                    add(names, field.name.as_str())?;
                }
            }
        }
        TypeTerm::Interface(_, methods) => {
            for method in methods {
                add(names, method.name.as_str())?;
            }
        }
        _ => {}
    }
    Ok(())
}

/// The names of all members of the types of packages, and `Error`, in order of their bytes, each once; those of embedded fields where they are asked for.
fn member_names<'a>(
    alloc: Global,
    packages: &[&'a PackageTypes],
    embedded: bool,
) -> Result<Vec<&'a str>, AllocError> {
    let mut names = Vec::new(alloc);
    add(&mut names, "Error")?;
    for package in packages {
        for defined in package.types() {
            add_members(&mut names, defined, embedded)?;
        }
    }
    names.sort()?;
    names.dedup();
    Ok(names)
}

/// Adds a type with stars before it.
fn add_starred(out: &mut Lines, defined: &DefinedType, stars: &str) {
    out.add(stars);
    out.add(defined.key().path.as_str());
    out.add(".");
    out.add(defined.name().as_str());
}

/// Adds the package in which a selector is written.
fn add_where(out: &mut Lines, from: &ImportPath) {
    out.add(" in ");
    out.add(from.as_str());
}

/// Adds what is asked of a type with stars before it, for each package in which a selector may be written.
fn add_of_type(
    out: &mut Lines,
    alloc: Global,
    typed: &Typed<'_>,
    names: &[&str],
    operand: (&DefinedType, &str, &TypeTerm),
) {
    let (defined, stars, term) = operand;
    for package in typed.packages {
        let from = package.path();
        if names.is_empty() {
            add_starred(out, defined, stars);
            add_where(out, from);
            out.add(":");
            add_selectable(out, alloc, &*typed, &*term, from);
        }
        for name in names {
            add_starred(out, defined, stars);
            out.add(".");
            out.add(name);
            add_where(out, from);
            out.add(": ");
            add_selector(out, alloc, typed, term, name, from);
        }
    }
}

/// Adds what is asked of all types, of values of each, of pointers to it, and of pointers to these: what selectors of some names denote, or without
/// names which names there are.
fn add_of_types(out: &mut Lines, alloc: Global, typed: &Typed<'_>, names: &[&str]) {
    for package in typed.packages {
        for defined in package.types() {
            for stars in &STARS {
                match starred(alloc, defined, stars.len()) {
                    Ok(term) => add_of_type(out, alloc, typed, names, (defined, *stars, &term)),
                    Err(AllocError) => out.cut(),
                }
            }
        }
    }
}

/// How many of some names a selector resolves with behind a value of the first type of each package, in that package.
fn resolved_first(out: &mut Lines, alloc: Global, typed: &Typed<'_>, names: &[&str]) -> usize {
    let mut count = 0usize;
    for package in typed.packages {
        if let Some(defined) = package.types().first() {
            match starred(alloc, defined, 0) {
                Ok(term) => {
                    for name in names {
                        if select(alloc, typed.table, &term, name, package.path()).is_ok() {
                            count = count.saturating_add(1);
                        }
                    }
                }
                Err(AllocError) => out.cut(),
            }
        }
    }
    count
}

/// Adds how many selectors resolve of some names, behind a value of the first type of each package, in that package, if each is asked so many times.
fn add_count(out: &mut Lines, alloc: Global, typed: &Typed<'_>, names: &[&str], times: usize) {
    let mut count = 0usize;
    for _turn in 0..times {
        count = count.saturating_add(resolved_first(out, alloc, typed, names));
    }
    out.count("resolved ", count, "\n");
}

/// Adds what is answered of all types: for each type of each package, for a value of it, a pointer to it and a pointer to that, and for each package
/// in which a selector may be written, what the name of each member of the workspace denotes, or which names a selector may have; or how many selectors
/// resolve, of the names of all members but those of embedded fields.
pub fn add_answer(out: &mut Lines, alloc: Global, kind: &str, typed: &Typed<'_>) {
    match member_names(alloc, typed.packages, kind == "select") {
        Ok(names) => match kind {
            "select" => add_of_types(out, alloc, typed, names.as_slice()),
            "selectable" => add_of_types(out, alloc, typed, &[]),
            "first" => add_count(out, alloc, typed, names.as_slice(), 1),
            _ => add_count(out, alloc, typed, names.as_slice(), 10),
        },
        Err(AllocError) => out.cut(),
    }
}
