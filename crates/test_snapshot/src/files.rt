//! What stands in the files of packages.
use crate::answers::{add_answer, add_place, spelling_at};
use crate::shot::Shot;
use go_constant_core::Constant;
use go_declared_core::Face;
use go_denote_core::Outcome;
use go_denote_core::operand_core::{Operand, ValueType};
use go_emit_core::package_core::{FileAnswers, Part};
use go_report_core::answer::HeldLocal;
use go_site_core::SiteSpelling;
use go_term_core::{Basic, MemberPlace, Signature, TypeTerm};
use test_probe::show::{Lines, Named, add_package};

/// Adds the value of a constant, and ends the line.
fn add_value(out: &mut Lines, constant: &Constant) {
    match constant {
        Constant::Unknown => out.add("unknown"),
        Constant::Int(value) => out.show(*value),
        Constant::Bool(value) => out.add(if *value { "true" } else { "false" }),
        Constant::Text(text) => {
            let alloc = *out.text().allocator();
            return match text.bytes(alloc) {
                Ok(bytes) => out.quote(bytes.as_slice()),
                Err(_) => out.cut(),
            };
        }
    }
    out.line("");
}

/// Adds the constants of a file whose values are known. The offsets are those of its declarations, and what these are stands in front.
fn add_constants(
    out: &mut Lines,
    offsets: &[usize],
    declared: &[Option<Face<TypeTerm, Signature>>],
) {
    for number in 0..offsets.len() {
        if let Some(Some(Face::Value(Some(operand)))) = declared.get(number) {
            match &operand.constant {
                None | Some(Constant::Unknown) => {}
                Some(constant) => {
                    out.count("const ", offsets[number], " ");
                    add_value(out, constant);
                }
            }
        }
    }
}

/// Adds a type: a defined type by the place of its declaration, and of a type that is written out its kind.
fn add_type(out: &mut Lines, named: &[Named], term: &TypeTerm) {
    let word = match term {
        TypeTerm::NoType => "none",
        TypeTerm::Basic(Basic::Bool) => "bool",
        TypeTerm::Basic(Basic::Int) => "int",
        TypeTerm::Basic(Basic::Text) => "string",
        TypeTerm::Error => "error",
        TypeTerm::Defined(key) => {
            return add_place(out, named, &key.path, MemberPlace::Declared(key.decl));
        }
        TypeTerm::Pointer(target) => {
            out.add("*");
            return add_type(out, named, target);
        }
        TypeTerm::Struct(_, _, _) => "struct",
        TypeTerm::Interface(_, _) => "interface",
    };
    out.add(word);
}

/// Adds what a local stands for, and ends the line.
fn add_operand(out: &mut Lines, named: &[Named], operand: &Operand<TypeTerm>) {
    let word = match &operand.value_type {
        ValueType::Typed(term) => {
            add_type(out, named, term);
            ""
        }
        ValueType::UntypedInt => "untyped int",
        ValueType::UntypedText => "untyped string",
        ValueType::UntypedBool => "untyped bool",
        ValueType::Nil => "untyped nil",
    };
    out.add(word);
    match &operand.constant {
        Some(constant) => {
            out.add(" = ");
            add_value(out, constant);
        }
        None => out.line(""),
    }
}

/// Adds the locals that the functions of a file declare.
fn add_locals(out: &mut Lines, named: &[Named], text: &str, locals: &[HeldLocal]) {
    for local in locals {
        out.count("local ", local.offset, " ");
        out.pieces(&[spelling_at(text, local.offset), " "]);
        match local.value() {
            Some(operand) => add_operand(out, named, operand),
            None => out.line("none"),
        }
    }
}

/// Adds what the occurrences of a file have, those that break a rule alone where all are not asked for, and its faults.
fn add_answers(
    out: &mut Lines,
    spelling: &SiteSpelling<'_>,
    all: bool,
    text: &str,
    file: &FileAnswers,
) {
    for answer in &file.answers {
        if all || matches!(answer.outcome, Outcome::Refused(_)) {
            add_answer(out, spelling, spelling_at(text, answer.offset), answer);
        }
    }
    for fault in &file.faults {
        out.count("fault ", fault.offset, " ");
        out.refuse(fault.rule);
    }
}

/// Adds what stands in the files of a package.
fn add_part(out: &mut Lines, kind: &str, shot: &Shot<'_>, package: &Named, part: &Part) {
    let content = part.content();
    let sources = part.input().package().files();
    let mut declared = content.declared.as_slice();
    for number in 0..sources.len() {
        if let (Some(source), Some(file)) = (sources.get(number), content.files.get(number)) {
            let (text, offsets) = (source.text(), package.declared(number));
            out.pieces(&["file ", source.name(), "\n"]);
            match kind {
                "locals" => add_locals(out, shot.named, text, file.answers.locals.as_slice()),
                "refusals" => add_answers(out, &shot.spelling, false, text, &file.answers),
                _ => {
                    add_constants(out, offsets, declared);
                    add_answers(out, &shot.spelling, true, text, &file.answers);
                }
            }
            declared = declared.get(offsets.len()..).unwrap_or(&[]);
        }
    }
}

/// Adds the packages of a workspace, in order of path, and what stands in their files; of a package that does not assemble the faults of those files
/// that have no tree.
pub fn add_packages(out: &mut Lines, kind: &str, shot: &Shot<'_>) {
    let parts = shot.snapshot.parts();
    let mut number = 0usize;
    for source in shot.snapshot.sources().packages() {
        add_package(out, source);
        if let (Some(Some(part)), Some(package)) = (parts.get(number), shot.named.get(number)) {
            add_part(out, kind, shot, package, part);
        } else {
            for file in source.files() {
                if let Err(fault) = file.tree() {
                    out.pieces(&["file ", file.name(), "\n"]);
                    out.fault(fault.rule, fault.offset);
                }
            }
        }
        number = number.saturating_add(1);
    }
}

/// Adds how many packages were checked, and what they have.
pub fn add_sums(out: &mut Lines, parts: &[Option<Part>]) {
    let (mut packages, mut occurrences, mut refused, mut faults) = (0usize, 0usize, 0usize, 0usize);
    for part in parts {
        if let Some(part) = part {
            packages = packages.saturating_add(1);
            for file in &part.content().files {
                occurrences = occurrences.saturating_add(file.answers.answers.len());
                for answer in &file.answers.answers {
                    if matches!(answer.outcome, Outcome::Refused(_)) {
                        refused = refused.saturating_add(1);
                    }
                }
                faults = faults.saturating_add(file.answers.faults.len());
            }
        }
    }
    out.count("packages ", packages, " occurrences ");
    out.count("", occurrences, " refused ");
    out.count("", refused, " faults ");
    out.count("", faults, "\n");
}
