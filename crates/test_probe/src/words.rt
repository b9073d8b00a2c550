//! What is answered of letters, names, spans, rules, import paths and modules.
use crate::show::Lines;
use go_decl_core::path_core::{ImportPath, Module, may_import, overlaps};
use go_scope_core::text_core::{Name, Rule, Span, is_digit, is_exported, is_letter, same_id};
use std::alloc::Global;

/// The rules on names.
const NAME_RULES: [Rule; 9] = [
    Rule::N1,
    Rule::N2,
    Rule::N3,
    Rule::N4,
    Rule::N5,
    Rule::N6,
    Rule::N7,
    Rule::N8,
    Rule::N9,
];

/// The two texts round the first blank. The second is empty where there is none.
pub fn pair(text: &str) -> (&str, &str) {
    match text.split_once(' ') {
        Some(both) => both,
        None => (text, ""),
    }
}

/// The word for whether something holds.
fn yes_or_no(holds: bool) -> &'static str {
    if holds { "yes" } else { "no" }
}

/// Adds what each character of a text may be in an identifier, and whether a name that begins so is exported.
fn add_letters(out: &mut Lines, text: &str) {
    for c in text.chars() {
        out.line(if is_letter(c) {
            "letter"
        } else if is_digit(c) {
            "digit"
        } else {
            "neither"
        });
    }
    if is_exported(text) {
        out.line("exported");
    }
}

/// Adds the spelling of a copy of the name that is spelled so, and of the name.
fn add_name(out: &mut Lines, alloc: Global, text: &str) {
    let Ok(name) = Name::from_text(alloc, text) else {
        return out.cut();
    };
    match name.copy(alloc) {
        Ok(copied) => out.line(copied.as_str()),
        Err(_) => out.cut(),
    }
    out.line(name.as_str());
}

/// Whether two identifiers are the same, each with the path of its package behind a blank.
fn are_same(text: &str) -> bool {
    let (one, rest) = pair(text);
    let (one_path, rest) = pair(rest);
    let (other, other_path) = pair(rest);
    same_id(one, one_path, other, other_path)
}

/// The piece of a text from a start to an end, which stand before it.
fn piece(text: &str) -> &str {
    let (start, rest) = pair(text);
    let (end, text) = pair(rest);
    let span = Span {
        start: start.parse().unwrap_or(0),
        end: end.parse().unwrap_or(0),
    };
    span.slice(text).unwrap_or("none")
}

/// Adds the rules on names whose number begins with a text.
fn add_rules(out: &mut Lines, text: &str) {
    for rule in &NAME_RULES {
        let number = rule.number();
        if number.starts_with(text) {
            out.line(number);
        }
    }
}

/// Adds whether one of the two modules round a blank lies inside the other; O2 where one is no module.
fn add_overlaps(out: &mut Lines, alloc: Global, text: &str) {
    let (one, other) = pair(text);
    match Module::read(alloc, one) {
        Ok(one) => match Module::read(alloc, other) {
            Ok(other) => out.line(yes_or_no(overlaps(&one, &other))),
            Err(rule) => out.refuse(rule),
        },
        Err(rule) => out.refuse(rule),
    }
}

/// Adds whether the path before a blank may import the one behind it; I1 where one is no path.
fn add_may_import(out: &mut Lines, alloc: Global, text: &str) {
    let (from, path) = pair(text);
    match ImportPath::read(alloc, from) {
        Ok(from) => match ImportPath::read(alloc, path) {
            Ok(path) => out.line(yes_or_no(may_import(&from, &path))),
            Err(rule) => out.refuse(rule),
        },
        Err(rule) => out.refuse(rule),
    }
}

/// Adds the answer of a kind to a text, or that there is no such kind.
pub fn add_answer(out: &mut Lines, alloc: Global, kind: &str, text: &str) {
    match kind {
        "letters" => add_letters(out, text),
        "name" => add_name(out, alloc, text),
        "same" => out.line(yes_or_no(are_same(text))),
        "piece" => out.line(piece(text)),
        "rules" => add_rules(out, text),
        "path" => match ImportPath::read(alloc, text) {
            Ok(_) => out.line("ok"),
            Err(rule) => out.refuse(rule),
        },
        "module" => match Module::read(alloc, text) {
            Ok(_) => out.line("ok"),
            Err(rule) => out.refuse(rule),
        },
        "overlaps" => add_overlaps(out, alloc, text),
        "may_import" => add_may_import(out, alloc, text),
        _ => out.line("no such kind"),
    }
}
