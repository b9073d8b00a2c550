//! How faults and what occurrences have are written.
use go_denote_core::Outcome;
use go_parse_core::tree_core::OccId;
use go_report_core::answer::{Answer, Site};
use go_site_core::SiteSpelling;
use go_snap_core::{PlacedFault, Snapshot};
use go_table_core::path_core::ImportPath;
use go_term_core::MemberPlace;
use test_probe::show::{Lines, Named, identifier_at};

/// Adds an identifier of the package of a path.
pub fn add_place(out: &mut Lines, named: &[Named], path: &ImportPath, place: MemberPlace) {
    for package in named {
        if package.path.as_str() == path.as_str() {
            match place {
                MemberPlace::Declared(decl) => package.add_decl(out, decl),
                MemberPlace::Local(local) => package.add_place(out, local.file, local.offset),
            }
        }
    }
}

/// Adds a declaration.
pub fn add_site(out: &mut Lines, spelling: &SiteSpelling<'_>, site: &Site) {
    if spelling.add_site(out.text(), site).is_err() {
        out.cut();
    }
}

/// Adds the places of the embedded fields that lead to a member.
pub fn add_steps(out: &mut Lines, steps: &[usize]) {
    out.add("[");
    let mut before = "";
    for step in steps {
        out.count(before, *step, "");
        before = " ";
    }
    out.add("]");
}

/// What stands at an offset of a text: a string up to the next quote of its kind, a parenthesis, or an identifier.
pub fn spelling_at(text: &str, offset: usize) -> &str {
    let rest = text.get(offset..).unwrap_or("");
    let quote = match rest.as_bytes() {
        [b'"', ..] => '"',
        [b'`', ..] => '`',
        [b'(', ..] => return "(",
        _ => return identifier_at(rest, 0),
    };
    match rest.get(1..).unwrap_or("").split_once(quote) {
        Some((inside, _)) => rest.get(..inside.len().saturating_add(2)).unwrap_or(rest),
        None => rest,
    }
}

/// Adds what an occurrence has that is spelled so.
pub fn add_answer(out: &mut Lines, spelling: &SiteSpelling<'_>, spelled: &str, answer: &Answer) {
    out.count("", answer.offset, " ");
    out.add(answer.role.word());
    out.add(" ");
    out.add(spelled);
    out.add(" ");
    match &answer.outcome {
        Outcome::Declared(site) => {
            add_site(out, spelling, site);
            out.line("");
        }
        Outcome::Selected(site, path) => {
            add_site(out, spelling, site);
            out.count("\npath ", answer.offset, " ");
            add_steps(out, path.steps());
            out.line("");
        }
        Outcome::Refused(rule) => out.refuse(*rule),
    }
}

/// The text of the file of a name in the package of a path, and nothing where there is none.
fn text_of<'a>(snapshot: &'a Snapshot, path: &ImportPath, name: &str) -> &'a str {
    for source in snapshot.sources().packages() {
        if source.path().as_str() == path.as_str() {
            for file in source.files() {
                if file.name() == name {
                    return file.text();
                }
            }
        }
    }
    ""
}

/// Adds what the occurrences of the file of a name in the package of a path have, by their numbers, up to the first number that none has.
pub fn add_outcomes(
    out: &mut Lines,
    snapshot: &Snapshot,
    spelling: &SiteSpelling<'_>,
    path: &ImportPath,
    name: &str,
) {
    let text = text_of(snapshot, path, name);
    for number in 0..usize::MAX {
        out.count("", number, " ");
        match snapshot.outcome(path, name, OccId(number)) {
            Some(answer) => add_answer(out, spelling, spelling_at(text, answer.offset), answer),
            None => return out.line("none"),
        }
    }
}

/// Adds faults of a snapshot, or those of the package of a path alone, each behind a piece.
pub fn add_faults(
    out: &mut Lines,
    named: &[Named],
    faults: &[PlacedFault],
    before: &str,
    path: Option<&str>,
) {
    for fault in faults {
        if let Some(package) = named.get(fault.package) {
            if path.is_none() || path == Some(package.path.as_str()) {
                out.add(before);
                package.add_place(out, fault.file, fault.offset);
                out.add(" ");
                out.refuse(fault.rule);
            }
        }
    }
}
