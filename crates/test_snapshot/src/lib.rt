//! What snapshots of workspaces have, as lines.
//!
//! | Kind | The answers to the archive of a workspace |
//! |---|---|
//! | `whole` | what the workspace has, its faults, and answers to the questions before the archive's first file |
//! | `answers` | what stands in each file: all lines but those of locals |
//! | `refusals` | the same lines as far as they tell an archive, a package, a file, a fault, or an occurrence that breaks a rule |
//! | `locals` | those that tell an archive, a package, a file, or a local of a function |
//! | `counts` | one line: how many packages were checked, how many occurrences they have, how many of these break a rule, and how many faults there are beside |
//! | `ask` | to the questions before the archive's first file, a line each: `ex.com/p` asks for the faults of a package, `ex.com/p *ex.com/q.T` for the names that a selector may have in the package `ex.com/p` behind a pointer to `T`, `ex.com/p *ex.com/q.T f` for what the selector `f` denotes there, `methods *ex.com/q.T` for the method set of a pointer to `T`, `implements *ex.com/q.T ex.com/r.I` for whether such a pointer implements `I` |
//! | `select` | for each type of each package, for a value of it, a pointer to it and a pointer to that, and for each package in which a selector may be written, what the name of each member in the workspace denotes |
//! | `selectable` | in the same order, the names that a selector may have |
//! | `faults` | all faults, by package, file and offset |
//! | `first` | how many selectors resolve behind a value of the first type of each package, in that package, of the names of all members but those of embedded fields |
//! | `first10` | the same, where each is asked ten times |
//!
//! The answers of the first five kinds stand behind a line `== FILE`.
//!
//! Of a whole archive it writes how many packages, files and trees the workspace has, a line `fault PLACE RULE` for each fault, and what comes of joining
//! parts that are made anew of the inputs, the last one first: `joined same` where it has the sources, the faults and the outcomes that the
//! snapshot has. Then each line before the archive's first file stands, with the answer behind it where it asks something:
//!
//! | Line | The answer |
//! |---|---|
//! | `outcomes PATH FILE` | what each occurrence of the file has: its number, and then as below; `NUMBER none` for the first number that no occurrence has |
//! | `listing PATH` | `object PATH NAME IMPORTS`, and behind it the functions of the package as they run; `no object` where the package has a fault, and `no package` where the path has none |
//! | `refs PATH` | for each function of the package, by its number, what the occurrences of its body come to; `NUMBER none` for the first number that no function has; `no object` and `no package` as above |
//! | `objects` | the same of all packages that have no fault, in order of path, as the snapshot makes them together |
//! | `renamed PATH FILE NUMBER NAME` | what the occurrence of the number has where the identifier is spelled as the name and all else is as it was, and what is reported of the package then; `none` where it is no identifier, `no file` and `no package` where there is none |
//! | `again` | where there is an archive before, of each package that has a part whether the snapshot that is made over that archive's has `kept` its part or `made` it, and `again same` where that snapshot has the sources, the faults and the outcomes of the one that is made from nothing |
//! | `compare PATH` | whether the summary of the package and what its part is made from are the `same` as in the archive before, or `another`; `none` where one of the two archives has no such package |
//!
//! Of files it writes for each package, in order of path, `package PATH NAME`; for each of its files, in order of name, `file NAME`; and of a file:
//!
//! | Line | Of |
//! |---|---|
//! | `const OFFSET VALUE` | a constant that is declared outside functions: its value, where it is known |
//! | `OFFSET ROLE TEXT ANSWER` | an occurrence: its declaration, or the rule that it breaks |
//! | `path OFFSET STEPS` | a selector that denotes a member: the places of the embedded fields that lead to it |
//! | `fault OFFSET RULE` | a fault that is no answer of an occurrence |
//! | `local OFFSET NAME TYPE` | a variable that a function declares, a receiver, a parameter and a result too, at its identifier: its type, `none` where it has none |
//! | `local OFFSET NAME TYPE = VALUE` | a constant that a function declares: its type and its value |
//!
//! A defined type stands as the place of its declaration, and a type that is written out as `struct` or `interface`. A package that does not assemble
//! stands as `package PATH RULE FILE:OFFSET`, with the faults of its files.
//!
//! A method of a method set stands in a line with its name, the place of its declaration, and the places of the embedded fields that lead to it. A type
//! that does not implement another lacks a method: the first one by bytes stands there.
//!
//! What a selector denotes is a field or a method at the place of its declaration, the path to it as places of embedded fields, and whether a
//! pointer is passed; or the rule that the selector breaks. Where the workspace has seven types at most, all paths are listed besides, and
//! a line says where that finds another answer.
#![tactic(auto)]

mod again;
mod all_paths;
mod all_types;
mod answers;
mod branches;
mod comparing;
mod files;
mod joining;
mod listings;
mod method_sets;
mod questions;
mod respelling;
mod selectors;
mod shot;
mod type_questions;
mod types;

pub use branches::add_branches;
use go_table_core::TypeTable;
use shot::{Shot, shot_of, snapshot_of};
use std::alloc::{AllocError, Global};
use test_probe::show::{Lines, name_packages};
use types::{Typed, add_types};

/// Adds what is asked of the types of a workspace. The text is that of its archive.
fn add_of_types(out: &mut Lines, alloc: Global, kind: &str, text: &str, shot: &Shot<'_>) {
    let mut table = TypeTable::new(alloc);
    let mut packages = Vec::new(alloc);
    for part in shot.snapshot.parts() {
        if let Some(part) = part {
            if add_types(&mut table, &mut packages, part.summary().types()).is_err() {
                out.cut();
            }
        }
    }
    let typed = Typed {
        named: shot.named,
        faults: shot.snapshot.faults(),
        table: &table,
        packages: packages.as_slice(),
    };
    match kind {
        "ask" => type_questions::add_questions(out, alloc, &typed, text),
        _ => all_types::add_answer(out, alloc, kind, &typed),
    }
}

/// Adds what is answered of a snapshot. The texts are those of its archive and of the one before it.
fn add_answer(out: &mut Lines, alloc: Global, kind: &str, text: &str, last: &str, shot: &Shot<'_>) {
    match kind {
        "whole" => {
            joining::add_snapshot(out, alloc, shot);
            questions::add_questions(out, alloc, text, last, shot);
        }
        "answers" | "refusals" | "locals" => files::add_packages(out, kind, shot),
        "counts" => files::add_sums(out, shot.snapshot.parts()),
        "faults" => answers::add_faults(out, shot.named, shot.snapshot.faults(), "", None),
        _ => add_of_types(out, alloc, kind, text, shot),
    }
}

/// Adds what is answered to the archive in a file, and tells whether the kind is one of these. The last text is that of the archive before it,
/// and nothing before the first.
pub fn add_of_file(
    out: &mut Lines,
    alloc: Global,
    kind: &str,
    file: &str,
    text: &str,
    last: &str,
) -> bool {
    match kind {
        "whole" | "answers" | "refusals" | "locals" | "counts" => {
            out.pieces(&["== ", file, "\n"]);
        }
        "ask" | "select" | "selectable" | "faults" | "first" | "first10" => {}
        _ => return false,
    }
    match snapshot_of(alloc, text) {
        Ok(snapshot) => match name_packages(alloc, snapshot.sources()) {
            Ok(packages) => match shot_of(alloc, &snapshot, packages.as_slice()) {
                Ok(shot) => add_answer(out, alloc, kind, text, last, &shot),
                Err(AllocError) => out.cut(),
            },
            Err(AllocError) => out.cut(),
        },
        Err(rule) => out.refuse(rule),
    }
    true
}
