//! What is asked of a snapshot, in lines before the first file of an archive.
use crate::again::add_again;
use crate::answers::add_outcomes;
use crate::comparing::add_comparison;
use crate::listings::{add_emitted, add_objects};
use crate::respelling::add_respelled;
use crate::shot::{Shot, snapshot_of};
use go_table_core::path_core::ImportPath;
use std::alloc::Global;
use test_probe::show::{Lines, member_place};

/// Adds what the package of a path has of the snapshot of the archive before, or without a path what comes of a snapshot that is made over that one,
/// where there is one.
fn add_over(
    out: &mut Lines,
    alloc: Global,
    last: &str,
    shot: &Shot<'_>,
    path: Option<&ImportPath>,
) {
    if last.is_empty() {
        return;
    }
    match snapshot_of(alloc, last) {
        Ok(earlier) => match path {
            Some(path) => add_comparison(out, shot.snapshot, &earlier, path),
            None => add_again(out, alloc, shot, &earlier),
        },
        Err(rule) => out.refuse(rule),
    }
}

/// Adds the answer to a line that asks something of a package, and nothing behind any other line.
fn add_of_package(out: &mut Lines, alloc: Global, last: &str, shot: &Shot<'_>, line: &str) {
    let (kind, rest) = line.split_once(' ').unwrap_or((line, ""));
    let (path, file) = rest.split_once(' ').unwrap_or((rest, ""));
    let Ok(path) = ImportPath::read(alloc, path) else {
        return;
    };
    match kind {
        "outcomes" => add_outcomes(out, shot.snapshot, &shot.spelling, &path, file),
        "listing" => add_emitted(out, alloc, shot, &path, true),
        "refs" => add_emitted(out, alloc, shot, &path, false),
        "compare" => add_over(out, alloc, last, shot, Some(&path)),
        "renamed" => add_respelled(out, alloc, shot, &path, file),
        _ => {}
    }
}

/// Adds the lines before the first file of an archive, each with the answer behind it where it asks something.
pub fn add_questions(out: &mut Lines, alloc: Global, text: &str, last: &str, shot: &Shot<'_>) {
    for line in text.lines() {
        if member_place(line).is_some() {
            return;
        }
        out.line(line);
        match line {
            "objects" => add_objects(out, alloc, shot),
            "again" => add_over(out, alloc, last, shot, None),
            line => add_of_package(out, alloc, last, shot, line),
        }
    }
}
