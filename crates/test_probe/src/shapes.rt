//! Archives of packages in a shape, of any number of packages.
use crate::show::Lines;
use crate::workspaces;
use std::alloc::Global;

/// Adds the file of the package of a number, of so many in a row that import one another in a shape: `chain`, each the next one; `ring`, the last the
/// first besides; else each all others.
fn add_file(archive: &mut Lines, shape: &str, count: usize, number: usize) {
    archive.count("-- ex.com/p", number, "/a.go --\n");
    archive.count("package p", number, "\n");
    let next = number.saturating_add(1);
    let imported = match shape {
        "chain" => next..next.saturating_add(1).min(count),
        "ring" if next < count => next..next.saturating_add(1),
        "ring" => 0..1,
        _ => 0..count,
    };
    for other in imported {
        if other != number || shape == "ring" {
            archive.count("import \"ex.com/p", other, "\"\n");
        }
    }
}

/// Adds the counts of the plan of packages in a shape, as many as a text says, one file each.
pub fn add_answer(out: &mut Lines, alloc: Global, shape: &str, text: &str) {
    let count = text.parse().unwrap_or(0);
    let mut archive = Lines::new(alloc);
    for number in 0..count {
        add_file(&mut archive, shape, count, number);
    }
    match archive.finish() {
        Ok(archive) => workspaces::add_answer(out, alloc, "plan", archive.as_str()),
        Err(_) => out.cut(),
    }
}
