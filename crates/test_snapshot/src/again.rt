//! The snapshot of a workspace, made over that of the archive before.
use crate::joining::add_same;
use crate::shot::Shot;
use go_snap_core::{Recompiled, Snapshot, recompile};
use std::alloc::{AllocError, Global};
use test_probe::show::Lines;

/// Adds of each package that has a part, in order of path, whether a snapshot that is made over an earlier one has `kept` its part or `made` it, and
/// whether it has all that the snapshot has that is made from nothing.
pub fn add_again(out: &mut Lines, alloc: Global, shot: &Shot<'_>, earlier: &Snapshot) {
    match recompile(alloc, shot.snapshot.sources(), earlier) {
        Ok(Recompiled { snapshot, kept }) => {
            let mut number = 0usize;
            for part in snapshot.parts() {
                if let Some(part) = part {
                    let word = match kept.get(number) {
                        Some(true) => "kept ",
                        _ => "made ",
                    };
                    out.pieces(&[word, part.path().as_str(), "\n"]);
                }
                number = number.saturating_add(1);
            }
            add_same(out, alloc, "again", shot, &snapshot);
        }
        Err(AllocError) => out.cut(),
    }
}
