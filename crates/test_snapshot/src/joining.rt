//! What a snapshot has, and what a join of its parts has.
ghost use Rattle.std.specs.Prelude.{◌≡◌, ◌++◌, All, IfOk, OnOk, reverse};
ghost use Rattle.go_emit_core.specs.package_core.PreparePackages.{trees_in};
ghost use Rattle.go_tree_nodes.specs.Spelling.{IsPlaced};
ghost use Rattle.go_emit_core.specs.package_core.PackagePartSlots.{if_there, somes};

use crate::answers::{add_faults, add_outcomes};
use crate::shot::Shot;
use go_denote_core::text_core::add;
use go_emit_core::package_core::{Part, compile_part, one_part};
use go_snap_core::{Snapshot, join};
use std::alloc::{AllocError, Global};
use test_probe::show::{Lines, add_counts, add_files};

/// The part of the same input, made anew: it is the same.
fn made(alloc: Global, part: &Part) -> Result<Part, AllocError>
    requires { All IsPlaced (trees_in part.now.input.source) }
    ensures { IfOk result (λ made. made ≡ part.now) }
{
    one_part();
    let _content = part.content();
    compile_part(alloc, part.input())
}

/// Adds a part that is made anew, where there is one.
fn add_made(parts: &mut Vec<Part>, alloc: Global, part: &Option<Part>) -> Result<(), AllocError>
    requires { All (λ p. All IsPlaced (trees_in p.input.source)) (if_there part.now) }
    ensures { OnOk result (parts.new.items ≡ parts.old.items ++ if_there part.now) }
{
    match part {
        Some(part) => add(parts, made(alloc, part)?),
        None => Ok(()),
    }
}

/// Adds parts that are made anew.
fn add_all_made(
    made: &mut Vec<Part>,
    alloc: Global,
    parts: &[Option<Part>],
) -> Result<(), AllocError>
    requires { All (λ part. All (λ p. All IsPlaced (trees_in p.input.source)) (if_there part)) parts.now }
    ensures { OnOk result (made.new.items ≡ made.old.items ++ somes parts.now) }
{
    for part in parts {
        add_made(made, alloc, part)?;
    }
    Ok(())
}

/// Parts that are made anew, the last one first.
fn made_anew(alloc: Global, parts: &[Option<Part>]) -> Result<Vec<Part>, AllocError>
    requires { All (λ part. All (λ p. All IsPlaced (trees_in p.input.source)) (if_there part)) parts.now }
    ensures { IfOk result (λ made. made.items ≡ reverse (somes parts.now)) }
{
    let mut made = Vec::new(alloc);
    add_all_made(&mut made, alloc, parts)?;
    made.reverse();
    Ok(made)
}

/// A snapshot of the same workspace, joined of parts that are made anew.
fn joined(alloc: Global, snapshot: &Snapshot) -> Result<Snapshot, AllocError> {
    let sources = snapshot.sources();
    let _packages = sources.packages();
    let workspace = sources.copy(alloc)?;
    let parts = made_anew(alloc, snapshot.parts())?;
    match join(alloc, workspace, parts) {
        Ok(snapshot) => Ok(snapshot),
        Err(_) => Err(AllocError),
    }
}

/// Adds all that a snapshot has: its sources, its faults, and what each occurrence has. It is written as the first one is.
fn add_all(out: &mut Lines, shot: &Shot<'_>, snapshot: &Snapshot) {
    add_files(out, snapshot.sources());
    add_faults(out, shot.named, snapshot.faults(), "", None);
    for source in snapshot.sources().packages() {
        for file in source.files() {
            add_outcomes(out, snapshot, &shot.spelling, source.path(), file.name());
        }
    }
}

/// Adds a word, and whether another snapshot has the same sources, faults and outcomes.
pub fn add_same(out: &mut Lines, alloc: Global, word: &str, shot: &Shot<'_>, other: &Snapshot) {
    let mut first = Lines::new(alloc);
    add_all(&mut first, shot, shot.snapshot);
    let mut second = Lines::new(alloc);
    add_all(&mut second, shot, other);
    out.compare(word, first, second);
}

/// Whether parts are made in no generation, as those are that are compiled alone.
fn are_alone(parts: &[Option<Part>]) -> bool {
    for slot in parts {
        if let Some(part) = slot {
            if part.made_in() != 0 {
                return false;
            }
        }
    }
    true
}

/// Adds what a workspace has, its faults, and whether a join of its parts has the same.
pub fn add_snapshot(out: &mut Lines, alloc: Global, shot: &Shot<'_>) {
    add_counts(out, shot.snapshot.sources());
    add_faults(out, shot.named, shot.snapshot.faults(), "fault ", None);
    match joined(alloc, shot.snapshot) {
        Ok(other) => {
            let word = if are_alone(other.parts()) {
                "joined"
            } else {
                "joined of parts of generations"
            };
            add_same(out, alloc, word, shot, &other)
        }
        Err(AllocError) => out.cut(),
    }
}
