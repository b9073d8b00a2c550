//! Files of a package that are checked in pieces at once. What comes of them is what one thread gives.
ghost use Rattle.std.specs.Prelude.{◌≡◌, ◌<◌, ◌≤◌, All, IfOk, length, map};
ghost use Rattle.std.specs.List.{AllZip, flat_map};
ghost use Rattle.go_package_core.specs.Checked.{answers_shown};
ghost use Rattle.go_package_core.specs.Tasks.{IsAnswered, IsTask};

use crate::checked::FileAnswers;
use crate::tasks::{FileTask, finished};
use go_body_core::env_core::{Recall, TypesOf};
use go_body_core::file::{check_file_at_once, file_bytes, piece_bytes};
use go_body_core::typexpr_core::ImportedNames;
use go_path_core::text_core::add;
use go_report_core::answer::HeldValues;
use rayon::prelude::*;
use std::alloc::{AllocError, Global};
use std::thread::Threads;

// How many bytes of source files have.
fn bytes_of<N>(tasks: &[FileTask<'_, '_, N>]) -> usize {
    let mut bytes: usize = 0;
    for task in tasks {
        bytes = bytes.saturating_add(file_bytes(task.tree));
    }
    bytes
}

// How many of the first files have so many bytes of source together, or all.
fn first_piece<N>(tasks: &[FileTask<'_, '_, N>], bytes: usize) -> usize
    ensures within { result ≤ length tasks.now }
    ensures some { 0 < length tasks.now → 0 < result }
{
    let mut sum: usize = 0;
    for (number, task) in tasks.iter().enumerate() {
        sum = sum.saturating_add(file_bytes(task.tree));
        if sum >= bytes {
            return number + 1;
        }
    }
    tasks.len()
}

// Files in pieces, in order: each of so many bytes of source at least, but for the last.
fn pieces_of<'t, 'n, 'p, N>(
    alloc: Global,
    tasks: &'t [FileTask<'n, 'p, N>],
    bytes: usize,
) -> Result<Vec<&'t [FileTask<'n, 'p, N>]>, AllocError>
    ensures { IfOk result (λ pieces. flat_map (λ piece. piece.now) pieces.items ≡ tasks.now) }
{
    let mut pieces = Vec::new(alloc);
    let mut start = 0;
    while start < tasks.len() {
        let cut = tasks.split_at(start);
        let apart = cut.1.split_at(first_piece(cut.1, bytes));
        add(&mut pieces, apart.0)?;
        start += apart.0.len();
    }
    Ok(pieces)
}

// What stands in the files of pieces, in order.
fn joined(alloc: Global, pieces: Vec<Vec<FileAnswers>>) -> Result<Vec<FileAnswers>, AllocError>
    ensures { IfOk result (λ files. files.items ≡ flat_map (λ piece. piece.items) pieces.items) }
{
    let mut files = Vec::new(alloc);
    for piece in pieces {
        let mut piece = piece;
        files.append(&mut piece)?;
    }
    Ok(files)
}

// What stands in a file, whose declarations are checked at once where they are of several pieces of so many bytes.
fn answers_of_file<'n, 'p, R: Threads + Sync, N: ImportedNames + Sync, K: TypesOf + Send + Sync>(
    rt: &R,
    alloc: Global,
    bytes: usize,
    task: &FileTask<'n, 'p, N>,
    recall: &Recall<'p, K>,
    values: &mut HeldValues,
) -> Result<FileAnswers, AllocError>
    requires task { IsTask N.shows K.types task.now }
    ensures { IfOk result (λ a. IsAnswered N.shows task.now (answers_shown a)) }
{
    let checked = check_file_at_once(rt, alloc, bytes, &task.at, task.tree, recall)?;
    finished(alloc, checked, &task.outer, values)
}

// What stands in the files of a piece, one behind another, with a memory of their own.
fn answers_of_part<'n, 'p, R: Threads + Sync, N: ImportedNames + Sync, K: TypesOf + Send + Sync>(
    rt: &R,
    alloc: Global,
    bytes: usize,
    tasks: &[FileTask<'n, 'p, N>],
) -> Result<Vec<FileAnswers>, AllocError>
    requires tasks { All (IsTask N.shows K.types) tasks.now }
    ensures { IfOk result (λ files. AllZip (IsAnswered N.shows) tasks.now (map answers_shown files.items)) }
{
    let recall: Recall<'p, K> = Recall::new(alloc);
    let mut values = HeldValues::new(alloc);
    let mut files = Vec::new(alloc);
    for task in tasks {
        let answers = answers_of_file(rt, alloc, bytes, task, &recall, &mut values)?;
        add(&mut files, answers)?;
    }
    Ok(files)
}

// What stands in the files of each piece, where each may have a thread.
fn parts_at_once<'n, 'p, R: Threads + Sync, N: ImportedNames + Sync, K: TypesOf + Send + Sync>(
    rt: &R,
    alloc: Global,
    bytes: usize,
    parts: &[&[FileTask<'n, 'p, N>]],
) -> Result<Vec<Vec<FileAnswers>>, AllocError>
    requires parts { All (λ part. All (IsTask N.shows K.types) part.now) parts.now }
    ensures { IfOk result (λ all. AllZip (λ part files. AllZip (IsAnswered N.shows) part.now (map answers_shown files.items)) parts.now all.items) }
{
    parts
        .par_iter()
        .with_min_len(1)
        .map(
            |part: &&[FileTask<N>]| -> Result<Vec<FileAnswers>, AllocError>
                requires { All (IsTask N.shows K.types) part.now.now }
                ensures { IfOk result (λ files. AllZip (IsAnswered N.shows) part.entry.now.now (map answers_shown files.items)) }
            { answers_of_part::<R, N, K>(rt, alloc, bytes, *part) },
        )
        .collect::<Result<Vec<Vec<FileAnswers>>, AllocError>>(rt, alloc)?
}

/// What stands in files, in pieces at once.
///
/// # Errors
///
/// `AllocError` where memory is wanting, or a thread.
pub(crate) fn answers_at_once<
    'n,
    'p,
    R: Threads + Sync,
    N: ImportedNames + Sync,
    K: TypesOf + Send + Sync,
>(rt: &R, alloc: Global, tasks: &[FileTask<'n, 'p, N>]) -> Result<Vec<FileAnswers>, AllocError>
    requires tasks { All (IsTask N.shows K.types) tasks.now }
    ensures { IfOk result (λ files. AllZip (IsAnswered N.shows) tasks.now (map answers_shown files.items)) }
{
    let bytes = piece_bytes(bytes_of(tasks));
    let parts = pieces_of(alloc, tasks, bytes)?;
    if parts.len() < 2 {
        return answers_of_part::<R, N, K>(rt, alloc, bytes, tasks);
    }
    let answers = parts_at_once::<R, N, K>(rt, alloc, bytes, parts.as_slice())?;
    joined(alloc, answers)
}
