//! Files that are read by several threads.
ghost use Rattle.std.specs.Prelude.{◌≡◌, All, IfOk, flat_map};
ghost use Rattle.go_graph_core.specs.Sources.{IsRead};
ghost use Rattle.go_graph_core.specs.Workspaces.{given_files, texts_of_files};
ghost use Rattle.govisd_disk.specs.at_once.Batches.{IsSound, batch_of};
ghost use Rattle.govisd_disk.specs.at_once.Reading.{AreReadOf};

use go_graph_core::{SourceFile, read_files};
use std::alloc::{AllocError, Global};
use std::snapshot::Snapshot;
use std::thread;
use std::thread::{Promise, PromisedHandle, Threads};

/// The least bytes of source that are worth several threads.
const LEAST_BYTES: usize = 65_536;

/// The least bytes of source that are worth a thread of their own.
const LEAST_SHARE: usize = 16_384;

/// The names and texts that are given to a thread. It promises the files that are read from them.
#[derive(Drop)]
struct Given(Snapshot<Vec<(String, String)>>);

impl Promise<Result<Vec<SourceFile>, AllocError>> for Given {
    ghost use Rattle.std.specs.Prelude.{IfOk};
    ghost use Rattle.go_graph_core.specs.Workspaces.{given_files};
    ghost use Rattle.govisd_disk.specs.at_once.Reading.{AreReadOf};

    ghost kept_by = { λ p r. IfOk r (λ v. AreReadOf (given_files p.0.value.items) v.items) };
}

/// Some of the files.
#[derive(Drop)]
enum Batch {
    /// A thread reads them.
    Begun(PromisedHandle<Result<Vec<SourceFile>, AllocError>, Given>),
    /// They are read.
    Read(Vec<SourceFile>),
}

/// How many bytes the texts of files have together, as far as a number can say.
pub fn text_bytes(files: &[(String, String)]) -> usize {
    let mut bytes: usize = 0;
    for (_, text) in files {
        bytes = bytes.saturating_add(text.len());
    }
    bytes
}

// The bytes of source that a thread is given at least, of so many.
fn share_of(bytes: usize, workers: usize) -> usize {
    bytes.checked_div(workers).unwrap_or(bytes).max(LEAST_SHARE)
}

// Reads the files of a batch.
fn read_batch(alloc: Global, files: Vec<(String, String)>) -> Result<Vec<SourceFile>, AllocError>
    ensures { IfOk result (λ v. AreReadOf (given_files files.items) v.items) }
{
    let read = read_files(alloc, files)?;
    Ok(read)
}

// Begins to read a batch. Where no thread can be made this one reads it.
fn begin(
    rt: &impl Threads,
    alloc: Global,
    files: Vec<(String, String)>,
) -> Result<Batch, AllocError>
    ensures files { IfOk result (λ b. batch_of b ≡ given_files files.items) }
    ensures sound { IfOk result IsSound }
{
    let given = Given(Snapshot::of(&files));
    match thread::spawn_with(rt, given, move || read_batch(alloc, files)) {
        Ok(reading) => Ok(Batch::Begun(reading)),
        Err(refused) => {
            let read = (refused.value)()?;
            Ok(Batch::Read(read))
        }
    }
}

// Cuts files into batches of so many bytes and more, and begins to read each. This thread reads what is left over.
fn begin_all(
    rt: &impl Threads,
    alloc: Global,
    files: Vec<(String, String)>,
    share: usize,
) -> Result<Vec<Batch>, AllocError>
    ensures files { IfOk result (λ v. flat_map batch_of v.items ≡ given_files files.items) }
    ensures sound { IfOk result (λ v. All IsSound v.items) }
{
    let mut batches = Vec::new(alloc);
    let mut next = Vec::new(alloc);
    let mut bytes: usize = 0;
    for file in files {
        bytes = bytes.saturating_add(file.1.len());
        next.push(file)?;
        if bytes >= share {
            let batch = begin(rt, alloc, next)?;
            batches.push(batch)?;
            next = Vec::new(alloc);
            bytes = 0;
        }
    }
    let last = read_batch(alloc, next)?;
    batches.push(Batch::Read(last))?;
    Ok(batches)
}

// The files of a batch, once its thread has ended.
fn end(rt: &impl Threads, batch: Batch) -> Result<Vec<SourceFile>, AllocError>
    requires { IsSound batch }
    ensures { IfOk result (λ v. AreReadOf (batch_of batch) v.items) }
{
    match batch {
        Batch::Begun(reading) => reading.join(rt),
        Batch::Read(files) => Ok(files),
    }
}

// The files of batches, once all of their threads have ended.
fn end_all(
    rt: &impl Threads,
    alloc: Global,
    batches: Vec<Batch>,
) -> Result<Vec<SourceFile>, AllocError>
    requires { All IsSound batches.items }
    ensures { IfOk result (λ v. AreReadOf (flat_map batch_of batches.items) v.items) }
{
    let mut read = Vec::new(alloc);
    for batch in batches {
        let mut files = end(rt, batch)?;
        read.append(&mut files)?;
    }
    Ok(read)
}

/// Reads files, each by its name and text, as `read_files` of `go_graph_core` does, in the same order. Where their texts have 65,536 bytes or more together,
/// and there are two workers or more, so many threads at most read them, each with 16,384 bytes and more.
///
/// The time is linear in the texts; with threads it is that of the longest text, or of all of them by the number of threads.
///
/// # Errors
///
/// `AllocError` for want of memory.
pub fn read_files_at_once(
    rt: &impl Threads,
    alloc: Global,
    files: Vec<(String, String)>,
    workers: usize,
) -> Result<Vec<SourceFile>, AllocError>
    ensures texts { IfOk result (λ v. texts_of_files v.items ≡ given_files files.items) }
    ensures read { IfOk result (λ v. All IsRead v.items) }
{
    let bytes = text_bytes(&files);
    if bytes < LEAST_BYTES || workers < 2 {
        return read_files(alloc, files);
    }
    let share = share_of(bytes, workers);
    let batches = begin_all(rt, alloc, files, share)?;
    let read = end_all(rt, alloc, batches)?;
    Ok(read)
}
