//! A script: the lines of many sessions, served one after another.
ghost use Rattle.std.specs.Prelude.{◌≡◌, ◌<◌, false, IfSome};
ghost use Rattle.govisd_service.specs.Ends.{IsScript};

use crate::desks::ScriptDesk;
use crate::workers::start;
use crate::{PARTS, TURNS};
use go_hall::Hall;
use go_hall::hall_core::{Named, Stamps};
use go_wire_core::{CountedReader, ServeEnd, serve};
use std::alloc::Global;
use std::io::{Read, Write};
use std::marker::Brand;
use std::sync::Wait;
use std::sync::ledger::Blank;
use std::thread;
use std::thread::{Scope, Threads};
use std::time::Clock;

/// A script that was served, with its reader and its writer.
#[derive(Drop)]
pub struct Served<R: Drop, W: Drop> {
    /// How serving ended.
    pub end: ServeEnd,
    /// The reader, with what was not read.
    pub reader: R,
    /// The writer.
    pub writer: W,
}

// A script of which nothing was served, for want of memory.
#[tactic(auto, using(crate::proofs::Unserved::none_served))]
fn unserved<R: Read + Drop, W: Write + Drop>(reader: R, writer: W) -> Served<R, W>
    ensures { IfSome (R.remaining reader) (λ bytes. IsScript result.end bytes (R.remaining result.reader) (W.contents writer) (W.contents result.writer)) }
{
    Served {
        end: ServeEnd::Memory,
        reader,
        writer,
    }
}

// Serves the lines of a script in a hall that has workers.
#[tactic(auto, using(crate::proofs::LinesServed::script_served, crate::proofs::Unserved::none_served))]
fn serve_lines<L: Named, H: Wait, R: Read, W: Write>(
    rt: &H,
    alloc: Global,
    hall: &Hall<L>,
    reader: &mut CountedReader<R>,
    writer: &mut W,
) -> ServeEnd
    requires unread { reader.old.reads ≡ 0 }
    requires sound { reader.old.failed ≡ false }
    ensures { IfSome (R.remaining reader.old.reader) (λ bytes. IsScript result bytes (R.remaining reader.new.reader) (W.contents writer.old) (W.contents writer.new)) }
{
    let Ok(mut desk) = ScriptDesk::new(alloc, hall) else {
        return ServeEnd::Memory;
    };
    let end = serve(rt, alloc, reader, writer, &mut desk, TURNS);
    desk.close(rt);
    end
}

// Serves a script in a hall that has workers.
fn serve_script<L: Named, H: Wait, R: Read + Drop, W: Write + Drop>(
    rt: &H,
    alloc: Global,
    hall: &Hall<L>,
    reader: R,
    writer: W,
) -> Served<R, W>
    ensures { IfSome (R.remaining reader) (λ bytes. IsScript result.end bytes (R.remaining result.reader) (W.contents writer) (W.contents result.writer)) }
{
    let mut reader = CountedReader::new(reader);
    let mut writer = writer;
    let end = serve_lines(rt, alloc, hall, &mut reader, &mut writer);
    Served {
        end,
        reader: reader.into_reader(),
        writer,
    }
}

// Starts the workers of a hall, serves a script and stops the hall.
fn serve_in<
    's,
    E,
    L: Named + Send + Sync,
    H: Threads + Wait + Clock + Sync,
    R: Read + Drop,
    W: Write + Drop,
>(
    scope: &Scope<'s, E>,
    rt: &'s H,
    alloc: Global,
    hall: &'s Hall<L>,
    reader: R,
    writer: W,
    workers: usize,
) -> Served<R, W>
    ensures { IfSome (R.remaining reader) (λ bytes. IsScript result.end bytes (R.remaining result.reader) (W.contents writer) (W.contents result.writer)) }
{
    let served = if start(scope, rt, hall, workers) {
        serve_script(rt, alloc, hall, reader, writer)
    } else {
        unserved(reader, writer)
    };
    hall.stop(rt);
    served
}

// Serves a script in a hall, with workers beside it.
fn serve_beside<
    L: Named + Send + Sync,
    H: Threads + Wait + Clock + Sync,
    R: Read + Drop,
    W: Write + Drop,
>(rt: &H, alloc: Global, hall: &Hall<L>, reader: R, writer: W, workers: usize) -> Served<R, W>
    ensures { IfSome (R.remaining reader) (λ bytes. IsScript result.end bytes (R.remaining result.reader) (W.contents writer) (W.contents result.writer)) }
{
    thread::scope(
        thread::scope_env(),
        rt,
        move |scope| -> Served<R, W>
            ensures { IfSome (R.remaining reader) (λ bytes. IsScript result.end bytes (R.remaining result.reader) (W.contents writer) (W.contents result.writer)) }
        { serve_in(scope, rt, alloc, hall, reader, writer, workers) },
    )
}

// Serves a script in a hall of its own, under the name of a ledger.
fn serve_named<
    L: Named + Send + Sync,
    H: Threads + Wait + Clock + Sync,
    R: Read + Drop,
    W: Write + Drop,
>(
    rt: &H,
    alloc: Global,
    blank: Blank,
    stamps: Stamps,
    reader: R,
    writer: W,
    workers: usize,
) -> Served<R, W>
    requires ledger { (blank.name ≡ L.name) × (blank.parts ≡ L.parts) × (L.all ≡ L.parts) × (1048576 < L.all) }
    requires stamps { stamps.seen.book ≡ L.book }
    ensures { IfSome (R.remaining reader) (λ bytes. IsScript result.end bytes (R.remaining result.reader) (W.contents writer) (W.contents result.writer)) }
{
    match Hall::<L>::new(alloc, blank, stamps) {
        Ok(hall) => serve_beside(rt, alloc, &hall, reader, writer, workers),
        Err(_) => unserved(reader, writer),
    }
}

/// Serves a script in a hall of its own, with so many workers: the lines of up to 32 sessions by number, in order, each with its reply.
///
/// The end is that of [`serve`], of 16,777,216 turns, and [`ServeEnd::Memory`], with nothing served, where a hall or its workers cannot be made. The
/// sessions that are open at the end are closed, the hall is stopped and its workers have ended.
pub fn run_script<H: Threads + Wait + Clock + Sync, R: Read + Drop, W: Write + Drop>(
    rt: &H,
    alloc: Global,
    reader: R,
    writer: W,
    workers: usize,
) -> Served<R, W>
    ensures { IfSome (R.remaining reader) (λ bytes. IsScript result.end bytes (R.remaining result.reader) (W.contents writer) (W.contents result.writer)) }
{
    serve_named::<Brand, H, R, W>(
        rt,
        alloc,
        Blank::new(PARTS),
        Stamps::new(),
        reader,
        writer,
        workers,
    )
}
