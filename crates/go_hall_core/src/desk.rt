//! The writer of the board, and the readers.
ghost use Rattle.std.specs.Prelude.{◌≡◌, IfErr, IfOk, MatchOption};

use go_board_core::submit_core::Batches;
use go_board_core::{Board, BoardReader, BoardWriter, publish};
use go_sched_core::Ready;
use std::alloc::{AllocError, Global};
use std::mem::ManuallyDrop;
use std::sync::Wait;

/// The writer of the board. Where it is dropped, its board stays for ever.
pub struct Desk {
    writer: BoardWriter,
}

impl Drop for Desk {
    fn drop(self) {
        let Self { writer } = self;
        // SAFETY: a leak breaks nothing: no reader is left that could wait for the writer.
        let _kept = unsafe { ManuallyDrop::new_unchecked(writer) };
    }
}

impl Desk {
    fn into_writer(self) -> BoardWriter
        ensures { result ≡ self.writer }
    {
        let Self { writer } = self;
        writer
    }
}

/// How many readers there are: one for each open session.
pub const READERS: usize = 32;

/// A board of these batches, and its readers.
pub(crate) fn seats(
    alloc: Global,
    batches: &Batches,
) -> Result<(Desk, Vec<BoardReader>), AllocError>
    ensures { IfOk result (λ p. p.0.writer.desk.shown.value ≡ batches.now) }
{
    let mut readers = Vec::with_capacity(alloc, READERS)?;
    let first = Board::of(batches)?;
    let second = Board::of(batches)?;
    let desk = Desk {
        writer: BoardWriter::new(alloc, first, second, READERS)?,
    };
    for _ in 0..READERS {
        readers.push(desk.writer.factory().reader()?)?;
    }
    Ok((desk, readers))
}

/// Shows the batches that are to be published, if any are. It waits for readers.
pub(crate) fn show<R: Wait>(
    rt: &R,
    desk: &mut Option<Desk>,
    ready: &Ready,
) -> Result<(), AllocError>
    requires { MatchOption desk.old ⊥ (λ d. d.writer.desk.shown.value ≡ ready.now.from.published) }
    ensures ok { IfOk result (λ _. MatchOption desk.new ⊥ (λ d. d.writer.desk.shown.value ≡ ready.now.batches)) }
    ensures err { IfErr result (λ _. MatchOption desk.new ⊥ (λ d. d.writer.desk.shown.value ≡ ready.now.from.published)) }
{
    let Some(batches) = ready.batches() else {
        return Ok(());
    };
    let next = Board::of(batches)?;
    let whole = desk.take().unwrap();
    let (writer, shown) = publish(rt, whole.into_writer(), next);
    *desk = Some(Desk { writer });
    shown
}
